//! Where an open term is open.
use crate::env::Env;
use crate::pending::{Argument, Call, Core, Outcome, Pending, Step};
use con_terms::Place;

/// Where something of a call is open: an argument, or the call itself; none where nothing is.
#[cycle(open_place)]
#[inline(never)]
pub fn open_call(call: &Call<'_>, room: u32) -> Option<Place> {
    if call.alone {
        return Some(call.place);
    }
    if room == 0 {
        return Some(call.place);
    }
    for i in 0..call.steps.len() {
        match &call.steps[i] {
            Step::Term(slot) => match &slot.argument {
                Argument::Waiting(pending) => return Some(open_place(pending, room - 1)),
                Argument::New(_) | Argument::Taken => return Some(slot.place),
                Argument::Known(_, _) => {}
            },
            _ => {}
        }
    }
    for i in 0..call.found.count() {
        if call.found.is_open(i) {
            return Some(call.place);
        }
    }
    None
}

/// Where a term is open.
#[cycle(open_place)]
pub fn open_place(pending: &Pending<'_>, room: u32) -> Place {
    match &pending.core {
        Core::Fn(rest) => binder_place(&rest.env, rest.args, rest.from, rest.place),
        Core::Page(rest) => rest.place,
        Core::Call(call) => {
            if room == 0 {
                return call.place;
            }
            match open_call(call, room - 1) {
                Some(place) => place,
                None => call.place,
            }
        }
        Core::Rec(rec) => {
            if room == 0 {
                return rec.place;
            }
            for i in 0..rec.fields.len() {
                match &rec.fields[i].value {
                    Outcome::Later(inner) => return open_place(inner, room - 1),
                    Outcome::Done(_) => {}
                }
            }
            rec.place
        }
    }
}

/// The place of a parameter.
pub fn binder_place(env: &Env, args: &plain_tree::Args, i: usize, otherwise: Place) -> Place {
    match args.items.get(i) {
        Some(plain_tree::Arg::Pat(p)) => env.place(p.at),
        Some(plain_tree::Arg::Con(at, _, _, _, _)) => env.place(*at),
        Some(plain_tree::Arg::Guard(at, _, _)) => env.place(*at),
        None => otherwise,
    }
}
