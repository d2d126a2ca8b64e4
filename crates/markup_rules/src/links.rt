//! Links and actions: calls of top-level functions whose arguments can travel.
ghost use Rattle.std.specs.Prelude.{◌≡◌, true, map, option_map, slice_get, IfOk};
ghost use Rattle.carried_types.specs.View.{carriers_view};
ghost use Rattle.con_terms.specs.View.{con_tree};
ghost use Rattle.core_terms.specs.Lists.{item_list, item_tree};
ghost use Rattle.core_terms.specs.View.{datatype_view, exp_tree, items_tree, maybe_con};
ghost use Rattle.markup_rules.specs.Links as computed;
ghost use Rattle.markup_rules.specs.View.{call_view, lack_view, link_view};

use carried_types::{CarriedTo, Carriers, can_fill, carried_behind, sends_form, shows_page};
use con_terms::Con;
use core_terms::{Datatype, Exp, Form, Item, Items};
use judgements::{Globals, is_alike, normal_of};
use std::alloc::{AllocError, Global};

/// What a link or an action breaks. Contracts see it as `link_view`.
#[derive(Clone, Copy, Debug, PartialEq, Eq)]
pub enum LinkFault {
    Nothing,
    NotCall,
    NotSerialisable,
}

/// Whether a term is a top-level value.
fn is_top(e: &Exp) -> bool
    ensures { result ≡ computed.is_top (exp_tree e.now) }
{
    match &e.form {
        Form::Top(_) => true,
        _ => false,
    }
}

/// Whether a term is a top-level value, or a call of one.
fn calls_top(e: &Exp) -> bool
    ensures { result ≡ computed.calls_top (exp_tree e.now) }
{
    match &e.form {
        Form::Top(_) => true,
        Form::Call(f, _, _) => is_top(f),
        _ => false,
    }
}

/// Whether an item is a term.
fn is_term(item: &Item) -> bool
    ensures { result ≡ computed.is_term (item_tree item.now) }
{
    match item {
        Item::Term(_) => true,
        _ => false,
    }
}

/// The number of the terms that a call has, where it has nothing else.
fn term_count(items: &Items) -> Option<usize>
    ensures { result ≡ computed.term_count (item_list (items_tree items.now)) }
{
    for i in 0..items.len() {
        if !is_term(items.at(i)) {
            return None;
        }
    }
    Some(items.len())
}

/// A call of a top-level value: its number, and how many arguments it has.
#[derive(Clone, Copy)]
pub struct TopCall {
    pub top: u32,
    pub arguments: usize,
}

/// The call of a top-level value with so many terms.
fn call_of_top(f: &Exp, count: Option<usize>) -> Option<TopCall>
    ensures { call_view result ≡ computed.call_of_top (exp_tree f.now) count }
{
    match &f.form {
        Form::Top(i) => match count {
            None => None,
            Some(arguments) => Some(TopCall { top: *i, arguments }),
        },
        _ => None,
    }
}

/// The call of a top-level value with terms alone that a term is.
fn call_of(e: &Exp) -> Option<TopCall>
    ensures { call_view result ≡ computed.call_of (exp_tree e.now) }
{
    match &e.form {
        Form::Top(i) => Some(TopCall {
            top: *i,
            arguments: 0,
        }),
        Form::Call(f, _, items) => call_of_top(f, term_count(items)),
        _ => None,
    }
}

/// The type of a top-level value.
fn type_of(g: &Globals, i: u32) -> Option<&Con>
    ensures { option_map (λ c. con_tree c.now) result ≡ slice_get (map con_tree g.now.tops.items) i }
{
    let index = i as usize;
    if index < g.tops.len() {
        Some(&g.tops[index])
    } else {
        None
    }
}

/// Whether a type is that of a link's or an action's function of so many arguments.
fn carries(
    alloc: Global,
    datatypes: &Vec<Datatype>,
    all: &Carriers,
    is_action: bool,
    count: usize,
    t: &Con,
) -> Result<bool, AllocError>
    ensures { IfOk result
        (λ r. r ≡ computed.carries_type (map datatype_view datatypes.now.items) (carriers_view all.now) is_action
        count (con_tree t.now)) }
{
    if is_action {
        sends_form(alloc, datatypes, all, count, t)
    } else {
        shows_page(alloc, datatypes, all, count, t)
    }
}

/// Whether a link's or an action's call has the type of one, and carries its arguments.
fn is_linked(
    alloc: Global,
    g: &Globals,
    all: &Carriers,
    is_action: bool,
    e: &Exp,
) -> Result<bool, AllocError>
    ensures { IfOk result
        (λ r. r ≡ computed.is_linked (map con_tree g.now.tops.items) (map datatype_view g.now.datatypes.items)
        (carriers_view all.now) is_action (exp_tree e.now)) }
{
    match call_of(e) {
        None => Ok(false),
        Some(call) => match type_of(g, call.top) {
            None => Ok(false),
            Some(t) => carries(alloc, &g.datatypes, all, is_action, call.arguments, t),
        },
    }
}

/// Whether a type takes a constructor or a guard's proof.
fn is_generic(n: &Con) -> bool
    ensures { result ≡ computed.is_generic (con_tree n.now) }
{
    match n {
        Con::Poly(_, _, _) | Con::Guarded(_, _, _) => true,
        _ => false,
    }
}

/// Whether a type is there in normal form, and takes no constructor and no guard's proof.
fn is_plain(alloc: Global, t: &Con) -> Result<bool, AllocError>
    ensures { IfOk result (λ r. r ≡ computed.is_plain (con_tree t.now)) }
{
    match normal_of(alloc, t)? {
        None => Ok(false),
        Some(n) => Ok(!is_generic(&n)),
    }
}

/// Whether a function's type in normal form is that of one that takes a form's fields and gives something plain.
fn fills_plain(alloc: Global, a: &Con, b: &Con) -> Result<bool, AllocError>
    ensures { IfOk result (λ r. r ≡ computed.fills_plain_at (con_tree a.now) (con_tree b.now)) }
{
    let fills = can_fill(alloc, a)?;
    if !fills {
        return Ok(false);
    }
    is_plain(alloc, b)
}

/// Whether what is behind an action's arguments lets it travel.
fn form_travels(alloc: Global, rest: &Con) -> Result<bool, AllocError>
    ensures { IfOk result (λ r. r ≡ computed.rest_travels true (con_tree rest.now)) }
{
    match normal_of(alloc, rest)? {
        Some(Con::Arrow(a, b)) => fills_plain(alloc, &a, &b),
        _ => Ok(false),
    }
}

/// Whether what is behind a call's arguments lets it travel.
fn rest_travels(alloc: Global, is_action: bool, rest: &Con) -> Result<bool, AllocError>
    ensures { IfOk result (λ r. r ≡ computed.rest_travels is_action (con_tree rest.now)) }
{
    if is_action {
        form_travels(alloc, rest)
    } else {
        is_plain(alloc, rest)
    }
}

/// Whether so many arguments of a type travel, whatever it gives behind them.
fn arguments_travel(
    alloc: Global,
    datatypes: &Vec<Datatype>,
    all: &Carriers,
    is_action: bool,
    count: usize,
    t: &Con,
) -> Result<bool, AllocError>
    ensures { IfOk result
        (λ r. r ≡ computed.type_travels (map datatype_view datatypes.now.items) (carriers_view all.now) is_action
        count (con_tree t.now)) }
{
    match carried_behind(alloc, datatypes, all, count, t)? {
        CarriedTo::No => Ok(false),
        CarriedTo::Left(rest) => rest_travels(alloc, is_action, &rest),
    }
}

/// Whether the arguments of a link's or an action's call travel, whatever the function gives.
fn travels(
    alloc: Global,
    g: &Globals,
    all: &Carriers,
    is_action: bool,
    e: &Exp,
) -> Result<bool, AllocError>
    ensures { IfOk result
        (λ r. r ≡ computed.travels (map con_tree g.now.tops.items) (map datatype_view g.now.datatypes.items)
        (carriers_view all.now) is_action (exp_tree e.now)) }
{
    match call_of(e) {
        None => Ok(false),
        Some(call) => match type_of(g, call.top) {
            None => Ok(false),
            Some(t) => arguments_travel(alloc, &g.datatypes, all, is_action, call.arguments, t),
        },
    }
}

/// What a link of another type than the wanted one lacks. Contracts see it as `lack_view`.
#[derive(Clone, Copy)]
enum Lack {
    /// It lacks arguments, or an action has all or lacks more than the form.
    NotCall,
    /// It is called as it should be.
    AsCalled,
    /// Its type is too large.
    Unknown,
}

/// What a link's type lacks.
fn link_lack(n: &Con) -> Lack
    ensures { lack_view result ≡ computed.link_lack (con_tree n.now) }
{
    match n {
        Con::Arrow(_, _) => Lack::NotCall,
        _ => Lack::AsCalled,
    }
}

/// What is lacking where this is left behind a form.
fn lack_behind(alloc: Global, b: &Con) -> Result<Lack, AllocError>
    ensures { IfOk result (λ l. lack_view l ≡ computed.lack_behind (con_tree b.now)) }
{
    match normal_of(alloc, b)? {
        None => Ok(Lack::Unknown),
        Some(n) => Ok(link_lack(&n)),
    }
}

/// What an action's type lacks that is no function.
fn lack_of_other(n: &Con) -> Lack
    ensures { lack_view result ≡ computed.when_generic (computed.is_generic (con_tree n.now)) }
{
    if is_generic(n) {
        Lack::AsCalled
    } else {
        Lack::NotCall
    }
}

/// What an action's type lacks.
fn action_lack(alloc: Global, n: &Con) -> Result<Lack, AllocError>
    ensures { IfOk result (λ l. lack_view l ≡ computed.action_lack (con_tree n.now)) }
{
    match n {
        Con::Arrow(_, b) => lack_behind(alloc, b),
        other => Ok(lack_of_other(other)),
    }
}

/// What the type of a link or an action lacks.
fn lack_of(alloc: Global, is_action: bool, v: &Con) -> Result<Lack, AllocError>
    ensures { IfOk result (λ l. lack_view l ≡ computed.lack_of is_action (con_tree v.now)) }
{
    match normal_of(alloc, v)? {
        None => Ok(Lack::Unknown),
        Some(n) => {
            if is_action {
                action_lack(alloc, &n)
            } else {
                Ok(link_lack(&n))
            }
        }
    }
}

/// What a link or an action of the wanted type, or of another, breaks.
fn of_alike(
    alloc: Global,
    g: &Globals,
    all: &Carriers,
    is_action: bool,
    e: &Exp,
    v: &Con,
    alike: bool,
) -> Result<LinkFault, AllocError>
    ensures { IfOk result
        (λ r. link_view r ≡ computed.of_alike (map con_tree g.now.tops.items)
        (map datatype_view g.now.datatypes.items) (carriers_view all.now) is_action (exp_tree e.now)
        (con_tree v.now) alike) }
{
    if alike {
        return Ok(told_unless(is_linked(alloc, g, all, is_action, e)?));
    }
    match lack_of(alloc, is_action, v)? {
        Lack::NotCall => Ok(LinkFault::NotCall),
        Lack::Unknown => Ok(LinkFault::Nothing),
        Lack::AsCalled => Ok(told_unless(travels(alloc, g, all, is_action, e)?)),
    }
}

/// What a link or an action breaks, whose wanted type is `t` and for which `found` is found.
pub fn link_fault(
    alloc: Global,
    g: &Globals,
    all: &Carriers,
    is_action: bool,
    t: &Con,
    e: &Exp,
    found: &Option<Con>,
) -> Result<LinkFault, AllocError>
    ensures { IfOk result
        (λ r. link_view r ≡ computed.link_fault (map con_tree g.now.tops.items)
        (map datatype_view g.now.datatypes.items) (carriers_view all.now) is_action (con_tree t.now) (exp_tree e.now)
        (maybe_con found.now)) }
{
    if !calls_top(e) {
        return Ok(LinkFault::NotCall);
    }
    match found {
        None => Ok(LinkFault::Nothing),
        Some(v) => {
            let alike = is_alike(alloc, t, v)?;
            of_alike(alloc, g, all, is_action, e, v, alike)
        }
    }
}

/// Nothing where it holds that arguments are carried.
fn told_unless(is_carried: bool) -> LinkFault
    ensures { link_view result ≡ computed.told_unless is_carried }
{
    if is_carried {
        LinkFault::Nothing
    } else {
        LinkFault::NotSerialisable
    }
}
