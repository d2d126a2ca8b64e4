//! The steps of reading what is no hole.
ghost use Rattle.std.specs.Prelude.{◌≡◌, false, drop, IfSome, IfNone, IfErr, OnOk};
ghost use Rattle.surface_grammar.specs.declared.part.Part.TheVariants.{One};
ghost use Rattle.surface_grammar.specs.Fronts.{first_kind};
ghost use Rattle.surface_grammar.specs.Trees.{begins};
ghost use Rattle.grammar_engine.specs.Allowed.{RefusesPart};
ghost use Rattle.grammar_engine.specs.Moves.{Chosen, Kept, MeetsPart};
ghost use Rattle.grammar_engine.specs.Passing.{RuleSure, Sure};
ghost use Rattle.grammar_engine.specs.Stuck.{MeetsBlocked};
ghost use Rattle.hole_reader.specs.Progress.{Counted, Looked};
ghost use Rattle.hole_reader.specs.Refuses.{RoomFor};

use grammar_engine::{Machine, Stop, Want, choose, is_splice, kind_at};
use std::alloc::Global;
use surface_grammar::{Form, Part, Rule, SqlRule};
use surface_tree::Tokens;

/// The rule of the form by which reading goes on. In a query's braces, `[` with no `]` behind it begins a spliced
/// value.
fn pick(machine: &mut Machine, tokens: &Tokens, form: Form, room: u64) -> Option<Rule>
    ensures chosen { IfSome result (λ rule. Chosen form (first_kind (drop machine.old.at tokens.now.items)) rule) }
    ensures sure { IfSome result (λ rule. RuleSure tokens.now.items form rule room 0 machine.old.at machine.new.far) }
    ensures none { IfNone result (begins form (first_kind (drop machine.old.at tokens.now.items)) ≡ false) }
    ensures kept { Kept machine.old machine.new }
    ensures looked { Looked tokens.now.items (One form) room machine.old machine.new }
{
    match form {
        Form::SqlBraceRest => {
            if is_splice(machine, tokens, room) {
                return Some(Rule::Sql(SqlRule::SqlSplice));
            }
            Some(Rule::Sql(SqlRule::SqlExp))
        }
        _ => choose(form, kind_at(tokens, machine.at)),
    }
}

/// Begins a tree of the form. A level that can't be counted counts as want of memory, since the stack is memory.
fn meet_form(machine: &mut Machine, tokens: &Tokens, form: Form, want: Want) -> Result<(), Stop>
    ensures meets { OnOk result (MeetsPart tokens.now.items (One form) want.room want.tag machine.old machine.new) }
    ensures sure { OnOk result (Sure tokens.now.items (One form) want.room 0 machine.old machine.new) }
    ensures looked { OnOk result (Looked tokens.now.items (One form) want.room machine.old machine.new) }
    ensures counted { OnOk result (Counted (One form) want.room) }
    ensures refused { IfErr result (RefusesPart tokens.now.items (One form) want.room machine.old) }
    ensures blocked { IfErr result (MeetsBlocked tokens.now.items (One form) want.room want.tag machine.old.at) }
    ensures enough { IfErr result (RoomFor (One form) want.room) }
{
    if want.room < 2 {
        return Err(Stop::Memory);
    }
    match pick(machine, tokens, form, want.room) {
        Some(rule) => machine.begin(tokens, form, rule, want.room, want.tag),
        None => Err(machine.refuse()),
    }
}

/// Meets what is to be read next, which is no hole.
pub fn meet(machine: &mut Machine, alloc: Global, tokens: &Tokens, want: Want) -> Result<(), Stop>
    ensures meets { OnOk result (MeetsPart tokens.now.items want.part want.room want.tag machine.old machine.new) }
    ensures sure { OnOk result (Sure tokens.now.items want.part want.room 0 machine.old machine.new) }
    ensures looked { OnOk result (Looked tokens.now.items want.part want.room machine.old machine.new) }
    ensures counted { OnOk result (Counted want.part want.room) }
    ensures refused { IfErr result (RefusesPart tokens.now.items want.part want.room machine.old) }
    ensures blocked { IfErr result (MeetsBlocked tokens.now.items want.part want.room want.tag machine.old.at) }
    ensures enough { IfErr result (RoomFor want.part want.room) }
{
    match want.part {
        Part::Word(word) => machine.take(alloc, tokens, word, want.tag),
        Part::One(form) => meet_form(machine, tokens, form, want),
        Part::Many(form) => Ok(machine.again(tokens, form, want.room, want.tag)?),
        Part::Maybe(form) => {
            let taken = form.begins(kind_at(tokens, machine.at));
            Ok(machine.perhaps(tokens, form, want.room, want.tag, taken)?)
        }
    }
}
