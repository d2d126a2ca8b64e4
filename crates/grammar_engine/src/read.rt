//! Reading a part to its end.
ghost use Rattle.std.specs.Prelude.{◌≡◌, ◌+◌, ◌∷◌, ◌<◌, ◌-◌, ◌^◌, length, drop, max, true, false, OnOk, IfSome, IfOk, IfErr, IsOkUnless, IsTrue, IsFalse, Some, ◌≤◌};
ghost use Rattle.surface_grammar.specs.Fronts.{first_kind};
ghost use Rattle.surface_grammar.specs.Refusals.{deepest, Whole, WholeTree};
ghost use Rattle.surface_grammar.specs.Trees.{Node, begins, is_open, must_go_on, spell};
ghost use Rattle.grammar_engine.specs.Allowed.{AllowedAt, Beside, Raised, RefusesPart, StopsAllowed};
ghost use Rattle.grammar_engine.specs.Blocks.{StartedBy};
ghost use Rattle.grammar_engine.specs.Exact.{FaultExact, IsSource, NoneGoesOn, StopsText};
ghost use Rattle.grammar_engine.specs.Faults.{byte_at, Deeper, FaultAllowed};
ghost use Rattle.grammar_engine.specs.Laws.{is_raced_form};
ghost use Rattle.grammar_engine.specs.Moves.{Chosen, Kept, MeetsPart};
ghost use Rattle.grammar_engine.specs.Passing.{BindSure, BraceSure, MarkSure, RuleSure, SoleHere, StopsAll, Sure, WayOpen, WayShut, races_of};
ghost use Rattle.grammar_engine.specs.Reads.{Reads};
ghost use Rattle.grammar_engine.specs.Rooms.{least_of};
ghost use Rattle.grammar_engine.specs.Single.{OnlyTree};
ghost use Rattle.grammar_engine.specs.Stuck.{FaultStuck, MeetsBlocked, StopsStuck, StopsWhole};

use crate::machine::choose;
use crate::tokens::{is_at, kind_at};
use crate::{Machine, Stop, Want};
use std::alloc::{AllocError, Global};
use surface_grammar::{ExpRule, Form, ParseFault, Part, Rule, SqlRule, Tree};
use surface_tree::{Kind, Tokens};

/// A way of reading that may be open: a tree of the form begins at the place, and such a token
/// stands behind it.
#[derive(Clone, Copy)]
struct Way {
    form: Form,
    start: usize,
    behind: Kind,
}

/// What was read: the tree, the place behind it, and the farthest place at which a way that was
/// tried beside it was refused.
#[derive(Drop)]
pub struct Reading {
    pub tree: Tree,
    pub behind: usize,
    pub far: usize,
}

/// Reads the longest tree for the part that begins at the place and is at most so many levels
/// deep, and tells the place behind it. Where one token doesn't decide between two rules of a form,
/// it tries the first of them beforehand, at most `races` times within each other. With at least
/// two races (for a pattern one, for a kind none) no other tree has the tokens up to the one behind
/// it and to the farthest that was looked at, and where a token is refused, no tree has it: `sole`
/// and `ends` ask for so many.
#[cycle(read)]
pub fn read_part(
    alloc: Global,
    tokens: &Tokens,
    part: Part,
    at: usize,
    room: u64,
    races: u32,
) -> Result<Reading, Stop>
    ensures reads { IfOk result (λ read. Reads tokens.now.items part at room read.tree read.behind) }
    ensures place { IfOk result (λ read. read.behind ≡ at + length read.tree.leaves) }
    ensures come { IfOk result (λ read. AllowedAt tokens.now.items part at room (max read.behind read.far)) }
    ensures allowed { IfErr result (StopsAllowed tokens.now.items part at room) }
    ensures stuck { IfErr result (StopsStuck tokens.now.items part at room) }
    ensures sole { IfOk result (λ read. SoleHere tokens.now.items part at room races read.tree read.behind read.far) }
    ensures ends { IfErr result (StopsAll tokens.now.items part at room races) }
{
    let mut machine = Machine::new(alloc, part, at, room)?;
    while let Some(want) = machine.wants.pop() {
        meet(&mut machine, alloc, tokens, want, races)?;
    }
    Ok(Reading {
        tree: machine.tree,
        behind: machine.at,
        far: machine.far,
    })
}

/// Meets what is to be read next.
#[cycle(read)]
fn meet(
    machine: &mut Machine,
    alloc: Global,
    tokens: &Tokens,
    want: Want,
    races: u32,
) -> Result<(), Stop>
    ensures meets { OnOk result (MeetsPart tokens.now.items want.part want.room want.tag machine.old machine.new) }
    ensures raised { OnOk result
        (Raised (Beside tokens.now.items want.part want.room machine.old.at machine.old.wants)
        machine.old.far machine.new.far) }
    ensures refused { IfErr result (RefusesPart tokens.now.items want.part want.room machine.old) }
    ensures blocked { IfErr result (MeetsBlocked tokens.now.items want.part want.room want.tag machine.old.at) }
    ensures sure { OnOk result (Sure tokens.now.items want.part want.room races machine.old machine.new) }
{
    match want.part {
        Part::Word(word) => machine.take(alloc, tokens, word, want.tag),
        Part::One(form) => {
            let rule = pick(machine, alloc, tokens, form, want.room, races)?;
            machine.begin(tokens, form, rule, want.room, want.tag)
        }
        Part::Many(form) => Ok(machine.again(tokens, form, want.room, want.tag)?),
        Part::Maybe(form) => {
            let taken = goes_on(machine, alloc, tokens, form, races)?;
            Ok(machine.perhaps(tokens, form, want.room, want.tag, taken)?)
        }
    }
}

/// The rule of the form by which reading goes on.
#[cycle(read)]
fn pick(
    machine: &mut Machine,
    alloc: Global,
    tokens: &Tokens,
    form: Form,
    room: u64,
    races: u32,
) -> Result<Rule, Stop>
    ensures chosen { IfOk result (λ q. Chosen form (first_kind (drop machine.old.at tokens.now.items)) q) }
    ensures kept { OnOk result (Kept machine.old machine.new) }
    ensures raised { OnOk result
        (Raised
        (Beside tokens.now.items
        (Part.One form) room machine.old.at machine.old.wants) machine.old.far machine.new.far) }
    ensures refused { IfErr result (RefusesPart tokens.now.items (Part.One form) room machine.old) }
    ensures blocked { IfErr result (MeetsBlocked tokens.now.items (Part.One form) room 0 machine.old.at) }
    ensures sure { IfOk result (λ q. RuleSure tokens.now.items form q room races machine.old.at machine.new.far) }
    ensures starts { IfOk result
        (λ q. is_raced_form form ≡ false → StartedBy (first_kind (drop machine.old.at tokens.now.items)) q) }
    ensures roomy { IfOk result (λ q. is_raced_form form ≡ true → least_of q ≤ room) }
{
    match form {
        Form::Exp => {
            if is_bind(machine, alloc, tokens, room, races)? {
                return Ok(Rule::Exp(ExpRule::ExpBind));
            }
            Ok(Rule::Exp(ExpRule::ExpPlain))
        }
        Form::SqlBraceRest => {
            if is_splice(machine, tokens, room) {
                return Ok(Rule::Sql(SqlRule::SqlSplice));
            }
            Ok(Rule::Sql(SqlRule::SqlExp))
        }
        _ => choose(form, kind_at(tokens, machine.at)).ok_or(machine.refuse()),
    }
}

/// Whether braces in a query begin with `[` that isn't the empty list: a splice. Where `[` stands, the token behind
/// it has been looked at. Without room neither has a tree.
pub fn is_splice(machine: &mut Machine, tokens: &Tokens, room: u64) -> bool
    ensures splice { IsTrue result
        → BraceSure tokens.now.items (Rule.Sql SqlRule.SqlSplice) room machine.old.at machine.new.far }
    ensures other { IsFalse result
        → BraceSure tokens.now.items (Rule.Sql SqlRule.SqlExp) room machine.old.at machine.new.far }
    ensures kept { Kept machine.old machine.new }
    ensures raised { Raised
        (Beside tokens.now.items
        (Part.One Form.SqlBraceRest) room machine.old.at machine.old.wants) machine.old.far machine.new.far }
{
    if room == 0 || machine.at >= tokens.len() {
        return false;
    }
    if !is_at(tokens, machine.at, Kind::LeftBracket) {
        return false;
    }
    let second = machine.at + 1;
    machine.far = machine.far.max(second);
    !is_at(tokens, second, Kind::RightBracket)
}

/// Whether a pattern and `<-` stand here. Where they don't, the place at which this way is refused
/// is kept. Without room for what stands behind `<-` they can't.
#[cycle(read)]
fn is_bind(
    machine: &mut Machine,
    alloc: Global,
    tokens: &Tokens,
    room: u64,
    races: u32,
) -> Result<bool, AllocError>
    ensures kept { OnOk result (Kept machine.old machine.new) }
    ensures raised { OnOk result
        (Raised
        (Beside tokens.now.items
        (Part.One Form.Exp) room machine.old.at machine.old.wants) machine.old.far machine.new.far) }
    ensures bind { IfOk result
        (λ stands. IsTrue stands → 2 ≤ races
        → BindSure tokens.now.items (Rule.Exp ExpRule.ExpBind) room races machine.old.at machine.new.far) }
    ensures other { IfOk result
        (λ stands. IsFalse stands → 2 ≤ races
        → BindSure tokens.now.items (Rule.Exp ExpRule.ExpPlain) room races machine.old.at machine.new.far) }
    ensures roomy { IfOk result (λ stands. IsTrue stands → 0 < room) }
{
    if room == 0 {
        return Ok(false);
    }
    let way = Way {
        form: Form::Pat,
        start: machine.at,
        behind: Kind::LeftArrow,
    };
    try_way(machine, alloc, tokens, way, room, races)
}

/// Whether an option of the form is taken.
#[cycle(read)]
#[tactic(auto, using(crate::proofs::Table::Colons::colons_begin, crate::proofs::Table::Colons::colons_may_end))]
fn goes_on(
    machine: &mut Machine,
    alloc: Global,
    tokens: &Tokens,
    form: Form,
    races: u32,
) -> Result<bool, AllocError>
    ensures ended { IfOk result
        (λ taken. taken ≡ false → must_go_on form (first_kind (drop machine.old.at tokens.now.items)) ≡ false) }
    ensures begun { IfOk result
        (λ taken. taken ≡ true → begins form (first_kind (drop machine.old.at tokens.now.items)) ≡ true) }
    ensures sure { IfOk result
        (λ taken. is_open form (first_kind (drop machine.old.at tokens.now.items)) ≡ true → 1 ≤ races
        → MarkSure taken tokens.now.items races machine.old.at machine.old.wants machine.new.far) }
    ensures kept { OnOk result (Kept machine.old machine.new) }
    ensures raised { OnOk result
        (Raised
        (Beside tokens.now.items
        (Part.Maybe form) 0 machine.old.at machine.old.wants) machine.old.far machine.new.far) }
{
    let next = kind_at(tokens, machine.at);
    match (form, next) {
        (Form::ConForall, Some(Kind::DoubleColon)) => {
            Ok(!is_kind_mark(machine, alloc, tokens, races)?)
        }
        _ => Ok(form.begins(next)),
    }
}

/// Whether the `::` here is that of a constructor with its kind in brackets: a constructor may end
/// here, and a kind and `)` follow, for which there is as much room as in the brackets.
#[cycle(read)]
fn is_kind_mark(
    machine: &mut Machine,
    alloc: Global,
    tokens: &Tokens,
    races: u32,
) -> Result<bool, AllocError>
    requires { first_kind (drop machine.old.at tokens.now.items) ≡ Some Kind.DoubleColon }
    ensures kept { OnOk result (Kept machine.old machine.new) }
    ensures raised { OnOk result
        (Raised
        (Beside tokens.now.items
        (Part.Maybe Form.ConForall) 0 machine.old.at machine.old.wants) machine.old.far machine.new.far) }
    ensures mark { IfOk result
        (λ mark. IsTrue mark → 1 ≤ races
        → MarkSure false tokens.now.items races machine.old.at machine.old.wants machine.new.far) }
    ensures other { IfOk result
        (λ mark. IsFalse mark → 1 ≤ races
        → MarkSure true tokens.now.items races machine.old.at machine.old.wants machine.new.far) }
{
    if machine.at >= tokens.len() {
        return Ok(false);
    }
    match machine.wants.first_solid() {
        Some(
            Want {
                part: Part::One(Form::ConParenEnd),
                room,
                ..
            },
        ) => {
            let way = Way {
                form: Form::KindTerm,
                start: machine.at + 1,
                behind: Kind::RightParenthesis,
            };
            try_way(machine, alloc, tokens, way, room, races)
        }
        _ => Ok(false),
    }
}

/// Whether the way is open. Where it isn't, the place at which it is refused is kept.
#[cycle(read)]
fn try_way(
    machine: &mut Machine,
    alloc: Global,
    tokens: &Tokens,
    way: Way,
    room: u64,
    races: u32,
) -> Result<bool, AllocError>
    ensures kept { OnOk result (Kept machine.old machine.new) }
    ensures raised { OnOk result
        (Raised (AllowedAt tokens.now.items (Part.One way.form) way.start room) machine.old.far machine.new.far) }
    ensures stands { IfOk result
        (λ stands. IsTrue stands → WayOpen tokens.now.items way.form way.behind way.start machine.new.far) }
    ensures shut { IfOk result
        (λ stands. IsFalse stands → races_of (Part.One way.form) < races
        → WayShut tokens.now.items way.form way.behind way.start room (races - 1) machine.new.far) }
{
    if races == 0 {
        return Ok(false);
    }
    if !way.form.begins(kind_at(tokens, way.start)) {
        machine.far = machine.far.max(way.start);
        return Ok(false);
    }
    match read_part(
        alloc,
        tokens,
        Part::One(way.form),
        way.start,
        room,
        races - 1,
    ) {
        Ok(read) => {
            machine.far = machine.far.max(read.behind.max(read.far));
            Ok(is_at(tokens, read.behind, way.behind))
        }
        Err(Stop::Refused(place)) => {
            machine.far = machine.far.max(place);
            Ok(false)
        }
        Err(Stop::Memory) => Err(AllocError),
    }
}

/// The byte of the text at which the token at the place begins, or the text's length at the end.
fn byte_of(tokens: &Tokens, place: usize) -> u32
    ensures { result ≡ byte_at tokens.now place }
{
    if place < tokens.len() {
        tokens.at(place).at
    } else {
        tokens.end()
    }
}

/// How deep the trees of a text may be.
pub const DEEPEST: u64 = 200;

/// Reads all the tokens as a tree for the part that begins at the place and is at most so many
/// levels deep.
fn read_all(alloc: Global, tokens: &Tokens, part: Part, room: u64) -> Result<Tree, Stop>
    requires { 2 ≤ room }
    ensures tree { IfOk result (λ tree. WholeTree room part tokens.now.items tree) }
    ensures allowed { IfErr result (StopsAllowed tokens.now.items part 0 room) }
    ensures stuck { IfErr result (StopsWhole tokens.now.items part room) }
    ensures ends { IfErr result (StopsText part tokens.now.items room) }
{
    let read = read_part(alloc, tokens, part, 0, room, 2)?;
    if read.behind < tokens.len() {
        return Err(Stop::Refused(read.behind.max(read.far)));
    }
    Ok(read.tree)
}

/// Whether a tree of any depth goes on at the place.
fn is_deeper(alloc: Global, tokens: &Tokens, part: Part, place: usize) -> Result<bool, AllocError>
    requires few { length tokens.now.items < 2 ^ 32 }
    requires within { place ≤ length tokens.now.items }
    ensures deeper { IfOk result (λ deeper. IsTrue deeper → Deeper part tokens.now.items place) }
    ensures no_deeper { IfOk result (λ deeper. IsFalse deeper → NoneGoesOn part tokens.now.items place) }
{
    match read_all(alloc, tokens, part, u64::MAX) {
        Ok(_tree) => Ok(true),
        Err(Stop::Refused(later)) => Ok(place < later),
        Err(Stop::Memory) => Err(AllocError),
    }
}

/// The tree for the part that spells the tokens, at most 200 levels deep. A fault tells the byte of
/// the first token, or of the end, that no such tree allows after the tokens before it: `TooDeep`
/// where a deeper one does, else `Syntax`.
pub fn read_whole(alloc: Global, tokens: &Tokens, part: Part) -> Result<Tree, ParseFault>
    requires { length tokens.now.items < 2 ^ 32 }
    ensures tree { IfOk result (λ tree. WholeTree deepest part tokens.now.items tree) }
    ensures only { IfOk result (OnlyTree part tokens.now.items) }
    ensures allowed { IfErr result (FaultAllowed part tokens.now) }
    ensures stuck { IfErr result (FaultStuck part tokens.now) }
    ensures exact { IsSource part → IfErr result (FaultExact part tokens.now) }
    ensures complete { IsSource part → (n : Node) → Whole deepest part n → spell n ≡ tokens.now.items
        → IsOkUnless result ParseFault.Memory }
{
    let place = match read_all(alloc, tokens, part, DEEPEST) {
        Ok(tree) => return Ok(tree),
        Err(Stop::Refused(place)) => place,
        Err(Stop::Memory) => return Err(ParseFault::Memory),
    };
    let at = byte_of(tokens, place);
    if is_deeper(alloc, tokens, part, place)? {
        return Err(ParseFault::TooDeep { at });
    }
    Err(ParseFault::Syntax { at })
}
