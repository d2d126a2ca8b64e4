//! The state of reading, and its steps.
ghost use Rattle.std.specs.Prelude.{◌≡◌, ◌≤◌, ◌++◌, ◌∷◌, [], ◌<◌, ◌≢◌, length, drop, max, true, false, OnOk, IfOk, IfErr, IfSome, IfNone, IsTrue, IsFalse};
ghost use Rattle.surface_grammar.specs.Fronts.{first_kind};
ghost use Rattle.surface_grammar.specs.Table.{body_of};
ghost use Rattle.surface_grammar.specs.Trees.{begins, depth_of, must_go_on};
ghost use Rattle.grammar_engine.specs.Allowed.{RefusedHere};
ghost use Rattle.grammar_engine.specs.Blocks.{Cramped, StartedBy, TakeBlocked};
ghost use Rattle.grammar_engine.specs.Moves.{Begun, Chosen, Expands, Goes, Takes, wants_of};
ghost use Rattle.grammar_engine.specs.Passing.{Marked};
ghost use Rattle.grammar_engine.specs.Places.{name_at};
ghost use Rattle.grammar_engine.specs.Rooms.{least_of};

use crate::tokens::{copy_token, kind_at, same_name};
use crate::{Stop, Want, Wants};
use std::alloc::{AllocError, Global};
use surface_grammar::words::accepts;
use surface_grammar::{ConRule, ExpRule, Form, Mark, Part, Rule, SqlRule, Tree, is_tag};
use surface_tree::{Content, Kind, Tokens};

/// How far reading has come: the place of the next token, what is still to be read, the tree so
/// far, and the farthest place at which a way that was tried beside this one was refused.
#[derive(Drop)]
pub struct Machine {
    pub at: usize,
    pub wants: Wants,
    pub tree: Tree,
    pub far: usize,
}

/// Whether the token at the place holds the name that the token at the other place holds.
fn is_named(tokens: &Tokens, place: usize, tag: usize) -> bool
    requires { place < length tokens.now.items }
    ensures yes { IsTrue result → name_at tokens.now.items place ≡ name_at tokens.now.items tag }
    ensures other { IsFalse result → name_at tokens.now.items place ≢ name_at tokens.now.items tag }
{
    let token = tokens.at(place);
    if tag < tokens.len() {
        same_name(token, tokens.at(tag))
    } else {
        matches!(token.content, Content::Nothing)
    }
}

/// How many levels every tree of the rule has, as far as a part that it must have shows it: where
/// there is less room, no tree allows its first token.
fn least_room(rule: Rule) -> u64
    ensures depth { depth_of rule ≤ result }
    ensures least { result ≡ least_of rule }
{
    match rule {
        Rule::Sql(SqlRule::ItemBraces | SqlRule::TableBraces) => 2,
        Rule::Con(
            ConRule::ConBracket
            | ConRule::BracketInt
            | ConRule::BracketLower
            | ConRule::BracketUpper
            | ConRule::BracketHash
            | ConRule::BracketHashUpper,
        )
        | Rule::Exp(ExpRule::ExpBind)
        | Rule::Sql(SqlRule::SqlInsert) => 1,
        _ => u64::from(rule.is_deep()),
    }
}

/// The first rule of the form that the token begins.
pub fn choose(form: Form, next: Option<Kind>) -> Option<Rule>
    ensures chosen { IfSome result (λ q. Chosen form next q) }
    ensures starts { IfSome result (StartedBy next) }
    ensures none { IfNone result (begins form next ≡ false) }
{
    let kind = next?;
    for rule in form.rules() {
        if rule.starts(kind) {
            return Some(*rule);
        }
    }
    None
}

impl Machine {
    /// The part is to be read from this place on, at most so many levels deep.
    pub fn new(alloc: Global, part: Part, at: usize, room: u64) -> Result<Machine, AllocError>
        ensures { IfOk result (Begun part at room) }
    {
        let mut wants = Wants::new(alloc);
        wants.push(Want {
            part,
            room,
            tag: at,
        })?;
        Ok(Machine {
            at,
            wants,
            tree: Tree::new(alloc),
            far: at,
        })
    }

    /// The refusal of the next token, or of a later one that another way came to.
    pub fn refuse(&self) -> Stop
        ensures { result ≡ Stop.Refused (max self.now.at self.now.far) }
    {
        Stop::Refused(self.at.max(self.far))
    }

    /// Takes the next token for the word.
    pub fn take(
        &mut self,
        alloc: Global,
        tokens: &Tokens,
        word: Kind,
        tag: usize,
    ) -> Result<(), Stop>
        ensures takes { OnOk result (Takes tokens.now.items word tag self.old self.new) }
        ensures blocked { IfErr result (TakeBlocked tokens.now.items word tag self.old.at) }
        ensures refused { IfErr result (RefusedHere self.old) }
        ensures far { self.new.far ≡ self.old.far }
    {
        if self.at >= tokens.len() {
            return Err(self.refuse());
        }
        let token = tokens.at(self.at);
        if !accepts(word, token.kind) {
            return Err(self.refuse());
        }
        if is_tag(word) && !is_named(tokens, self.at, tag) {
            return Err(self.refuse());
        }
        self.tree.leaf(copy_token(alloc, token)?)?;
        self.tree.mark(Mark::Leaf)?;
        self.at += 1;
        Ok(())
    }

    /// The parts of the rule are to be read.
    fn expand(&mut self, rule: Rule, room: u64, tag: usize) -> Result<(), AllocError>
        ensures wants { OnOk result (self.new.wants ≡ wants_of room tag (body_of rule) ++ self.old.wants) }
        ensures tree { OnOk result (self.new.tree ≡ self.old.tree) }
        ensures at { self.new.at ≡ self.old.at }
        ensures far { self.new.far ≡ self.old.far }
    {
        let parts = rule.body();
        let mut left = parts.len();
        while left > 0 {
            left -= 1;
            self.wants.push(Want {
                part: parts[left],
                room,
                tag,
            })?;
        }
        Ok(())
    }

    /// Begins a tree of the form by this rule.
    pub fn begin(
        &mut self,
        tokens: &Tokens,
        form: Form,
        rule: Rule,
        room: u64,
        tag: usize,
    ) -> Result<(), Stop>
        requires { Chosen form (first_kind (drop self.old.at tokens.now.items)) rule }
        ensures expands { OnOk result (Expands tokens.now.items form room tag self.old self.new) }
        ensures ruled { OnOk result (self.new.tree.marks ≡ self.old.tree.marks ++ Mark.Rule rule ∷ []) }
        ensures cramped { IfErr result (Cramped rule room) }
        ensures refused { IfErr result (RefusedHere self.old) }
        ensures far { self.new.far ≡ self.old.far }
    {
        if room < least_room(rule) {
            return Err(self.refuse());
        }
        let inner = if rule.is_deep() { room - 1 } else { room };
        let own = if rule.is_element() { self.at } else { tag };
        self.tree.mark(Mark::Rule(rule))?;
        self.expand(rule, inner, own)?;
        Ok(())
    }

    /// Reads another tree of a repetition, or ends it.
    pub fn again(
        &mut self,
        tokens: &Tokens,
        form: Form,
        room: u64,
        tag: usize,
    ) -> Result<(), AllocError>
        ensures goes { OnOk result
            (Goes tokens.now.items form room tag
            (record { part = Part.Many form; room = room; tag = tag } ∷ []) self.old self.new) }
        ensures far { self.new.far ≡ self.old.far }
    {
        if form.begins(kind_at(tokens, self.at)) {
            self.tree.mark(Mark::Item)?;
            self.wants.push(Want {
                part: Part::Many(form),
                room,
                tag,
            })?;
            self.wants.push(Want {
                part: Part::One(form),
                room,
                tag,
            })?;
        } else {
            self.tree.mark(Mark::End)?;
        }
        Ok(())
    }

    /// Reads the tree of an option, or leaves it out.
    pub fn perhaps(
        &mut self,
        tokens: &Tokens,
        form: Form,
        room: u64,
        tag: usize,
        taken: bool,
    ) -> Result<(), AllocError>
        requires ended { taken ≡ false → must_go_on form (first_kind (drop self.old.at tokens.now.items)) ≡ false }
        requires begun { taken ≡ true → begins form (first_kind (drop self.old.at tokens.now.items)) ≡ true }
        ensures marked { OnOk result (Marked taken self.old self.new) }
        ensures goes { OnOk result (Goes tokens.now.items form room tag [] self.old self.new) }
        ensures far { self.new.far ≡ self.old.far }
    {
        if taken {
            self.tree.mark(Mark::Item)?;
            self.wants.push(Want {
                part: Part::One(form),
                room,
                tag,
            })?;
        } else {
            self.tree.mark(Mark::End)?;
        }
        Ok(())
    }
}
