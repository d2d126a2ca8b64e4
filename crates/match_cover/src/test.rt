//! What patterns ask of values.
ghost use Rattle.std.specs.Prelude.{◌≡◌, ◌+◌, ◌<◌, ◌≤◌, IfOk};
ghost use Rattle.con_terms.specs.View.{con_tree};
ghost use Rattle.core_terms.specs.View.{pat_fields_tree, pat_form_tree, pat_tree, maybe_con};
ghost use Rattle.core_typing.specs.Cover.{fields_depth as fields_deep, form_depth as form_deep, pattern_depth as pattern_deep};
ghost use Rattle.core_typing.specs.Scopes.{normal_of as normal_in};
ghost use Rattle.match_cover.specs.Tests as meant;
ghost use Rattle.match_cover.specs.View.{test_tree, tests_tree};

use con_terms::{Con, Kind, Sym};
use core_terms::{Pat, PatFields, PatForm};
use kind_rules::comparison_fuel;
use row_normal::NormalFault;
use row_normal::normal::normal;
use std::alloc::{AllocError, Global};
use std::rc::Rc;
use table_rows::Text;

/// What a pattern asks of a value. Contracts see it as `test_tree`.
#[cycle(asked)]
#[derive(Drop)]
pub enum Test {
    Anything,
    Number(i64),
    Words(Text),
    /// A constructor that holds nothing: its datatype's symbol, and its place in it.
    Bare(Sym, u32),
    /// A constructor, and what is asked of what it holds.
    Holding(Sym, u32, Rc<Test>),
    Fields(Rc<Tests>),
}

/// What is asked of fields, by their names in normal form; none where a name is too large.
#[cycle(asked)]
#[derive(Drop)]
pub enum Tests {
    End,
    More(Option<Con>, Rc<Test>, Rc<Tests>),
}

/// The normal form of a constructor, where it isn't too large.
pub fn normal_of(alloc: Global, c: &Con) -> Result<Option<Con>, AllocError>
    ensures { IfOk result (λ o. maybe_con o ≡ normal_in (con_tree c.now)) }
{
    let mut fuel = comparison_fuel();
    match normal(alloc, c, &Kind::Types, &mut fuel) {
        Ok(n) => Ok(Some(n.into_con())),
        Err(NormalFault::TooLarge) => Ok(None),
        Err(NormalFault::Memory) => Err(AllocError),
    }
}

/// Something that is owned by several.
fn owned<T: Drop>(alloc: Global, value: T) -> Result<Rc<T>, AllocError>
    ensures { IfOk result (λ new. new.value ≡ value) }
{
    Ok(Rc::new(alloc, value).map_err(AllocError::from)?)
}

/// What a pattern asks. One that is nested deeper than the room counts as want of memory.
#[cycle(test_of)]
pub fn test_of(alloc: Global, p: &Pat, room: u32) -> Result<Test, AllocError>
    ensures { IfOk result (λ t. test_tree t ≡ meant.test_of (pat_tree p.now)) }
{
    if room == 0 {
        return Err(AllocError);
    }
    form_test(alloc, &p.form, room - 1)
}

/// What a form of pattern asks.
#[cycle(test_of)]
fn form_test(alloc: Global, f: &PatForm, room: u32) -> Result<Test, AllocError>
    ensures { IfOk result (λ t. test_tree t ≡ meant.form_test (pat_form_tree f.now)) }
{
    match f {
        PatForm::Any | PatForm::Bind(_, _) => Ok(Test::Anything),
        PatForm::Int(z) => Ok(Test::Number(*z)),
        PatForm::Words(t) => Ok(Test::Words(t.copy(alloc)?)),
        PatForm::Build(s, j, None) => Ok(Test::Bare(*s, *j)),
        PatForm::Build(s, j, Some(q)) => {
            let held = owned(alloc, test_of(alloc, q, room)?)?;
            Ok(Test::Holding(*s, *j, held))
        }
        PatForm::Rec(fs, _) => {
            let tests = owned(alloc, fields_test(alloc, fs, room)?)?;
            Ok(Test::Fields(tests))
        }
        PatForm::Typed(q, _) => test_of(alloc, q, room),
    }
}

/// What fields ask, from the last to the first.
#[cycle(test_of)]
#[tactic(auto, using(crate::proofs::PatternFields::tests_on, crate::proofs::PatternFields::fields_tree_is))]
fn fields_test(alloc: Global, fs: &PatFields, room: u32) -> Result<Tests, AllocError>
    ensures { IfOk result (λ ts. tests_tree ts ≡ meant.fields_test (pat_fields_tree fs.now)) }
{
    let mut tests = Tests::End;
    let mut left = fs.items.len();
    while left > 0 {
        left -= 1;
        let field = &fs.items[left];
        let name = normal_of(alloc, &field.name)?;
        let test = owned(alloc, test_of(alloc, &field.pat, room)?)?;
        tests = Tests::More(name, test, owned(alloc, tests)?);
    }
    Ok(tests)
}

/// How deep constructors, records and literals stand in a pattern.
#[cycle(pattern_depth)]
pub fn pattern_depth(p: &Pat, room: u32) -> Result<u32, AllocError>
    ensures depth { IfOk result (λ d. d ≡ pattern_deep (pat_tree p.now)) }
    ensures small { IfOk result (λ d. d ≤ room) }
{
    if room == 0 {
        return Err(AllocError);
    }
    Ok(form_depth(&p.form, room - 1)?)
}

/// The same for a form of pattern.
#[cycle(pattern_depth)]
fn form_depth(f: &PatForm, room: u32) -> Result<u32, AllocError>
    requires { room < 4294967295 }
    ensures depth { IfOk result (λ d. d ≡ form_deep (pat_form_tree f.now)) }
    ensures small { IfOk result (λ d. d ≤ room + 1) }
{
    match f {
        PatForm::Any | PatForm::Bind(_, _) => Ok(0),
        PatForm::Int(_) | PatForm::Words(_) | PatForm::Build(_, _, None) => Ok(1),
        PatForm::Build(_, _, Some(q)) => Ok(pattern_depth(q, room)? + 1),
        PatForm::Rec(fs, _) => Ok(fields_depth(fs, room)? + 1),
        PatForm::Typed(q, _) => Ok(pattern_depth(q, room)?),
    }
}

/// The same for fields.
#[cycle(pattern_depth)]
#[tactic(auto, using(crate::proofs::PatternFields::depth_on, crate::proofs::PatternFields::fields_tree_is))]
fn fields_depth(fs: &PatFields, room: u32) -> Result<u32, AllocError>
    ensures depth { IfOk result (λ d. d ≡ fields_deep (pat_fields_tree fs.now)) }
    ensures small { IfOk result (λ d. d ≤ room) }
{
    let mut deepest = 0;
    let mut left = fs.items.len();
    while left > 0 {
        left -= 1;
        let depth = pattern_depth(&fs.items[left].pat, room)?;
        if deepest < depth {
            deepest = depth;
        }
    }
    Ok(deepest)
}
