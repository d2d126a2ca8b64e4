//! Reading the listing of a tree from right to left.
ghost use Rattle.std.specs.Prelude.{◌≡◌, [], ◌∷◌, reverse, List, IfOk};
ghost use Rattle.surface_grammar.specs.declared.tree.Mark.{Mark as AnyMark};
ghost use Rattle.surface_grammar.specs.declared.tree.Mark.TheVariants as mark;
ghost use Rattle.desugar.specs.Reading.{reads, reduced};
ghost use Rattle.desugar.specs.View.{stack_view};

use crate::leaves::spelled;
use crate::rules::build;
use crate::stack::{Entry, Stack};
use desugar_values::Meaning;
use std::alloc::{AllocError, Global};
use surface_grammar::{Mark, Rule, Tree};
use surface_tree::Token;

/// A rule stands in the place of its parts.
fn reduce(alloc: Global, rule: Rule, stack: &mut Stack) -> Result<(), AllocError>
    ensures { IfOk result (λ _. stack_view stack.new ≡ reduced rule (stack_view stack.old)) }
{
    let parts = stack.parts(alloc, rule.body())?;
    let made = build(alloc, rule, parts)?;
    stack.push(Entry::Value(made))
}

/// The last token is put on the stack; what stands before it is left.
fn put_leaf<'a>(
    alloc: Global,
    leaves: &'a [Token],
    stack: &mut Stack,
) -> Result<&'a [Token], AllocError>
    ensures { IfOk result (λ before. (ms : List AnyMark)
        → reads (mark.Leaf ∷ ms) (reverse leaves.now) (stack_view stack.old)
        ≡ reads ms (reverse before.now) (stack_view stack.new)) }
{
    match leaves.split_last() {
        Some((token, before)) => {
            let token = spelled(alloc, token)?;
            stack.push(Entry::Value(Meaning::Word(token)))?;
            Ok(before)
        }
        None => Ok(leaves),
    }
}

/// A mark is read; of the tokens those are left that stand before what was read.
fn step<'a>(
    alloc: Global,
    mark: Mark,
    leaves: &'a [Token],
    stack: &mut Stack,
) -> Result<&'a [Token], AllocError>
    ensures { IfOk result (λ before. (ms : List AnyMark)
        → reads (mark ∷ ms) (reverse leaves.now) (stack_view stack.old)
        ≡ reads ms (reverse before.now) (stack_view stack.new)) }
{
    match mark {
        Mark::Leaf => put_leaf(alloc, leaves, stack),
        Mark::Rule(rule) => {
            reduce(alloc, rule, stack)?;
            Ok(leaves)
        }
        Mark::Item => {
            stack.push(Entry::Item)?;
            Ok(leaves)
        }
        Mark::End => {
            stack.push(Entry::End)?;
            Ok(leaves)
        }
    }
}

/// What stands on the stack behind the whole listing.
pub fn read(alloc: Global, tree: &Tree) -> Result<Stack, AllocError>
    ensures { IfOk result (λ stack. stack_view stack ≡ reads (reverse tree.now.marks) (reverse tree.now.leaves) []) }
{
    let mut stack = Stack::new(alloc);
    let mut marks = tree.marks();
    let mut leaves = tree.leaves();
    while let Some((mark, before)) = marks.split_last() {
        leaves = step(alloc, *mark, leaves, &mut stack)?;
        marks = before;
    }
    Ok(stack)
}
