//! The trees of a page, node by node.
ghost use Rattle.std.specs.Prelude.{◌≡◌, suc, ◌+◌, ◌<◌, map, ◌⊎◌, IfOk, IfErr, OnOk};
ghost use Rattle.xml_trees.specs.Trees.{Whole, Within, Nothing, built, built_and, ended, trees_of};
ghost use Rattle.xml_trees.specs.SourceNames.{page_tag};
ghost use Rattle.run_values.specs.declared.stop.Stop.{Stop};
ghost use Rattle.value_trees.specs.Values as meaning;
ghost use Rattle.run_values.specs.Outcomes.{ComesTo};
ghost use Rattle.run_values.specs.View.{attribute_tree, page_tree};
ghost use Rattle.page_walk.specs.Walked.{trees, nodes, all_done, nodes_left};

use crate::bound::count;
use run_values::{Given, Stop, Tree, tick};
use std::alloc::{AllocError, Global};
use table_rows::Text;
use xml_trees::{Attr, Attrs, Page, TagName};

/// The most nodes that are begun and ended. It would take hundreds of years; after so many memory is said to be short.
const MOVES: u64 = u64::MAX;

/// What is still to be done: trees to be walked, or an element to be ended.
#[derive(Clone, Copy, Drop)]
enum Todo<'r> {
    Walk(&'r Tree<'r>),
    End,
}

#[tactic(auto, using(crate::proofs::Meaning::as_meant))]
/// The page of trees as they were put together, with a step for each node.
pub fn walked<'r>(alloc: Global, tree: &'r Tree<'r>, budget: &mut u64) -> Result<Page, Stop>
    ensures means { ComesTo (λ page. trees_of (built page)) result budget.new
        (meaning.walked (page_tree tree.now) budget.old) }
    ensures page { IfOk result (λ page. built page ≡ Whole (trees tree.now)) }
    ensures steps { OnOk result (budget.old ≡ nodes tree.now + budget.new) }
    ensures stops { IfErr result (λ stop. (stop ≡ Stop.OverBudget) ⊎ (stop ≡ Stop.Memory)) }
    ensures spent { IfErr result (λ stop. stop ≡ Stop.OverBudget → budget.old < nodes tree.now) }
{
    walked_through(alloc, tree, budget)
}

#[tactic(auto, using(crate::proofs::Doing::last_is_first, crate::proofs::Doing::nodes_of_last))]
/// Walks the trees, node by node.
fn walked_through<'r>(alloc: Global, tree: &'r Tree<'r>, budget: &mut u64) -> Result<Page, Stop>
    ensures page { IfOk result (λ page. built page ≡ Whole (trees tree.now)) }
    ensures steps { OnOk result (budget.old ≡ nodes tree.now + budget.new) }
    ensures stops { IfErr result (λ stop. (stop ≡ Stop.OverBudget) ⊎ (stop ≡ Stop.Memory)) }
    ensures spent { IfErr result (λ stop. stop ≡ Stop.OverBudget → budget.old < nodes tree.now) }
{
    let mut page = Page::new(alloc);
    let mut todo = Vec::new(alloc);
    let mut bytes = 0;
    todo.push(Todo::Walk(tree))?;
    for _ in 0..MOVES {
        match todo.pop() {
            None => return Ok(page),
            Some(Todo::Walk(tree)) => {
                tick(budget)?;
                enter(alloc, tree, &mut page, &mut todo, &mut bytes)?;
            }
            Some(Todo::End) => end(&mut page)?,
        }
    }
    Err(Stop::Memory)
}

#[tactic(auto, using(crate::proofs::Ends::unfinished))]
/// Ends the innermost element, where there is one.
fn end(page: &mut Page) -> Result<(), AllocError>
    ensures { OnOk result (built page.new ≡ ended (built page.old)) }
{
    if page.is_whole() {
        return Ok(());
    }
    page.end()
}

#[tactic(auto, using(crate::proofs::Doing::nothing_more, crate::proofs::Doing::joined, crate::proofs::Doing::joined_nodes, crate::proofs::Doing::inside, crate::proofs::Doing::inside_nodes, crate::proofs::Parts::nothing_trees, crate::proofs::Parts::nothing_nodes, crate::proofs::Parts::words_trees, crate::proofs::Parts::words_nodes, crate::proofs::Parts::joined_trees, crate::proofs::Parts::joined_nodes, crate::proofs::Parts::element_trees, crate::proofs::Parts::element_nodes))]
/// Writes a node, and puts down what is to be done for it then.
fn enter<'r>(
    alloc: Global,
    tree: &'r Tree<'r>,
    page: &mut Page,
    todo: &mut Vec<Todo<'r>>,
    bytes: &mut u64,
) -> Result<(), AllocError>
    ensures done { OnOk result (all_done todo.new.items (built page.new)
        ≡ all_done todo.old.items (built_and (built page.old) (trees tree.now))) }
    ensures nodes { OnOk result (suc (nodes_left todo.new.items) ≡ nodes_left todo.old.items + nodes tree.now) }
{
    match tree {
        Tree::Nothing => Ok(()),
        Tree::Words(text) => {
            count(text, bytes)?;
            page.words(alloc, &Text::of(alloc, text)?)
        }
        Tree::Joined(first, second) => {
            todo.push(Todo::Walk(second))?;
            Ok(todo.push(Todo::Walk(first))?)
        }
        Tree::Element(tag, field, given, inner) => {
            begin(alloc, *tag, field, given, page, bytes)?;
            todo.push(Todo::End)?;
            Ok(todo.push(Todo::Walk(inner))?)
        }
    }
}

/// Begins an element.
fn begin<'r>(
    alloc: Global,
    tag: TagName,
    field: &'r str,
    given: &'r [Given<'r>],
    page: &mut Page,
    bytes: &mut u64,
) -> Result<(), AllocError>
    ensures { OnOk result (built page.new
        ≡ Within (built page.old) (page_tag tag field.now) (map attribute_tree given.now) Nothing) }
{
    let attrs = attributes_of(alloc, given, bytes)?;
    let field = Text::of(alloc, field)?;
    page.begin(tag.tag(field), attrs)
}

/// The attributes of the page, in order.
fn attributes_of<'r>(
    alloc: Global,
    given: &'r [Given<'r>],
    bytes: &mut u64,
) -> Result<Attrs, AllocError>
    ensures { IfOk result (λ made. made ≡ map attribute_tree given.now) }
{
    let mut attrs = Attrs::new(alloc);
    for attribute in given {
        attrs.push(attribute_of(alloc, attribute, bytes)?)?;
    }
    Ok(attrs)
}

/// An attribute of the page.
fn attribute_of<'r>(alloc: Global, given: &Given<'r>, bytes: &mut u64) -> Result<Attr, AllocError>
    ensures { IfOk result (λ made. made ≡ attribute_tree given.now) }
{
    Ok(match given {
        Given::Title(text) => Attr::Title(owned(alloc, text, bytes)?),
        Given::Link(text) => Attr::Link(owned(alloc, text, bytes)?),
        Given::Href(text) => Attr::Href(owned(alloc, text, bytes)?),
        Given::Src(text) => Attr::Src(owned(alloc, text, bytes)?),
        Given::Alt(text) => Attr::Alt(owned(alloc, text, bytes)?),
        Given::Border(number) => Attr::Border(*number),
        Given::Value(text) => Attr::Value(owned(alloc, text, bytes)?),
        Given::Size(number) => Attr::Size(*number),
        Given::Action(text) => Attr::Action(owned(alloc, text, bytes)?),
    })
}

/// A text of the page, counted.
fn owned(alloc: Global, text: &str, bytes: &mut u64) -> Result<Text, AllocError>
    ensures { IfOk result (λ made. made ≡ text.now) }
{
    count(text, bytes)?;
    Text::of(alloc, text)
}
