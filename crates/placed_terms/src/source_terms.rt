//! The parts of plain declarations, taken apart one by one.
ghost use Rattle.std.specs.Prelude.{◌≡◌, ◌∷◌, [], map, IfOk, OnOk};
ghost use Rattle.placed_terms.specs.Parts.{first_before, source_listed, source_then};
ghost use Rattle.placed_terms.specs.Source as goal;
ghost use Rattle.plain_tree.specs.ConView as patterns;
ghost use Rattle.plain_tree.specs.ExpView as view;
ghost use Rattle.plain_tree.specs.View as decls;

use crate::source_lists::{put_branch, put_inside, put_local, put_three};
use crate::source_parts::{SourcePart, put, put_all, put_at};
use plain_tree::{
    Arg, Args, Attributes, Branch, Branches, Builders, Con, Decl, Exp, Exps, Fields, Form, Infix,
    Items, Link, Links, Locals, Node, Nodes, Pat, PatFields, PatForm, Sigil, Words,
};
use std::alloc::AllocError;

/// Fields of a record.
#[tactic(auto, using(crate::proofs::Bridges::source_fields_are))]
fn put_fields<'a>(parts: &mut Vec<SourcePart<'a>>, fields: &'a Fields) -> Result<(), AllocError>
    ensures { OnOk result (source_listed parts.new.items
        ≡ goal.fields_then (view.fields_tree fields.now) (source_listed parts.old.items)) }
{
    put_all(parts, fields.items.as_slice())
}

/// Attributes.
#[tactic(auto, using(crate::proofs::Bridges::source_attributes_are))]
fn put_attributes<'a>(
    parts: &mut Vec<SourcePart<'a>>,
    attributes: &'a Attributes,
) -> Result<(), AllocError>
    ensures { OnOk result (source_listed parts.new.items
        ≡ goal.attributes_then (view.attributes_tree attributes.now) (source_listed parts.old.items)) }
{
    put_all(parts, attributes.items.as_slice())
}

/// Nodes of a page.
#[tactic(auto, using(crate::proofs::Bridges::source_nodes_are))]
fn put_nodes<'a>(parts: &mut Vec<SourcePart<'a>>, nodes: &'a Nodes) -> Result<(), AllocError>
    ensures { OnOk result (source_listed parts.new.items
        ≡ goal.nodes_then (view.nodes_tree nodes.now) (source_listed parts.old.items)) }
{
    put_all(parts, nodes.items.as_slice())
}

/// Terms.
#[tactic(auto, using(crate::proofs::Bridges::source_terms_are))]
fn put_terms<'a>(parts: &mut Vec<SourcePart<'a>>, terms: &'a Exps) -> Result<(), AllocError>
    ensures { OnOk result (source_listed parts.new.items
        ≡ goal.exps_then (view.exps_tree terms.now) (source_listed parts.old.items)) }
{
    put_all(parts, terms.items.as_slice())
}

/// Declarations of a `let`.
#[tactic(auto, using(crate::proofs::Bridges::source_locals_are))]
fn put_locals<'a>(parts: &mut Vec<SourcePart<'a>>, locals: &'a Locals) -> Result<(), AllocError>
    ensures { OnOk result (source_listed parts.new.items
        ≡ goal.locals_then (view.locals_tree locals.now) (source_listed parts.old.items)) }
{
    put_all(parts, locals.items.as_slice())
}

/// Branches of a `case`, behind the first.
#[tactic(auto, using(crate::proofs::Bridges::source_branches_are))]
fn put_branches<'a>(
    parts: &mut Vec<SourcePart<'a>>,
    branches: &'a Branches,
) -> Result<(), AllocError>
    ensures { OnOk result (source_listed parts.new.items
        ≡ goal.branches_then (view.branches_tree branches.now) (source_listed parts.old.items)) }
{
    put_all(parts, branches.items.as_slice())
}

/// Items of a call.
#[tactic(auto, using(crate::proofs::Bridges::source_items_are))]
fn put_items<'a>(parts: &mut Vec<SourcePart<'a>>, items: &'a Items) -> Result<(), AllocError>
    ensures { OnOk result (source_listed parts.new.items
        ≡ goal.items_then (view.items_tree items.now) (source_listed parts.old.items)) }
{
    put_all(parts, items.items.as_slice())
}

/// Links of a chain, behind what stands before them.
#[tactic(auto, using(crate::proofs::Bridges::source_links_are))]
fn put_behind<'a>(parts: &mut Vec<SourcePart<'a>>, links: &'a Links) -> Result<(), AllocError>
    ensures { OnOk result (source_listed parts.new.items
        ≡ goal.links_behind (view.links_tree links.now) (source_listed parts.old.items)) }
{
    put_all(parts, links.items.as_slice())
}

/// Fields of a record pattern.
#[tactic(auto, using(crate::proofs::Bridges::source_pattern_fields_are))]
fn put_pattern_fields<'a>(
    parts: &mut Vec<SourcePart<'a>>,
    fields: &'a PatFields,
) -> Result<(), AllocError>
    ensures { OnOk result (source_listed parts.new.items
        ≡ goal.pattern_fields_then (patterns.pat_fields_tree fields.now) (source_listed parts.old.items)) }
{
    put_all(parts, fields.items.as_slice())
}

/// Constructors of a datatype.
#[tactic(auto, using(crate::proofs::Bridges::source_builders_are))]
fn put_builders<'a>(
    parts: &mut Vec<SourcePart<'a>>,
    builders: &'a Builders,
) -> Result<(), AllocError>
    ensures { OnOk result (source_listed parts.new.items
        ≡ goal.builders_then (decls.builders_tree builders.now) (source_listed parts.old.items)) }
{
    put_all(parts, builders.items.as_slice())
}

/// Names.
#[tactic(auto, using(crate::proofs::Bridges::source_words_are))]
fn put_words<'a>(parts: &mut Vec<SourcePart<'a>>, words: &'a Words) -> Result<(), AllocError>
    ensures { OnOk result (source_listed parts.new.items
        ≡ goal.words_then words.now (source_listed parts.old.items)) }
{
    put_all(parts, words.items.as_slice())
}

/// A name alone, which stands there.
fn put_name(parts: &mut Vec<SourcePart<'_>>, at: u32, sigil: Sigil) -> Result<(), AllocError>
    ensures { OnOk result (source_listed parts.new.items ≡ goal.name_then at sigil (source_listed parts.old.items)) }
{
    put_at(parts, at)?;
    match sigil {
        Sigil::Nothing => Ok(()),
        Sigil::At | Sigil::AtAt => put_at(parts, at),
    }
}

/// What a call begins with.
fn put_head<'a>(parts: &mut Vec<SourcePart<'a>>, head: &'a Exp) -> Result<(), AllocError>
    ensures { OnOk result (source_listed parts.new.items
        ≡ goal.head_then (view.exp_tree head.now) (source_listed parts.old.items)) }
{
    match &head.form {
        Form::Name(_, _) | Form::Builder(_, _) => put_at(parts, head.at),
        _ => put(parts, SourcePart::Term(head)),
    }
}

/// A call that stands there.
fn put_call<'a>(
    parts: &mut Vec<SourcePart<'a>>,
    at: u32,
    head: &'a Exp,
    items: &'a Items,
) -> Result<(), AllocError>
    ensures { OnOk result (source_listed parts.new.items ≡ at ∷ goal.head_then (view.exp_tree head.now)
        (goal.items_then (view.items_tree items.now) (source_listed parts.old.items))) }
{
    put_items(parts, items)?;
    put_head(parts, head)?;
    put_at(parts, at)
}

/// What a parameter takes.
fn put_parameter<'a>(parts: &mut Vec<SourcePart<'a>>, arg: &'a Arg) -> Result<(), AllocError>
    ensures { OnOk result (source_listed parts.new.items
        ≡ goal.parameter_then (view.arg_tree arg.now) (source_listed parts.old.items)) }
{
    match arg {
        Arg::Pat(p) => put(parts, SourcePart::Pattern(p)),
        Arg::Con(_, _, _, _, _) | Arg::Guard(_, _, _) => Ok(()),
    }
}

/// Parameters of a function that stands there.
#[tactic(auto, using(crate::proofs::Listing::parameter_last))]
fn put_parameters<'a>(
    parts: &mut Vec<SourcePart<'a>>,
    at: u32,
    args: &'a [Arg],
) -> Result<(), AllocError>
    ensures { OnOk result (source_listed parts.new.items
        ≡ goal.parameters_then at (map view.arg_tree args.now) (source_listed parts.old.items)) }
{
    let mut rest = args;
    while let Some((last, others)) = rest.split_last() {
        put_parameter(parts, last)?;
        put_at(parts, at)?;
        rest = others;
    }
    Ok(())
}

/// A function that stands there.
fn put_function<'a>(
    parts: &mut Vec<SourcePart<'a>>,
    at: u32,
    args: &'a Args,
    e: &'a Exp,
) -> Result<(), AllocError>
    ensures { OnOk result (source_listed parts.new.items ≡ goal.parameters_then at (view.args_tree args.now)
        (goal.exp_then (view.exp_tree e.now) (source_listed parts.old.items))) }
{
    put(parts, SourcePart::Term(e))?;
    put_parameters(parts, at, args.items.as_slice())
}

/// `case` that stands there.
fn put_case<'a>(
    parts: &mut Vec<SourcePart<'a>>,
    at: u32,
    e: &'a Exp,
    first: &'a Branch,
    rest: &'a Branches,
) -> Result<(), AllocError>
    ensures { OnOk result (source_listed parts.new.items ≡ at ∷ goal.exp_then (view.exp_tree e.now)
        (goal.branch_then (view.branch_tree first.now) (goal.branches_then (view.branches_tree rest.now)
        (source_listed parts.old.items)))) }
{
    put_branches(parts, rest)?;
    put_branch(parts, first)?;
    put_inside(parts, at, e)
}

/// `let` that stands there.
fn put_let<'a>(
    parts: &mut Vec<SourcePart<'a>>,
    at: u32,
    locals: &'a Locals,
    e: &'a Exp,
) -> Result<(), AllocError>
    ensures { OnOk result (source_listed parts.new.items ≡ at ∷ goal.locals_then (view.locals_tree locals.now)
        (goal.exp_then (view.exp_tree e.now) (source_listed parts.old.items))) }
{
    put(parts, SourcePart::Term(e))?;
    put_locals(parts, locals)?;
    put_at(parts, at)
}

/// An operator in a chain that begins there, before its sides.
fn put_operator(
    parts: &mut Vec<SourcePart<'_>>,
    at: u32,
    o: u32,
    op: Infix,
) -> Result<(), AllocError>
    ensures { OnOk result
        (source_listed parts.new.items ≡ goal.infix_before at o op (source_listed parts.old.items)) }
{
    match op {
        Infix::Or | Infix::And | Infix::Concat => put_at(parts, at),
        Infix::Strcat | Infix::Plus | Infix::Minus | Infix::Times | Infix::Divide | Infix::Mod => {
            put_at(parts, o)?;
            put_at(parts, at)
        }
    }
}

/// A link of a chain that begins there, before what stands before it.
fn put_before(parts: &mut Vec<SourcePart<'_>>, at: u32, link: &Link) -> Result<(), AllocError>
    ensures { OnOk result (source_listed parts.new.items
        ≡ goal.link_before at (view.link_tree link.now) (source_listed parts.old.items)) }
{
    match link {
        Link::Infix(o, op, _) => put_operator(parts, at, *o, *op),
        Link::Field(_) | Link::Without(_, _) | Link::WithoutRow(_, _) => put_at(parts, at),
    }
}

/// Links of a chain that begins there, before what stands before them: the last comes first.
fn put_links(parts: &mut Vec<SourcePart<'_>>, at: u32, links: &[Link]) -> Result<(), AllocError>
    ensures { OnOk result (source_listed parts.new.items
        ≡ goal.links_before at (view.links_from (map view.link_tree links.now)) (source_listed parts.old.items)) }
{
    let mut rest = links;
    while let Some((first, others)) = rest.split_first() {
        put_before(parts, at, first)?;
        rest = others;
    }
    Ok(())
}

/// A chain that begins there.
fn put_chain<'a>(
    parts: &mut Vec<SourcePart<'a>>,
    at: u32,
    e: &'a Exp,
    links: &'a Links,
) -> Result<(), AllocError>
    ensures { OnOk result (source_listed parts.new.items ≡ goal.links_before at (view.links_tree links.now)
        (goal.exp_then (view.exp_tree e.now)
        (goal.links_behind (view.links_tree links.now) (source_listed parts.old.items)))) }
{
    put_behind(parts, links)?;
    put(parts, SourcePart::Term(e))?;
    put_links(parts, at, links.items.as_slice())
}

/// A term that stands there, by its form.
fn put_form<'a>(parts: &mut Vec<SourcePart<'a>>, at: u32, f: &'a Form) -> Result<(), AllocError>
    ensures { OnOk result (source_listed parts.new.items
        ≡ goal.form_then at (view.form_tree f.now) (source_listed parts.old.items)) }
{
    match f {
        Form::Int(_) | Form::Words(_) | Form::Basis(_) => put_at(parts, at),
        Form::Name(sigil, _) | Form::Builder(sigil, _) => put_name(parts, at, *sigil),
        Form::Call(head, items) => put_call(parts, at, head, items),
        Form::Fn(args, e) => put_function(parts, at, args, e),
        Form::Case(e, first, rest) => put_case(parts, at, e, first, rest),
        Form::Let(locals, e) => put_let(parts, at, locals, e),
        Form::Typed(e, _) => put_inside(parts, at, e),
        Form::Rec(fields) => {
            put_fields(parts, fields)?;
            put_at(parts, at)
        }
        Form::Chain(e, links) => put_chain(parts, at, e, links),
        Form::Xml(nodes) => {
            put_nodes(parts, nodes)?;
            put_at(parts, at)
        }
        Form::Sql(_, terms) => {
            put_terms(parts, terms)?;
            put_at(parts, at)
        }
    }
}

/// A pattern behind its byte, by its form.
fn put_pattern_form<'a>(parts: &mut Vec<SourcePart<'a>>, f: &'a PatForm) -> Result<(), AllocError>
    ensures { OnOk result (source_listed parts.new.items
        ≡ goal.pattern_form_then (patterns.pat_form_tree f.now) (source_listed parts.old.items)) }
{
    match f {
        PatForm::Any
        | PatForm::Bind(_)
        | PatForm::Int(_, _)
        | PatForm::Words(_)
        | PatForm::Bare(_) => Ok(()),
        PatForm::Holding(_, held) => put(parts, SourcePart::Pattern(held)),
        PatForm::Rec(fields, _) => put_pattern_fields(parts, fields),
        PatForm::Typed(inner, _) => put(parts, SourcePart::Pattern(inner)),
    }
}

/// A pattern with its parts.
fn put_pattern<'a>(parts: &mut Vec<SourcePart<'a>>, p: &'a Pat) -> Result<(), AllocError>
    ensures { OnOk result (source_listed parts.new.items
        ≡ goal.pattern_then (patterns.pat_tree p.now) (source_listed parts.old.items)) }
{
    put_pattern_form(parts, &p.form)?;
    put_at(parts, p.at)
}

/// The field that an input fills.
fn put_filled(parts: &mut Vec<SourcePart<'_>>, field: &Option<Con>) -> Result<(), AllocError>
    ensures { OnOk result (source_listed parts.new.items
        ≡ goal.filled_then (patterns.maybe_con field.now) (source_listed parts.old.items)) }
{
    match field {
        None => Ok(()),
        Some(c) => put_at(parts, c.at),
    }
}

/// An element that stands there.
fn put_element<'a>(
    parts: &mut Vec<SourcePart<'a>>,
    at: u32,
    field: &'a Option<Con>,
    attributes: &'a Attributes,
    content: &'a Nodes,
) -> Result<(), AllocError>
    ensures { OnOk result (source_listed parts.new.items
        ≡ at ∷ goal.filled_then (patterns.maybe_con field.now) (goal.attributes_then
        (view.attributes_tree attributes.now) (goal.nodes_then (view.nodes_tree content.now)
        (source_listed parts.old.items)))) }
{
    put_nodes(parts, content)?;
    put_attributes(parts, attributes)?;
    put_filled(parts, field)?;
    put_at(parts, at)
}

/// A node of a page.
fn put_node<'a>(parts: &mut Vec<SourcePart<'a>>, node: &'a Node) -> Result<(), AllocError>
    ensures { OnOk result (source_listed parts.new.items
        ≡ goal.node_then (view.node_tree node.now) (source_listed parts.old.items)) }
{
    match node {
        Node::Run(at, _) => put_three(parts, *at),
        Node::Exp(_, e) => put(parts, SourcePart::Term(e)),
        Node::Element(at, _, field, attributes, content) => {
            put_element(parts, *at, field, attributes, content)
        }
    }
}

/// A term with its parts.
fn put_term<'a>(parts: &mut Vec<SourcePart<'a>>, e: &'a Exp) -> Result<(), AllocError>
    ensures { OnOk result (source_listed parts.new.items
        ≡ goal.exp_then (view.exp_tree e.now) (source_listed parts.old.items)) }
{
    put_form(parts, e.at, &e.form)
}

/// Takes a part apart.
fn open<'a>(parts: &mut Vec<SourcePart<'a>>, part: SourcePart<'a>) -> Result<(), AllocError>
    ensures { OnOk result (source_listed parts.new.items ≡ source_then part.entry (source_listed parts.old.items)) }
{
    match part {
        SourcePart::At(at) => put_at(parts, at),
        SourcePart::Term(e) => put_term(parts, e),
        SourcePart::Pattern(p) => put_pattern(parts, p),
        SourcePart::Names(names) => put_all(parts, names),
        SourcePart::Node(node) => put_node(parts, node),
    }
}

/// Takes the first byte away.
#[tactic(auto, using(crate::proofs::Listing::source_push))]
pub fn next_byte(parts: &mut Vec<SourcePart<'_>>) -> Result<Option<u32>, AllocError>
    ensures { IfOk result
        (λ o. source_listed parts.old.items ≡ first_before o (source_listed parts.new.items)) }
{
    for _ in 0..u64::MAX {
        match parts.pop() {
            None => return Ok(None),
            Some(SourcePart::At(at)) => return Ok(Some(at)),
            Some(part) => open(parts, part)?,
        }
    }
    Err(AllocError)
}

/// The parts of a declaration, where none wait.
pub fn put_decl<'a>(parts: &mut Vec<SourcePart<'a>>, d: &'a Decl) -> Result<(), AllocError>
    requires { source_listed parts.now.items ≡ [] }
    ensures { OnOk result (source_listed parts.new.items ≡ goal.bytes_of (decls.decl_tree d.now)) }
{
    match d {
        Decl::Value(local) => put_local(parts, local),
        Decl::Con(c) => put_at(parts, c.at),
        Decl::Datatype(t) => {
            put_builders(parts, &t.builders)?;
            put_at(parts, t.at)
        }
        Decl::Table(t) => {
            put_words(parts, &t.key)?;
            put_at(parts, t.at)
        }
        Decl::Sequence(at, _) => put_at(parts, *at),
        Decl::Cookie(c) => put_at(parts, c.at),
    }
}
