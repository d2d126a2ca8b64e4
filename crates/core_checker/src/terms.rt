//! What is found for a term: the walk over its parts.
//!
//! The depth of the walk is bounded by `room`: where none is left, that counts as want of memory.
ghost use Rattle.std.specs.Prelude.{IfOk, option_map};
ghost use Rattle.con_terms.specs.View.{con_tree, kind_tree};
ghost use Rattle.core_checker.specs.Parts.{CallJudges, FnConJudges, LetJudges, SqlJudges, part_terms};
ghost use Rattle.core_terms.specs.Lists.{branch_tree as branch_parts, local_tree};
ghost use Rattle.core_terms.specs.Trees as tree;
ghost use Rattle.core_terms.specs.View.{branches_tree, exp_tree, exps_tree, fields_tree, items_tree, locals_tree, named_list_tree, pat_tree, with_local as with_declaration};
ghost use Rattle.core_typing.specs.Scopes.{Sc};
ghost use Rattle.judged_terms.specs.Judge as judged;
ghost use Rattle.judged_terms.specs.Judge.{BranchesJudge, FormJudges, Judges, JudgesAll, LocalsJudge, PartJudges};
ghost use Rattle.judged_terms.specs.Listed.{name_terms};
ghost use Rattle.judged_terms.specs.Openings.{BranchIn, pattern_scope};
ghost use Rattle.judgements.specs.View.{judged_tree, sc_view};
ghost use Rattle.markup_rules.specs.View.{element_tree, judgements_view, literal_tree};
ghost use Rattle.node_rules.specs.Locals.{Ls, none_yet};
ghost use Rattle.node_rules.specs.View.{found_tree, op_tree};
ghost use Rattle.pattern_rules.specs.Matching.{Cs};
ghost use Rattle.pattern_rules.specs.View.{branch_tree, cases_tree};

use crate::lists::{of_items, of_record, of_sql};
use crate::parts::Parts;
use crate::places::{
    branch_body, branch_pattern, element_attributes, element_nodes, literal_nodes, named_term,
    term_place,
};
use crate::scopes::{
    Behind, Inner, before_all, behind_value, behind_values, under_names, under_pattern, under_sides,
};
use crate::singles::{of_parameter, of_typed, shape_missed};
use con_terms::{Con, Kind, Place, Sym};
use core_terms::{
    Branch, Branches, Element, Exp, Exps, Fields, Form, Items, Literal, Local, Locals, NamedList,
    Pat,
};
use judgements::{Globals, Here, Judged, faulty, kind_flaw, neither, under_con};
use markup_rules::{Judgements, of_element, of_literal};
use node_rules::{
    Operation, of_assuming, of_basis, of_built, of_concat, of_fn_con, of_fold, of_folder,
    of_foreign, of_let, of_number, of_operation, of_text, of_top, of_variable,
};
use pattern_rules::{Branch as Judgement, Cases, first_case, of_case, with_case};
use std::alloc::{AllocError, Global};

/// What is found for a term: its type, and the fault that is told. `room` is how many terms it may be deep.
#[cycle(judge)]
pub fn judge(alloc: Global, g: &Globals, s: &Here, e: &Exp, room: u32) -> Result<Judged, AllocError>
    ensures { IfOk result (λ r. Judges (sc_view g.now s.now) (exp_tree e.now) (judged_tree r)) }
{
    if room == 0 {
        return Err(AllocError);
    }
    let room = room - 1;
    let p = e.place;
    match &e.form {
        Form::Var(i) => of_variable(alloc, g, s, p, *i),
        Form::Top(i) => of_top(alloc, g, s, p, *i),
        Form::Foreign(i) => of_foreign(alloc, g, s, p, *i),
        Form::Basis(b) => of_basis(alloc, *b),
        Form::Fold(k) => of_fold(alloc, g, s, p, k),
        Form::Int(_) => Ok(of_number()),
        Form::Words(_) => Ok(of_text()),
        Form::Build(d, j) => of_built(alloc, g, s, p, *d, *j),
        Form::Fn(q, t, body) => judge_fn(alloc, g, s, p, q, t, body, room),
        Form::FnCon(x, implicit, _, k, body) => {
            judge_fn_con(alloc, g, s, *x, *implicit, k, body, room)
        }
        Form::FnGuard(c, d, body) => judge_fn_guard(alloc, g, s, p, c, d, body, room),
        Form::Call(f, _, is) => judge_call(alloc, g, s, f, is, room),
        Form::Let(ls, body) => judge_let(alloc, g, s, ls, body, room),
        Form::Case(d, b, bs) => judge_case(alloc, g, s, p, d, b, bs, room),
        Form::Typed(d, t) => judge_ascribed(alloc, g, s, p, d, t, room),
        Form::Rec(fs) => judge_record(alloc, g, s, p, fs, room),
        Form::Proj(d, c) => judge_operation(alloc, g, s, p, Operation::Select, d, c, room),
        Form::Cat(d, b) => judge_concat(alloc, g, s, p, d, b, room),
        Form::Drop(d, c) => judge_operation(alloc, g, s, p, Operation::Cut, d, c, room),
        Form::DropRow(d, c) => judge_operation(alloc, g, s, p, Operation::CutRow, d, c, room),
        Form::Folder(k, ps) => of_folder(alloc, g, s, p, k, ps),
        Form::Element(m) => judge_element(alloc, g, s, p, m, room),
        Form::Literal(l) => judge_literal(alloc, g, s, p, l, room),
        Form::Sql(_, es) => judge_sql(alloc, g, s, p, es, room),
    }
}

/// A part of a list. Neither a type nor a fault is found for what is no term.
#[cycle(judge)]
#[inline(never)]
fn judge_part(
    alloc: Global,
    g: &Globals,
    s: &Here,
    part: Option<&Exp>,
    room: u32,
) -> Result<Judged, AllocError>
    ensures { IfOk result
        (λ r. PartJudges (sc_view g.now s.now) (option_map (λ e. exp_tree e.now) part.entry) (judged_tree r)) }
{
    match part {
        None => Ok(neither()),
        Some(e) => judge(alloc, g, s, e, room),
    }
}

/// The terms of a list, in its order. Neither a type nor a fault is found for what is no term.
#[cycle(judge)]
#[inline(never)]
#[tactic(auto, using(crate::proofs::Listed::parts_step))]
pub fn judge_parts(
    alloc: Global,
    g: &Globals,
    s: &Here,
    parts: Parts<'_>,
    room: u32,
) -> Result<Judgements, AllocError>
    ensures { IfOk result
        (λ r. JudgesAll (sc_view g.now s.now) (part_terms parts.entry) (judgements_view r)) }
{
    let mut items = Vec::with_capacity(alloc, parts.len())?;
    for i in 0..parts.len() {
        let found = judge_part(alloc, g, s, parts.at(i), room)?;
        items.push(found)?;
    }
    Ok(Judgements { items })
}

/// The terms of names that are declared together.
#[cycle(judge)]
#[inline(never)]
pub fn judge_names(
    alloc: Global,
    g: &Globals,
    s: &Here,
    ns: &NamedList,
    room: u32,
) -> Result<Judgements, AllocError>
    ensures { IfOk result
        (λ r. JudgesAll (sc_view g.now s.now) (name_terms (named_list_tree ns.now)) (judgements_view r)) }
{
    judge_parts(alloc, g, s, Parts::Names(ns), room)
}

/// `p => e`, where `p` takes values of a type
#[cycle(judge)]
#[inline(never)]
fn judge_branch(
    alloc: Global,
    g: &Globals,
    s: &Here,
    q: &Pat,
    t: &Con,
    body: &Exp,
    room: u32,
) -> Result<Judgement, AllocError>
    ensures { IfOk result
        (λ r. BranchIn
        (pattern_scope (sc_view g.now s.now) (pat_tree q.now) (con_tree t.now))
        (λ H k. Judges H (exp_tree body.now) k)
        (branch_tree r)) }
{
    match under_pattern(alloc, g, s, q, t)? {
        Inner::Bad(f) => Ok(Judgement::Bad(f)),
        Inner::Under(inner) => Ok(Judgement::Found(judge(alloc, g, &inner, body, room)?)),
    }
}

/// `fn p => e`
#[cycle(judge)]
#[inline(never)]
fn judge_fn(
    alloc: Global,
    g: &Globals,
    s: &Here,
    p: Place,
    q: &Pat,
    t: &Con,
    body: &Exp,
    room: u32,
) -> Result<Judged, AllocError>
    ensures { IfOk result
        (λ r. FormJudges
        (sc_view g.now s.now)
        p
        (tree.fn (pat_tree q.now) (con_tree t.now) (exp_tree body.now))
        (judged_tree r)) }
{
    match kind_flaw(alloc, g, s, p, t, &Kind::Types)? {
        Some(f) => Ok(faulty(f)),
        None => {
            let found = judge_branch(alloc, g, s, q, t, body, room)?;
            of_parameter(alloc, g, s, p, q, t, found)
        }
    }
}

/// `fn [x :: k] => e`
#[cycle(judge)]
#[inline(never)]
fn judge_fn_con(
    alloc: Global,
    g: &Globals,
    s: &Here,
    x: Sym,
    implicit: bool,
    k: &Kind,
    body: &Exp,
    room: u32,
) -> Result<Judged, AllocError>
    ensures { IfOk result
        (λ r. FnConJudges
        (sc_view g.now s.now)
        x.number
        implicit
        (kind_tree k.now)
        (exp_tree body.now)
        (judged_tree r)) }
{
    let inner = under_con(alloc, s, x, k)?;
    let found = judge(alloc, g, &inner, body, room)?;
    of_fn_con(alloc, implicit, k, found)
}

/// `fn [c ~ d] => e`
#[cycle(judge)]
#[inline(never)]
fn judge_fn_guard(
    alloc: Global,
    g: &Globals,
    s: &Here,
    p: Place,
    c: &Con,
    d: &Con,
    body: &Exp,
    room: u32,
) -> Result<Judged, AllocError>
    ensures { IfOk result
        (λ r. FormJudges
        (sc_view g.now s.now)
        p
        (tree.fn_guard (con_tree c.now) (con_tree d.now) (exp_tree body.now))
        (judged_tree r)) }
{
    match under_sides(alloc, g, s, p, c, d)? {
        Inner::Bad(f) => Ok(faulty(f)),
        Inner::Under(inner) => {
            let found = judge(alloc, g, &inner, body, room)?;
            of_assuming(alloc, c, d, found)
        }
    }
}

/// `(e : t)`
#[cycle(judge)]
#[inline(never)]
fn judge_ascribed(
    alloc: Global,
    g: &Globals,
    s: &Here,
    p: Place,
    e: &Exp,
    t: &Con,
    room: u32,
) -> Result<Judged, AllocError>
    ensures { IfOk result
        (λ r. FormJudges
        (sc_view g.now s.now)
        p
        (tree.ascribed (exp_tree e.now) (con_tree t.now))
        (judged_tree r)) }
{
    let found = judge(alloc, g, s, e, room)?;
    of_typed(alloc, g, s, p, term_place(e), t, found)
}

/// `e.c`, `e -- c`, `e --- c`
#[cycle(judge)]
#[inline(never)]
fn judge_operation(
    alloc: Global,
    g: &Globals,
    s: &Here,
    p: Place,
    does: Operation,
    e: &Exp,
    c: &Con,
    room: u32,
) -> Result<Judged, AllocError>
    ensures { IfOk result
        (λ r. judged.OperationJudges
        (op_tree does)
        (sc_view g.now s.now)
        p
        (exp_tree e.now)
        (con_tree c.now)
        (judged_tree r)) }
{
    let found = judge(alloc, g, s, e, room)?;
    of_operation(alloc, g, s, p, term_place(e), does, c, found)
}

/// `e ++ d`
#[cycle(judge)]
#[inline(never)]
fn judge_concat(
    alloc: Global,
    g: &Globals,
    s: &Here,
    p: Place,
    e: &Exp,
    d: &Exp,
    room: u32,
) -> Result<Judged, AllocError>
    ensures { IfOk result
        (λ r. FormJudges
        (sc_view g.now s.now)
        p
        (tree.concat (exp_tree e.now) (exp_tree d.now))
        (judged_tree r)) }
{
    let left = judge(alloc, g, s, e, room)?;
    let right = judge(alloc, g, s, d, room)?;
    of_concat(alloc, g, s, p, term_place(e), term_place(d), left, right)
}

/// `f e [c] !`
#[cycle(judge)]
#[inline(never)]
#[tactic(auto, using(judged_terms::proofs::Listed::items_judged))]
fn judge_call(
    alloc: Global,
    g: &Globals,
    s: &Here,
    f: &Exp,
    is: &Items,
    room: u32,
) -> Result<Judged, AllocError>
    ensures { IfOk result
        (λ r. CallJudges (sc_view g.now s.now) (exp_tree f.now) (items_tree is.now) (judged_tree r)) }
{
    let head = judge(alloc, g, s, f, room)?;
    let found = judge_parts(alloc, g, s, Parts::Items(is), room)?;
    of_items(alloc, g, s, term_place(f), head, is, found)
}

/// `{n = e, ..}`
#[cycle(judge)]
#[inline(never)]
#[tactic(auto, using(judged_terms::proofs::Listed::fields_judged))]
fn judge_record(
    alloc: Global,
    g: &Globals,
    s: &Here,
    p: Place,
    fs: &Fields,
    room: u32,
) -> Result<Judged, AllocError>
    ensures { IfOk result
        (λ r. FormJudges (sc_view g.now s.now) p (tree.fields_of (fields_tree fs.now)) (judged_tree r)) }
{
    let found = judge_parts(alloc, g, s, Parts::Fields(fs), room)?;
    of_record(alloc, g, s, p, fs, found)
}

/// `let d in e end`
#[cycle(judge)]
#[inline(never)]
fn judge_let(
    alloc: Global,
    g: &Globals,
    s: &Here,
    ls: &Locals,
    e: &Exp,
    room: u32,
) -> Result<Judged, AllocError>
    ensures { IfOk result
        (λ r. LetJudges (sc_view g.now s.now) (locals_tree ls.now) (exp_tree e.now) (judged_tree r)) }
{
    let Behind { here, past } = judge_locals(alloc, g, s, ls, room)?;
    let found = judge(alloc, g, &here, e, room)?;
    Ok(of_let(past, found))
}

/// The declarations of a `let`.
#[cycle(judge)]
#[inline(never)]
#[tactic(auto, using(crate::proofs::Listed::locals_step, crate::proofs::Listed::locals_start, crate::proofs::Listed::locals_end))]
fn judge_locals(
    alloc: Global,
    g: &Globals,
    s: &Here,
    ls: &Locals,
    room: u32,
) -> Result<Behind, AllocError>
    ensures { IfOk result
        (λ r. LocalsJudge
        (sc_view g.now s.now)
        none_yet
        (locals_tree ls.now)
        (sc_view g.now r.here)
        (found_tree r.past)) }
{
    let mut now = before_all(s)?;
    for i in 0..ls.len() {
        let next = judge_local(alloc, g, now, ls.at(i), room)?;
        now = next;
    }
    Ok(now)
}

/// One more declaration of a `let`.
#[cycle(judge)]
#[inline(never)]
#[tactic(auto, using(judged_terms::proofs::Listed::names_judged))]
fn judge_local(
    alloc: Global,
    g: &Globals,
    before: Behind,
    l: &Local,
    room: u32,
) -> Result<Behind, AllocError>
    ensures { IfOk result
        (λ r. (rest : tree.Los) (H : Sc) (u : Ls) →
        LocalsJudge (sc_view g.now r.here) (found_tree r.past) rest H u →
        LocalsJudge
        (sc_view g.now before.here)
        (found_tree before.past)
        (with_declaration (local_tree l.now) rest)
        H
        u) }
{
    match l {
        Local::Val(n) => {
            let found = judge(alloc, g, &before.here, named_term(n), room)?;
            behind_value(alloc, g, before, n, found)
        }
        Local::ValRec(ns) => {
            let inner = under_names(alloc, &before.here, ns)?;
            let found = judge_names(alloc, g, &inner, ns, room)?;
            behind_values(alloc, g, before, inner, ns, found)
        }
    }
}

/// `case e of p => e | ..`
#[cycle(judge)]
#[inline(never)]
fn judge_case(
    alloc: Global,
    g: &Globals,
    s: &Here,
    p: Place,
    e: &Exp,
    b: &Branch,
    bs: &Branches,
    room: u32,
) -> Result<Judged, AllocError>
    ensures { let x = branch_parts b.now in
        IfOk result
        (λ r. FormJudges
        (sc_view g.now s.now)
        p
        (tree.case_of (exp_tree e.now) x.0 x.1 x.2 (branches_tree bs.now))
        (judged_tree r)) }
{
    let found = judge(alloc, g, s, e, room)?;
    judge_matched(alloc, g, s, p, found, b, bs, room)
}

/// `case e of p => e | ..`, from what is found for `e`.
#[cycle(judge)]
#[inline(never)]
fn judge_matched(
    alloc: Global,
    g: &Globals,
    s: &Here,
    p: Place,
    found: Judged,
    b: &Branch,
    bs: &Branches,
    room: u32,
) -> Result<Judged, AllocError>
    ensures { let x = branch_parts b.now in
        IfOk result
        (λ r. judged.CaseOf
        (sc_view g.now s.now)
        p
        (judged_tree found)
        x.1
        x.2
        (branches_tree bs.now)
        (judged_tree r)) }
{
    let Judged { ty, told } = found;
    match ty {
        None => Ok(Judged { ty: None, told }),
        Some(t) => {
            let cases = judge_branches(alloc, g, s, &t, b, bs, room)?;
            let missed = shape_missed(alloc, g, s, p, cases.bound, b, bs, &t)?;
            Ok(of_case(told, cases, missed))
        }
    }
}

/// The branches of a `case` of a type.
#[cycle(judge)]
#[inline(never)]
fn judge_branches(
    alloc: Global,
    g: &Globals,
    s: &Here,
    t: &Con,
    b: &Branch,
    bs: &Branches,
    room: u32,
) -> Result<Cases, AllocError>
    ensures { let x = branch_parts b.now in
        IfOk result
        (λ r. judged.BranchesAt
        (sc_view g.now s.now)
        (con_tree t.now)
        x.1
        x.2
        (branches_tree bs.now)
        (cases_tree r)) }
{
    let first = judge_branch(alloc, g, s, branch_pattern(b), t, branch_body(b), room)?;
    judge_later(alloc, g, s, t, first_case(first), bs, room)
}

/// The later branches of a `case` of a type.
#[cycle(judge)]
#[inline(never)]
#[tactic(auto, using(crate::proofs::Listed::branches_step, crate::proofs::Listed::branches_start, crate::proofs::Listed::branches_end))]
fn judge_later(
    alloc: Global,
    g: &Globals,
    s: &Here,
    t: &Con,
    first: Cases,
    bs: &Branches,
    room: u32,
) -> Result<Cases, AllocError>
    ensures { IfOk result
        (λ r. BranchesJudge
        (sc_view g.now s.now)
        (con_tree t.now)
        (branches_tree bs.now)
        (cases_tree first)
        (cases_tree r)) }
{
    let mut now = first;
    for i in 0..bs.len() {
        now = judge_next(alloc, g, s, t, now, bs.at(i), room)?;
    }
    Ok(now)
}

/// One more branch of a `case` of a type.
#[cycle(judge)]
#[inline(never)]
fn judge_next(
    alloc: Global,
    g: &Globals,
    s: &Here,
    t: &Con,
    past: Cases,
    b: &Branch,
    room: u32,
) -> Result<Cases, AllocError>
    ensures { let x = branch_parts b.now in
        IfOk result
        (λ r. (rest : tree.Brs) (d : Cs) →
        BranchesJudge (sc_view g.now s.now) (con_tree t.now) rest (cases_tree r) d →
        BranchesJudge (sc_view g.now s.now) (con_tree t.now) (tree.branch x.0 x.1 x.2 rest) (cases_tree past) d) }
{
    let body = branch_body(b);
    let later = judge_branch(alloc, g, s, branch_pattern(b), t, body, room)?;
    with_case(alloc, g, s, term_place(body), later, past)
}

/// An element of a page.
#[cycle(judge)]
#[inline(never)]
#[tactic(auto, using(judged_terms::proofs::Listed::attributes_judged, judged_terms::proofs::Listed::nodes_judged, judged_terms::proofs::Listed::element_judged))]
fn judge_element(
    alloc: Global,
    g: &Globals,
    s: &Here,
    p: Place,
    m: &Element,
    room: u32,
) -> Result<Judged, AllocError>
    ensures { IfOk result
        (λ r. FormJudges (sc_view g.now s.now) p (tree.element (element_tree m.now)) (judged_tree r)) }
{
    let attributes = judge_parts(alloc, g, s, Parts::Attributes(element_attributes(m)), room)?;
    let nodes = judge_parts(alloc, g, s, Parts::Nodes(element_nodes(m)), room)?;
    of_element(alloc, g, s, p, m, attributes, nodes)
}

/// A literal of a page.
#[cycle(judge)]
#[inline(never)]
#[tactic(auto, using(judged_terms::proofs::Listed::nodes_judged))]
fn judge_literal(
    alloc: Global,
    g: &Globals,
    s: &Here,
    p: Place,
    l: &Literal,
    room: u32,
) -> Result<Judged, AllocError>
    ensures { let x = literal_tree l.now in
        IfOk result
        (λ r. FormJudges (sc_view g.now s.now) p (tree.literal x.0 x.1 x.2) (judged_tree r)) }
{
    let nodes = judge_parts(alloc, g, s, Parts::Nodes(literal_nodes(l)), room)?;
    of_literal(alloc, g, s, p, l, nodes)
}

/// A form of SQL.
#[cycle(judge)]
#[inline(never)]
#[tactic(auto, using(judged_terms::proofs::Listed::terms_judged))]
fn judge_sql(
    alloc: Global,
    g: &Globals,
    s: &Here,
    p: Place,
    es: &Exps,
    room: u32,
) -> Result<Judged, AllocError>
    ensures { IfOk result
        (λ r. SqlJudges (sc_view g.now s.now) p (exps_tree es.now) (judged_tree r)) }
{
    let found = judge_parts(alloc, g, s, Parts::Terms(es), room)?;
    Ok(of_sql(p, found))
}
