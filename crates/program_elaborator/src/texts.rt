//! The symbols of all texts that modules write as names. They are made before anything is looked up.
//! `room` is the number of levels that are left; none left counts as want of memory.
use con_terms::SymTable;
use core_terms::MOST_NESTED;
use plain_tree::{
    Arg, Args, Attributes, Branch, Branches, Con, ConFields, ConForm, Cons, Datatype, Decl, Exp,
    Fields, Form, Item, Items, Label, Link, Links, Local, Locals, Named, NamedList, Node, Nodes,
    Pat, PatFields, PatForm, Plain,
};
use std::alloc::{AllocError, Global};
use table_rows::Text;
use type_makers::basis_symbols;

/// The symbols of the basis, and of all names that these modules write.
pub fn all_texts(alloc: Global, trees: &Vec<Plain>) -> Result<SymTable, AllocError> {
    let mut names = basis_symbols(alloc)?;
    for i in 0..trees.len() {
        let decls = &trees[i].decls;
        for j in 0..decls.items.len() {
            of_decl(alloc, &mut names, &decls.items[j])?;
        }
    }
    Ok(names)
}

/// The symbol of a text.
fn put(names: &mut SymTable, text: &Text) -> Result<(), AllocError> {
    names.intern(text.as_str())?;
    Ok(())
}

/// The names of a declaration. What isn't built yet needs none.
fn of_decl(alloc: Global, names: &mut SymTable, decl: &Decl) -> Result<(), AllocError> {
    match decl {
        Decl::Value(local) => of_local(alloc, names, local, MOST_NESTED),
        Decl::Con(declared) => {
            put(names, &declared.name.text)?;
            of_con(alloc, names, &declared.con, MOST_NESTED)
        }
        Decl::Datatype(datatype) => of_datatype(alloc, names, datatype),
        Decl::Table(_) | Decl::Sequence(_, _) | Decl::Cookie(_) => Ok(()),
    }
}

/// The names of a datatype, its parameters and its constructors.
fn of_datatype(alloc: Global, names: &mut SymTable, datatype: &Datatype) -> Result<(), AllocError> {
    put(names, &datatype.name.text)?;
    for i in 0..datatype.parameters.items.len() {
        put(names, &datatype.parameters.items[i].text)?;
    }
    for i in 0..datatype.builders.items.len() {
        let builder = &datatype.builders.items[i];
        put(names, &builder.name.text)?;
        maybe_con(alloc, names, &builder.holds, MOST_NESTED)?;
    }
    Ok(())
}

/// A label's text; of a number its digits.
fn of_label(alloc: Global, names: &mut SymTable, label: &Label) -> Result<(), AllocError> {
    match label {
        Label::Word(text) => put(names, text),
        Label::Number(number) => {
            names.intern(number.to_string(alloc)?.as_str())?;
            Ok(())
        }
    }
}

/// The names of a constructor, where there is one.
fn maybe_con(
    alloc: Global,
    names: &mut SymTable,
    c: &Option<Con>,
    room: u32,
) -> Result<(), AllocError> {
    match c {
        Some(c) => of_con(alloc, names, c, room),
        None => Ok(()),
    }
}

/// The names of a constructor.
#[cycle(con_texts)]
fn of_con(alloc: Global, names: &mut SymTable, c: &Con, room: u32) -> Result<(), AllocError> {
    if room == 0 {
        return Err(AllocError);
    }
    let left = room - 1;
    match &c.form {
        ConForm::Name(_) | ConForm::Wild | ConForm::Unit => Ok(()),
        ConForm::Label(label) => of_label(alloc, names, label),
        ConForm::Arrow(a, b) => {
            of_con(alloc, names, a, left)?;
            of_con(alloc, names, b, left)
        }
        ConForm::Poly(_, name, _, body) | ConForm::Lambda(name, _, body) => {
            put(names, name)?;
            of_con(alloc, names, body, left)
        }
        ConForm::Guarded(a, b, body) => {
            of_con(alloc, names, a, left)?;
            of_con(alloc, names, b, left)?;
            of_con(alloc, names, body, left)
        }
        ConForm::Record(_, a) | ConForm::Kinded(a, _) | ConForm::Proj(a, _) => {
            of_con(alloc, names, a, left)
        }
        ConForm::Apply(a, more) | ConForm::Concat(a, more) => {
            of_con(alloc, names, a, left)?;
            of_cons(alloc, names, more, left)
        }
        ConForm::Tuple(parts) => of_cons(alloc, names, parts, left),
        ConForm::Row(fields) => of_con_fields(alloc, names, fields, left),
    }
}

/// The names of constructors.
#[cycle(con_texts)]
fn of_cons(alloc: Global, names: &mut SymTable, cs: &Cons, room: u32) -> Result<(), AllocError> {
    for i in 0..cs.items.len() {
        of_con(alloc, names, &cs.items[i], room)?;
    }
    Ok(())
}

/// The names of a row's fields.
#[cycle(con_texts)]
fn of_con_fields(
    alloc: Global,
    names: &mut SymTable,
    fields: &ConFields,
    room: u32,
) -> Result<(), AllocError> {
    for i in 0..fields.items.len() {
        of_con(alloc, names, &fields.items[i].name, room)?;
        of_con(alloc, names, &fields.items[i].value, room)?;
    }
    Ok(())
}

/// The names of a pattern.
#[cycle(pat_texts)]
fn of_pat(alloc: Global, names: &mut SymTable, p: &Pat, room: u32) -> Result<(), AllocError> {
    if room == 0 {
        return Err(AllocError);
    }
    let left = room - 1;
    match &p.form {
        PatForm::Any | PatForm::Int(_, _) | PatForm::Words(_) | PatForm::Bare(_) => Ok(()),
        PatForm::Bind(name) => put(names, name),
        PatForm::Holding(_, held) => of_pat(alloc, names, held, left),
        PatForm::Rec(fields, _) => of_pat_fields(alloc, names, fields, left),
        PatForm::Typed(part, con) => {
            of_pat(alloc, names, part, left)?;
            of_con(alloc, names, con, left)
        }
    }
}

/// The names of a record pattern's fields.
#[cycle(pat_texts)]
fn of_pat_fields(
    alloc: Global,
    names: &mut SymTable,
    fields: &PatFields,
    room: u32,
) -> Result<(), AllocError> {
    for i in 0..fields.items.len() {
        of_con(alloc, names, &fields.items[i].name, room)?;
        of_pat(alloc, names, &fields.items[i].pat, room)?;
    }
    Ok(())
}

/// The names of parameters.
fn of_args(alloc: Global, names: &mut SymTable, args: &Args, room: u32) -> Result<(), AllocError> {
    for i in 0..args.items.len() {
        match &args.items[i] {
            Arg::Pat(p) => of_pat(alloc, names, p, room)?,
            Arg::Con(_, _, _, name, _) => put(names, &name.text)?,
            Arg::Guard(_, a, b) => {
                of_con(alloc, names, a, room)?;
                of_con(alloc, names, b, room)?;
            }
        }
    }
    Ok(())
}

/// The names of a term. A form of SQL isn't built yet and needs none.
#[cycle(exp_texts)]
fn of_exp(alloc: Global, names: &mut SymTable, e: &Exp, room: u32) -> Result<(), AllocError> {
    if room == 0 {
        return Err(AllocError);
    }
    let left = room - 1;
    match &e.form {
        Form::Int(_)
        | Form::Words(_)
        | Form::Name(_, _)
        | Form::Builder(_, _)
        | Form::Basis(_)
        | Form::Sql(_, _) => Ok(()),
        Form::Call(f, items) => {
            of_exp(alloc, names, f, left)?;
            of_items(alloc, names, items, left)
        }
        Form::Fn(args, body) => {
            of_args(alloc, names, args, left)?;
            of_exp(alloc, names, body, left)
        }
        Form::Case(e, first, more) => {
            of_exp(alloc, names, e, left)?;
            of_branch(alloc, names, first, left)?;
            of_branches(alloc, names, more, left)
        }
        Form::Let(locals, body) => {
            of_locals(alloc, names, locals, left)?;
            of_exp(alloc, names, body, left)
        }
        Form::Typed(e, con) => {
            of_exp(alloc, names, e, left)?;
            of_con(alloc, names, con, left)
        }
        Form::Rec(fields) => of_fields(alloc, names, fields, left),
        Form::Chain(e, links) => {
            of_exp(alloc, names, e, left)?;
            of_links(alloc, names, links, left)
        }
        Form::Xml(nodes) => of_nodes(alloc, names, nodes, left),
    }
}

/// The names of what a term is applied to.
#[cycle(exp_texts)]
fn of_items(
    alloc: Global,
    names: &mut SymTable,
    items: &Items,
    room: u32,
) -> Result<(), AllocError> {
    for i in 0..items.items.len() {
        match &items.items[i] {
            Item::Term(e) => of_exp(alloc, names, e, room)?,
            Item::Con(_, c) => of_con(alloc, names, c, room)?,
            Item::Guard(_) => {}
        }
    }
    Ok(())
}

/// The names of a branch.
#[cycle(exp_texts)]
fn of_branch(
    alloc: Global,
    names: &mut SymTable,
    branch: &Branch,
    room: u32,
) -> Result<(), AllocError> {
    of_pat(alloc, names, &branch.pat, room)?;
    of_exp(alloc, names, &branch.body, room)
}

/// The names of branches.
#[cycle(exp_texts)]
fn of_branches(
    alloc: Global,
    names: &mut SymTable,
    branches: &Branches,
    room: u32,
) -> Result<(), AllocError> {
    for i in 0..branches.items.len() {
        of_branch(alloc, names, &branches.items[i], room)?;
    }
    Ok(())
}

/// The names of a record's fields.
#[cycle(exp_texts)]
fn of_fields(
    alloc: Global,
    names: &mut SymTable,
    fields: &Fields,
    room: u32,
) -> Result<(), AllocError> {
    for i in 0..fields.items.len() {
        of_con(alloc, names, &fields.items[i].name, room)?;
        of_exp(alloc, names, &fields.items[i].value, room)?;
    }
    Ok(())
}

/// The names of what follows a term in a chain.
#[cycle(exp_texts)]
fn of_links(
    alloc: Global,
    names: &mut SymTable,
    links: &Links,
    room: u32,
) -> Result<(), AllocError> {
    for i in 0..links.items.len() {
        match &links.items[i] {
            Link::Infix(_, _, e) => of_exp(alloc, names, e, room)?,
            Link::Field(c) | Link::Without(_, c) | Link::WithoutRow(_, c) => {
                of_con(alloc, names, c, room)?
            }
        }
    }
    Ok(())
}

/// The names of declarations of a `let`.
#[cycle(exp_texts)]
fn of_locals(
    alloc: Global,
    names: &mut SymTable,
    locals: &Locals,
    room: u32,
) -> Result<(), AllocError> {
    for i in 0..locals.items.len() {
        of_local(alloc, names, &locals.items[i], room)?;
    }
    Ok(())
}

/// The names of a declaration of values.
#[cycle(exp_texts)]
fn of_local(
    alloc: Global,
    names: &mut SymTable,
    local: &Local,
    room: u32,
) -> Result<(), AllocError> {
    match local {
        Local::Val(_, named) => of_named(alloc, names, named, room),
        Local::ValRec(_, group) => of_group(alloc, names, group, room),
    }
}

/// The names of values that are declared together.
#[cycle(exp_texts)]
fn of_group(
    alloc: Global,
    names: &mut SymTable,
    group: &NamedList,
    room: u32,
) -> Result<(), AllocError> {
    for i in 0..group.items.len() {
        of_named(alloc, names, &group.items[i], room)?;
    }
    Ok(())
}

/// The names of a value's declaration.
#[cycle(exp_texts)]
fn of_named(
    alloc: Global,
    names: &mut SymTable,
    named: &Named,
    room: u32,
) -> Result<(), AllocError> {
    put(names, &named.name.text)?;
    maybe_con(alloc, names, &named.con, room)?;
    of_exp(alloc, names, &named.exp, room)
}

/// The names of nodes.
#[cycle(exp_texts)]
fn of_nodes(
    alloc: Global,
    names: &mut SymTable,
    nodes: &Nodes,
    room: u32,
) -> Result<(), AllocError> {
    for i in 0..nodes.items.len() {
        of_node(alloc, names, &nodes.items[i], room)?;
    }
    Ok(())
}

/// The names of a node.
#[cycle(exp_texts)]
fn of_node(alloc: Global, names: &mut SymTable, node: &Node, room: u32) -> Result<(), AllocError> {
    match node {
        Node::Run(_, _) => Ok(()),
        Node::Exp(_, e) => of_exp(alloc, names, e, room),
        Node::Element(_, _, con, attributes, content) => {
            if room == 0 {
                return Err(AllocError);
            }
            maybe_con(alloc, names, con, room)?;
            of_attributes(alloc, names, attributes, room)?;
            of_nodes(alloc, names, content, room - 1)
        }
    }
}

/// The names of attributes' values.
#[cycle(exp_texts)]
fn of_attributes(
    alloc: Global,
    names: &mut SymTable,
    attributes: &Attributes,
    room: u32,
) -> Result<(), AllocError> {
    for i in 0..attributes.items.len() {
        of_exp(alloc, names, &attributes.items[i].value, room)?;
    }
    Ok(())
}
