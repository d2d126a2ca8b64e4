//! Entries of one name that are read by one method.
ghost use Rattle.std.specs.Prelude.{◌≡◌, ◌<◌, ◌+◌, ◌++◌, ◌∷◌, [], List, ℕ, get_or, if◌then◌else◌, length, map, IfOk, OnOk};
ghost use Rattle.std.specs.Bool.{Decides};
ghost use Rattle.std.specs.List.{Contains};
ghost use Rattle.core_terms.specs.View.{decl_tree, named_list_tree, named_tree, program_view};
ghost use Rattle.link_router.specs.Calls.{is_post as posts};
ghost use Rattle.link_router.specs.View.{entry_view};
ghost use Rattle.told_faults.specs.Told.{Picks};
ghost use Rattle.type_faults.specs.View.{maybe_fault};
ghost use Rattle.core_checker.specs.Keys as keys;
ghost use Rattle.core_checker.specs.Twice.{all_places, decl_places, named_places};
ghost use Rattle.core_checker.specs.Twice.{CalledAt, NameAt, SameCall, SecondEntry, ToldTwice, Twice as TwiceAt};

use con_terms::{Place, SymTable};
use core_terms::{Decl, Named, NamedList, Program};
use link_router::Entry;
use site_routes::routes;
use std::alloc::{AllocError, Global};
use table_rows::{Text, Texts};
use type_faults::{Fault, Twice, first};

/// Whether two names have one piece at a place.
fn is_same_piece(a: &Texts, b: &Texts, i: usize) -> bool
    requires in_a { i < length a.now }
    requires in_b { i < length b.now }
    ensures { Decides result (get_or a.now i [] ≡ get_or b.now i []) }
{
    a.at(i).as_str() == b.at(i).as_str()
}

/// Whether two names are one, piece by piece.
#[tactic(auto, using(crate::proofs::EntryNames::same_length, crate::proofs::EntryNames::same_piece, crate::proofs::EntryNames::same_names))]
fn is_same_name(a: &Texts, b: &Texts) -> bool
    ensures { Decides result (a.now ≡ b.now) }
{
    if a.len() != b.len() {
        return false;
    }
    for i in 0..a.len() {
        if !is_same_piece(a, b, i) {
            return false;
        }
    }
    true
}

/// Whether an entry is read by POST.
fn is_post(e: &Entry) -> bool
    ensures { result ≡ posts (entry_view e.now).form }
{
    match &e.form {
        None => false,
        Some(_) => true,
    }
}

/// Whether two entries have one name, and are read by one method.
#[tactic(auto, using(crate::proofs::EntryNames::other_method, crate::proofs::EntryNames::one_method))]
fn is_same_call(a: &Entry, b: &Entry) -> bool
    ensures { Decides result (SameCall (entry_view a.now) (entry_view b.now)) }
{
    let by_post = is_post(a);
    let posted = is_post(b);
    if by_post == posted {
        is_same_name(&a.name, &b.name)
    } else {
        false
    }
}

/// Whether the entry at a place has the name and the method of an earlier one.
fn is_twice(entries: &Vec<Entry>, j: usize) -> bool
    requires { j < length entries.now.items }
    ensures { Decides result (TwiceAt (map entry_view entries.now.items) j) }
{
    let entry = &entries[j];
    for i in 0..j {
        let other = &entries[i];
        let same = is_same_call(other, entry);
        if same {
            return true;
        }
    }
    false
}

/// Adds a piece of a name and a dot to a text.
fn add_piece(piece: &Text, key: &mut Text) -> Result<(), AllocError>
    ensures { OnOk result (key.new ≡ key.old ++ piece.now ++ 46 ∷ []) }
{
    key.push_str(piece.as_str())?;
    key.push_str(".")
}

/// Adds the pieces of a name to a text.
#[tactic(auto, using(crate::proofs::EntryKeys::pieces_on, crate::proofs::EntryKeys::pieces_end))]
fn add_pieces(name: &Texts, key: &mut Text) -> Result<(), AllocError>
    ensures { OnOk result (key.new ≡ key.old ++ keys.dotted name.now) }
{
    for i in 0..name.len() {
        add_piece(name.at(i), key)?;
    }
    Ok(())
}

/// What a key begins with.
fn key_start(alloc: Global, post: bool) -> Result<Text, AllocError>
    ensures { IfOk result (λ t. t ≡ (if post then 80 else 71) ∷ []) }
{
    if post {
        Text::of(alloc, "P")
    } else {
        Text::of(alloc, "G")
    }
}

/// A text by which most entries that aren't one call differ.
#[tactic(auto, using(crate::proofs::EntryKeys::key_is))]
fn key_of(alloc: Global, e: &Entry) -> Result<Text, AllocError>
    ensures { IfOk result (λ t. t ≡ keys.key_of (entry_view e.now)) }
{
    let post = is_post(e);
    let mut key = key_start(alloc, post)?;
    add_pieces(&e.name, &mut key)?;
    Ok(key)
}

/// Puts a text into a table. Whether it was there is the answer.
#[tactic(auto, using(crate::proofs::EntryKeys::kept_by))]
fn put_key(table: &mut SymTable, key: &Text) -> Result<bool, AllocError>
    ensures known { IfOk result (λ b. Decides b (Contains table.old key.now)) }
    ensures kept { OnOk result ((x : List ℕ) → Contains table.old x → Contains table.new x) }
    ensures there { OnOk result (Contains table.new key.now) }
{
    let known = table.find(key.as_str()).is_some();
    table.intern(key.as_str())?;
    Ok(known)
}

/// Whether the entry at a place has the name and the method of an earlier one. The keys of the earlier ones are in the
/// table, and its own is afterwards: where it wasn't, no earlier one is compared.
#[tactic(auto, using(crate::proofs::EntryKeys::second_not, crate::proofs::EntryKeys::second_noted))]
fn is_second(
    alloc: Global,
    table: &mut SymTable,
    entries: &Vec<Entry>,
    j: usize,
) -> Result<bool, AllocError>
    requires within { j < length entries.now.items }
    requires before { keys.HasKeys (map entry_view entries.now.items) j table.old }
    ensures twice { IfOk result (λ b. Decides b (TwiceAt (map entry_view entries.now.items) j)) }
    ensures noted { OnOk result (keys.HasKeys (map entry_view entries.now.items) (j + 1) table.new) }
{
    let key = key_of(alloc, &entries[j])?;
    let known = put_key(table, &key)?;
    if known {
        Ok(is_twice(entries, j))
    } else {
        Ok(false)
    }
}

/// A copy of the text at a place.
fn copy_text(alloc: Global, texts: &Texts, i: usize) -> Result<Text, AllocError>
    requires { i < length texts.now }
    ensures { IfOk result (λ t. t ≡ get_or texts.now i []) }
{
    texts.at(i).copy(alloc)
}

/// A copy of texts.
#[tactic(auto, using(crate::proofs::EntryPlaces::texts_on, crate::proofs::EntryPlaces::texts_end))]
fn copy_texts(alloc: Global, texts: &Texts) -> Result<Texts, AllocError>
    ensures { IfOk result (λ new. new ≡ texts.now) }
{
    let mut new = Texts::new(alloc);
    for i in 0..texts.len() {
        new.push(copy_text(alloc, texts, i)?)?;
    }
    Ok(new)
}

/// Adds where a name stands.
fn add_place(n: &Named, all: &mut Vec<Place>) -> Result<(), AllocError>
    ensures { OnOk result (all.new.items ≡ all.old.items ++ (named_tree n.now).0 ∷ []) }
{
    Ok(all.push(n.place)?)
}

/// Adds where names that are declared together stand.
fn add_places(ns: &NamedList, all: &mut Vec<Place>) -> Result<(), AllocError>
    ensures { OnOk result (all.new.items ≡ all.old.items ++ named_places (named_list_tree ns.now)) }
{
    for i in 0..ns.items.len() {
        add_place(&ns.items[i], all)?;
    }
    Ok(())
}

/// Adds where the values of a declaration stand.
fn add_places_of(d: &Decl, all: &mut Vec<Place>) -> Result<(), AllocError>
    ensures { OnOk result (all.new.items ≡ all.old.items ++ decl_places (decl_tree d.now)) }
{
    match d {
        Decl::Val(_, n) => add_place(n, all),
        Decl::ValRec(_, ns) => add_places(ns, all),
        Decl::Thing(t) => Ok(all.push(t.place)?),
        _ => Ok(()),
    }
}

/// Where the values stand, by their numbers.
#[tactic(auto, using(crate::proofs::EntryPlaces::places_on, crate::proofs::EntryPlaces::places_end))]
fn places(alloc: Global, p: &Program) -> Result<Vec<Place>, AllocError>
    ensures { IfOk result (λ all. all.items ≡ all_places (program_view p.now).decls) }
{
    let mut all = Vec::new(alloc);
    for i in 0..p.decls.items.len() {
        add_places_of(&p.decls.items[i], &mut all)?;
    }
    Ok(all)
}

/// Where the value stands that the entry at a place calls. Each entry calls a value, and each value stands somewhere.
fn place_called(places: &Vec<Place>, callees: &Vec<u32>, j: usize) -> Result<Place, AllocError>
    ensures { IfOk result (CalledAt places.now.items callees.now.items j) }
{
    if j >= callees.len() {
        return Err(AllocError);
    }
    let number = callees[j] as usize;
    if number >= places.len() {
        return Err(AllocError);
    }
    Ok(places[number])
}

/// The name of the entry at a place.
fn name_at(alloc: Global, entries: &Vec<Entry>, j: usize) -> Result<Texts, AllocError>
    requires { j < length entries.now.items }
    ensures { IfOk result (NameAt (map entry_view entries.now.items) j) }
{
    copy_texts(alloc, &entries[j].name)
}

/// What is told of the entry at a place, where it has the name and the method of an earlier one.
fn told_at(
    alloc: Global,
    places: &Vec<Place>,
    callees: &Vec<u32>,
    entries: &Vec<Entry>,
    j: usize,
    twice: bool,
) -> Result<Option<Fault>, AllocError>
    requires within { j < length entries.now.items }
    requires twice { Decides twice (TwiceAt (map entry_view entries.now.items) j) }
    ensures { IfOk result (λ o. Picks
        (ToldTwice (map entry_view entries.now.items) places.now.items callees.now.items j)
        (maybe_fault o)) }
{
    if twice {
        let place = place_called(places, callees, j)?;
        let name = name_at(alloc, entries, j)?;
        Ok(Some(Fault::Redeclared(place, Twice::Entry(name))))
    } else {
        Ok(None)
    }
}

/// What is told of the second entries of a name and a method: of the first of them.
pub fn entries_told(alloc: Global, p: &Program) -> Result<Option<Fault>, AllocError>
    ensures { IfOk result (λ o. Picks (SecondEntry (program_view p.now)) (maybe_fault o)) }
{
    let site = routes(alloc, p)?;
    let entries = &site.routes.entries;
    let callees = &site.callees;
    let places = places(alloc, p)?;
    let mut table = SymTable::new(alloc);
    let mut told = None;
    for j in 0..entries.len() {
        let twice = is_second(alloc, &mut table, entries, j)?;
        let second = told_at(alloc, &places, callees, entries, j, twice)?;
        told = first(told, second);
    }
    Ok(told)
}
