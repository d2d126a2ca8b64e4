//! Faults of elaboration and of the checker.
ghost use Rattle.std.specs.Prelude.{◌≡◌, ◌++◌, true, codes, string_bytes, IfOk};
ghost use Rattle.con_terms.specs.View.{con_tree};
ghost use Rattle.core_terms.specs.View.{program_view, symbols_view};
ghost use Rattle.fault_lines.specs.Lines.{IsMissingText, IsTextOf, IsToldBy, IsToldOf, IsToldOfElaboration, IsToldOver, IsUnboundText, touching_words};
ghost use Rattle.fault_lines.specs.Shapes.{shape_words};
ghost use Rattle.shown_types.specs.Programs.{texts_of};
ghost use Rattle.shown_types.specs.Shown.{con_words, differing_words};
ghost use Rattle.shown_types.specs.View.{known_view};
ghost use Rattle.shown_types.specs.Words.{spaced};
ghost use Rattle.type_faults.specs.View.{fault_tree, name_tree, shape_tree};

use crate::names::with_twice;
use crate::shapes::with_shape_behind;
use con_terms::{Con, Place};
use core_terms::{Program, Symbols};
use disjoint_prover::fault::Pieces;
use inserted_terms::gaps::{NO_FOLDER, NO_INSTANCE};
use name_scopes::ElabFault;
use shown_types::{
    Known, called_by, differing_kinds, differing_types, folders_of, inside, new_name, two_types,
    types_of,
};
use std::alloc::{AllocError, Global};
use table_rows::Texts;
use type_faults::{Fault, Name, Shape, Types, place_of};

/// Where a fault stands, and what its line says behind that place.
#[derive(Drop)]
pub struct Told {
    pub place: Place,
    pub text: String,
}

/// The text of two types that differ.
fn mismatch(known: &Known<'_>, called: &Symbols, types: &Types) -> Result<String, AllocError>
    ensures { IfOk result (λ text. string_bytes text ≡ codes "Mismatch" ++ spaced (differing_words
        (con_words (known_view known.now) (texts_of (known_view known.now) (symbols_view called.now)) 0
        (con_tree types.now.wanted))
        (con_words (known_view known.now) (texts_of (known_view known.now) (symbols_view called.now)) 0
        (con_tree types.now.found)))) }
{
    let called = called_by(known, called)?;
    differing_types(known, &called, "Mismatch", &types.wanted, &types.found)
}

/// The text of two pieces that aren't separated.
fn not_disjoint(known: &Known<'_>, called: &Symbols, pieces: &Pieces) -> Result<String, AllocError>
    ensures { IfOk result (λ text. string_bytes text ≡ codes "NotDisjoint" ++ spaced
        (touching_words (known_view known.now) (texts_of (known_view known.now) (symbols_view called.now))
        (con_tree pieces.now.left) (con_tree pieces.now.right))) }
{
    let called = called_by(known, called)?;
    touching(known, &called, &pieces.left, &pieces.right)
}

/// The text of two pieces that aren't separated. `called` is what the variables in scope are called, the innermost
/// first. Where both are functions, they are closed by a binder under which they touch: its variable gets a name.
#[cycle(touching)]
fn touching(
    known: &Known<'_>,
    called: &Texts,
    left: &Con,
    right: &Con,
) -> Result<String, AllocError>
    ensures { IfOk result (λ text. string_bytes text ≡ codes "NotDisjoint" ++ spaced
        (touching_words (known_view known.now) called.now (con_tree left.now) (con_tree right.now))) }
{
    match (left, right) {
        (Con::Lambda(kind, left), Con::Lambda(_, right)) => {
            let name = new_name(known.alloc, called, kind)?;
            let called = inside(known.alloc, name, called)?;
            touching(known, &called, left, right)
        }
        _ => two_types(known, called, "NotDisjoint", left, right),
    }
}

/// The text of a shape that no pattern takes.
fn inexhaustive(known: &Known<'_>, called: &Symbols, missed: &Shape) -> Result<String, AllocError>
    ensures { IfOk result (λ text. string_bytes text ≡ codes "Inexhaustive"
        ++ spaced (shape_words (known_view known.now) (texts_of (known_view known.now) (symbols_view called.now)) true
        (shape_tree missed.now))) }
{
    let called = called_by(known, called)?;
    with_shape_behind(known, &called, "Inexhaustive", missed)
}

/// The text of a value that isn't bound: of one that stands where no instance or no folder could be inserted. All other
/// values inference tells, so that they count as want of memory here.
fn missing(alloc: Global, number: u32) -> Result<String, AllocError>
    ensures { IfOk result (λ text. IsMissingText number (string_bytes text)) }
{
    if number == NO_INSTANCE {
        return "NoInstance".to_string(alloc);
    }
    if number == NO_FOLDER {
        return "NoFolder".to_string(alloc);
    }
    Err(AllocError)
}

/// The text of a name that isn't bound and that a source has.
fn not_bound(alloc: Global, name: &str) -> Result<String, AllocError>
    ensures { IfOk result (λ text. string_bytes text ≡ codes "Unbound " ++ name.now) }
{
    let mut text = "Unbound ".to_string(alloc)?;
    text.push_str(name)?;
    Ok(text)
}

/// The text of a name that isn't bound and that the checker tells. All other names inference tells, so that they count
/// as want of memory here.
fn unbound(alloc: Global, name: &Name) -> Result<String, AllocError>
    ensures { IfOk result (λ text. IsUnboundText (name_tree name.now) (string_bytes text)) }
{
    match name {
        Name::Value(number) => missing(alloc, *number),
        Name::Attribute(attribute) => not_bound(alloc, attribute.as_str()),
        Name::InputName => not_bound(alloc, "_"),
        _ => Err(AllocError),
    }
}

/// The text of a fault.
fn text_of(known: &Known<'_>, fault: &Fault) -> Result<String, AllocError>
    ensures { IfOk result (λ text. IsTextOf (known_view known.now) (fault_tree fault.now) (string_bytes text)) }
{
    match fault {
        Fault::Unbound(_, name) => unbound(known.alloc, name),
        Fault::KindMismatch(_, kinds) => {
            differing_kinds(known.alloc, "KindMismatch", &kinds.wanted, &kinds.found)
        }
        Fault::Mismatch(_, called, types) => mismatch(known, called, types),
        Fault::NotDisjoint(_, called, pieces) => not_disjoint(known, called, pieces),
        Fault::Inexhaustive(_, called, missed) => inexhaustive(known, called, missed),
        Fault::Redeclared(_, name) => with_twice(known, "Redeclared ", name),
        Fault::LinkNotCall(_) => "LinkNotCall".to_string(known.alloc),
        Fault::NotSerialisable(_) => "NotSerialisable".to_string(known.alloc),
        Fault::TooLarge(_) => "TooLarge".to_string(known.alloc),
        Fault::NotBuilt(_) => "NotBuilt".to_string(known.alloc),
    }
}

/// What is told of a fault: where it stands, and its text.
fn told_of(known: &Known<'_>, fault: &Fault) -> Result<Told, AllocError>
    ensures { IfOk result (λ told. IsToldOver (known_view known.now) (fault_tree fault.now) told.place
        (string_bytes told.text)) }
{
    let place = place_of(fault);
    let text = text_of(known, fault)?;
    Ok(Told { place, text })
}

/// What is told of a program that the checker refuses: the fault's place, and its name, with what it keeps behind that.
pub fn told_of_check(alloc: Global, program: &Program, fault: &Fault) -> Result<Told, AllocError>
    ensures { IfOk result (λ told. IsToldOf (program_view program.now) (fault_tree fault.now) told.place
        (string_bytes told.text)) }
{
    let types = types_of(alloc, &program.decls)?;
    let folders = folders_of(alloc, &program.folders)?;
    let known = Known {
        alloc,
        texts: &program.names,
        modules: &program.modules,
        types: types.as_slice(),
        folders: folders.as_slice(),
        file: place_of(fault).file,
    };
    told_of(&known, fault)
}

/// A fault that keeps nothing.
fn bare(alloc: Global, place: Place, name: &str) -> Result<Told, AllocError>
    ensures { IfOk result (λ told. (told.place ≡ place) × (string_bytes told.text ≡ name.now)) }
{
    let text = name.to_string(alloc)?;
    Ok(Told { place, text })
}

/// A name that a source has and that isn't bound.
fn not_found(alloc: Global, place: Place, name: &str) -> Result<Told, AllocError>
    ensures { IfOk result (λ told. (told.place ≡ place) × (string_bytes told.text ≡ codes "Unbound " ++ name.now)) }
{
    let text = not_bound(alloc, name)?;
    Ok(Told { place, text })
}

/// What is told of a fault of sources that is one of the explicit language.
fn told_of_sources<'a>(
    alloc: Global,
    names: &'a Texts,
    modules: &'a Texts,
    fault: &Fault,
) -> Result<Told, AllocError>
    ensures { IfOk result (λ told. IsToldBy names.now modules.now (fault_tree fault.now) told.place
        (string_bytes told.text)) }
{
    let known = Known {
        alloc,
        texts: names,
        modules,
        types: &[],
        folders: &[],
        file: place_of(fault).file,
    };
    told_of(&known, fault)
}

/// What is told of sources that aren't elaborated: the fault's place, and its name, with what it keeps behind that.
/// `names` are the texts of the symbols, `modules` the modules' names. Want of memory is no fault of a source, and is
/// answered so, as are faults that inference has none of.
pub fn told_of_elaboration<'a>(
    alloc: Global,
    names: &'a Texts,
    modules: &'a Texts,
    fault: &ElabFault,
) -> Result<Told, AllocError>
    ensures { IfOk result (λ told. IsToldOfElaboration names.now modules.now fault.now told.place
        (string_bytes told.text)) }
{
    match fault {
        ElabFault::Unbound(place, name) => not_found(alloc, *place, name.as_str()),
        ElabFault::Told(fault) => told_of_sources(alloc, names, modules, fault),
        ElabFault::Unsolved(place) => bare(alloc, *place, "Unsolved"),
        _ => Err(AllocError),
    }
}
