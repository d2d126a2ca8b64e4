//! The text of a link.
ghost use Rattle.std.specs.Prelude.{◌≡◌, ◌<◌, ◌++◌, ◌+◌, ◌∷◌, length, IfOk, OnOk};
ghost use Rattle.table_rows.specs.View.{wire_tree, wires_tree};
ghost use Rattle.table_rows.specs.Pieces.{pieces, all_pieces, escaped};
ghost use Rattle.link_router.specs.Links.{joined, IsLinkOf};
ghost use Rattle.link_router.specs.Pending.{agenda_view, pending, load, all_loads};
ghost use Rattle.link_router.specs.View.{routes_view};

use crate::agenda::Agenda;
use crate::routes::Routes;
use itoa::Buffer;
use percent_encoding::{AsciiSet, NON_ALPHANUMERIC, ascii_set, percent_encode};
use std::alloc::{AllocError, Global};
use std::slice::from_ref;
use table_rows::{Text, Texts, Wire, Wires};

/// All bytes but letters, digits, and `-._~`.
const ESCAPED: AsciiSet = ascii_set!(
    NON_ALPHANUMERIC
        .remove(b'-')
        .remove(b'.')
        .remove(b'_')
        .remove(b'~')
);

/// The link of the entry with this number, called with these arguments.
pub fn link_text(
    alloc: Global,
    routes: &Routes,
    entry: u32,
    wires: &Wires,
) -> Result<Text, AllocError>
    requires { entry < length (routes_view routes.now).entries }
    ensures { IfOk result (λ text. IsLinkOf (routes_view routes.now) entry (wires_tree wires.now) text) }
{
    let mut text = Text::new(alloc);
    push_names(&mut text, &routes.entries[entry as usize].name)?;
    push_values(alloc, &mut text, wires)?;
    Ok(text)
}

/// Adds a piece behind a slash.
fn push_piece(text: &mut Text, piece: &str) -> Result<(), AllocError>
    ensures { OnOk result (text.new ≡ text.old ++ 47 ∷ piece.now) }
{
    text.push('/')?;
    text.push_str(piece)
}

/// Adds names, each behind a slash.
fn push_names(text: &mut Text, names: &Texts) -> Result<(), AllocError>
    ensures { OnOk result (text.new ≡ text.old ++ joined names.now) }
{
    for i in 0..names.len() {
        push_piece(text, names.at(i).as_str())?;
    }
    Ok(())
}

/// Adds a text, escaped.
fn push_escaped(alloc: Global, text: &mut Text, words: &Text) -> Result<(), AllocError>
    ensures { OnOk result (text.new ≡ text.old ++ escaped words.now) }
{
    let mut piece = String::new(alloc);
    percent_encode(words.as_bytes(), ESCAPED).append_to(&mut piece)?;
    text.push_str(piece.as_str())
}

/// Adds what a value writes before its parts. These stand first among what is to be written then.
fn push_value<'w>(
    alloc: Global,
    text: &mut Text,
    wire: &'w Wire,
    agenda: &mut Agenda<'w>,
) -> Result<(), AllocError>
    ensures written { OnOk result (text.new ++ pending (agenda_view agenda.new)
        ≡ text.old ++ (joined (pieces (wire_tree wire.now)) ++ pending (agenda_view agenda.old))) }
    ensures lighter { OnOk result (all_loads (agenda_view agenda.new)
        ≡ load (wire_tree wire.now) + all_loads (agenda_view agenda.old)) }
{
    match wire {
        Wire::Int(number) => push_piece(text, Buffer::new().format(*number)),
        Wire::Words(words) => {
            push_piece(text, "_")?;
            push_escaped(alloc, text, words)
        }
        Wire::Unit => Ok(()),
        Wire::Rec(fields) => agenda.push(fields.items.as_slice()),
        Wire::Tagged(name, None) => push_piece(text, name.as_str()),
        Wire::Tagged(name, Some(held)) => {
            push_piece(text, name.as_str())?;
            agenda.push(from_ref(&**held))
        }
    }
}

/// Adds the pieces of values, each behind a slash, without recursion.
fn push_values(alloc: Global, text: &mut Text, wires: &Wires) -> Result<(), AllocError>
    ensures { OnOk result (text.new ≡ text.old ++ joined (all_pieces (wires_tree wires.now))) }
{
    let mut agenda = Agenda::new(alloc);
    agenda.push(wires.items.as_slice())?;
    while let Some(values) = agenda.pop() {
        if let Some((first, others)) = values.split_first() {
            agenda.push(others)?;
            push_value(alloc, text, first, &mut agenda)?;
        }
    }
    Ok(())
}
