//! What stands in a void element, and isn't written.
ghost use Rattle.std.specs.Prelude.{◌≡◌, ◌≤◌, ◌<◌, ◌+◌, ◌^◌};
ghost use Rattle.xml_trees.specs.PieceText.{hidden_after};

use xml_trees::Piece;

/// How many unfinished elements there are from the outermost void one on, behind a piece before which
/// there are `hidden`. Within them nothing is written.
pub fn hidden_behind(hidden: usize, piece: &Piece) -> usize
    requires { hidden < 2 ^ 63 }
    ensures exact { result ≡ hidden_after hidden piece.now }
    ensures most { result ≤ hidden + 1 }
{
    match piece {
        Piece::Begin(_, _) if hidden > 0 => hidden + 1,
        Piece::Begin(tag, _) => tag.name().is_void() as usize,
        Piece::Words(_) => hidden,
        Piece::End(_) => hidden.saturating_sub(1),
    }
}
