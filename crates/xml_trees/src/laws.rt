//! What holds of every page. Each function is a law: its contract says it, and it does nothing.
ghost use Rattle.xml_trees.specs.Example.{ExampleIsShown};
ghost use Rattle.xml_trees.specs.Grammar.{PagesAreUnique, TextsAreUnique, WrittenIsNormal};
ghost use Rattle.xml_trees.specs.PieceText.{PiecesArePages};

/// A text reads as one page alone, attributes included.
pub fn pages_are_unique()
    ensures { PagesAreUnique }
{}

/// A page has one text alone.
pub fn texts_are_unique()
    ensures { TextsAreUnique }
{}

/// Writing leaves no empty text, no two neighbouring texts, and nothing in a void tag.
pub fn written_is_normal()
    ensures { WrittenIsNormal }
{}

/// A page's pieces, written one after another, are its text.
pub fn pieces_are_pages()
    ensures { PiecesArePages }
{}

/// One page and its text, which has each escape.
pub fn example_is_shown()
    ensures { ExampleIsShown }
{}
