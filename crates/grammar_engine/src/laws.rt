//! What holds of every tree, stated by functions that do nothing.
ghost use Rattle.std.specs.Prelude.{◌≡◌, true};
ghost use Rattle.surface_tree.specs.declared.kind.Kind.{Kind};
ghost use Rattle.surface_grammar.specs.declared.form.Form.{Form};
ghost use Rattle.grammar_engine.specs.Choices.{OneTree};
ghost use Rattle.grammar_engine.specs.Exact.{OneRefusal, TreesAreNotRefused};
ghost use Rattle.grammar_engine.specs.Laws.{one_token_decides};
ghost use Rattle.grammar_engine.specs.Reads.{ReadWithMore};
ghost use Rattle.grammar_engine.specs.Single.{OneWholeTree};

/// The table is one in which a token decides: it begins a form exactly where it begins a rule of
/// it, and but in two forms it begins one rule alone.
pub fn one_token_decides()
    ensures { (g : Form) (x : Kind) → one_token_decides g x ≡ true }
{}

/// Two trees for one part at the front of one list of tokens, which choose alike where one token
/// does not decide, are one tree, and leave the same tokens.
pub fn one_tree()
    ensures { OneTree }
{}

/// Two trees of a whole text that spell the same tokens are one tree.
pub fn one_whole_tree()
    ensures { OneWholeTree }
{}

/// A text is refused at one byte, and for want of depth or not: no two refusals are right.
pub fn one_refusal()
    ensures { OneRefusal }
{}

/// A text with a tree has no refusal.
pub fn trees_are_not_refused()
    ensures { TreesAreNotRefused }
{}

/// A tree that is read with little room is the longest with more: so a reader that leaves parts
/// with all the room that can be counted takes what was read within 200 levels.
pub fn little_room_is_enough()
    ensures { ReadWithMore }
{}
