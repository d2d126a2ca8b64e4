//! Modules and interfaces, by the whole grammar.
ghost use Rattle.std.specs.Prelude.{◌<◌, ◌^◌, length, IfErr, IfOk, IsOkUnless};
ghost use Rattle.grammar_engine.specs.Single.{OnlyTree};
ghost use Rattle.surface_grammar.specs.Refusals.{deepest, WholeTree};
ghost use Rattle.ur_parser.specs.Sources.{IsInterfaceText, IsModuleText, IsNoInterface, IsNoModule, interface_part, module_part};

use grammar_engine::read_whole;
use std::alloc::Global;
use surface_grammar::{Form, ParseFault, Part, Tree};
use surface_tree::Tokens;

/// The tree of a module: any number of declarations (The Ur/Web Manual, Concrete Syntax), at most
/// 200 levels deep. A fault tells the byte of the first token that no tree allows after those
/// before it, or the text's length where more tokens had to follow.
pub fn parse(alloc: Global, tokens: &Tokens) -> Result<Tree, ParseFault>
    requires { length tokens.now.items < 2 ^ 32 }
    // The tree is that of a module, and spells exactly the tokens.
    ensures spells { IfOk result (WholeTree deepest module_part tokens.now.items) }
    // No other tree does, however deep.
    ensures only { IfOk result (OnlyTree module_part tokens.now.items) }
    // The refused token is the first that no module allows; at TooDeep a deeper one does.
    ensures refused { IfErr result (IsNoModule tokens.now) }
    // A module is refused only for want of memory.
    ensures complete { IsModuleText tokens.now.items → IsOkUnless result ParseFault.Memory }
{
    read_whole(alloc, tokens, Part::Many(Form::Decl))
}

/// The tree of an interface: any number of `val NAME : TYPE`, at most 200 levels deep. Faults are
/// as those of `parse`.
pub fn parse_interface(alloc: Global, tokens: &Tokens) -> Result<Tree, ParseFault>
    requires { length tokens.now.items < 2 ^ 32 }
    // The tree is that of an interface, and spells exactly the tokens.
    ensures spells { IfOk result (WholeTree deepest interface_part tokens.now.items) }
    // No other tree does, however deep.
    ensures only { IfOk result (OnlyTree interface_part tokens.now.items) }
    // The refused token is the first that no interface allows; at TooDeep a deeper one does.
    ensures refused { IfErr result (IsNoInterface tokens.now) }
    // An interface is refused only for want of memory.
    ensures complete { IsInterfaceText tokens.now.items → IsOkUnless result ParseFault.Memory }
{
    read_whole(alloc, tokens, Part::Many(Form::InterfaceItem))
}
