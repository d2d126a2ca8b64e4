//! Where tags stand, what they hold, and the types of their attributes.
ghost use Rattle.std.specs.Prelude.{◌≡◌, [], ◌∷◌, if◌then◌else◌, option_map, Some, IfOk};
ghost use Rattle.con_terms.specs.Trees as tree;
ghost use Rattle.con_terms.specs.Trees.{Cn};
ghost use Rattle.con_terms.specs.View.{con_tree};
ghost use Rattle.xml_trees.specs.declared.source_name.AttrName.TheVariants as attr;
ghost use Rattle.core_terms.specs.Markup as meant;
ghost use Rattle.core_terms.specs.Names.{form_context};
ghost use Rattle.core_terms.specs.Types as types;
ghost use Rattle.type_makers.specs.Made.{Makes};
ghost use Rattle.type_makers.specs.Standing.{where_of, sort_view};

use crate::made::{arrow, record};
use crate::made_types::transaction;
use crate::symbols;
use crate::types::{int_type, one_unit, page_type, string_type, two_units, url_type};
use con_terms::{Con, Sym};
use core_terms::{AttrName, TagName};
use std::alloc::{AllocError, Global};

/// Where a node of a page stands.
#[derive(Clone, Copy, Debug, PartialEq, Eq)]
pub enum Standing {
    Html,
    Head,
    Body,
    Table,
    Tr,
}

/// What a tag is, by what it holds.
#[derive(Clone, Copy, Debug, PartialEq, Eq)]
pub enum TagSort {
    /// Nodes of a place, with a form around them exactly where one is around the tag.
    Holding(Standing),
    /// Texts alone.
    Words,
    /// Nothing.
    Empty,
    /// A form, which stands and holds in a body.
    Form,
    /// An input of a form whose field is a string.
    TextInput,
    /// An input of a form whose field is a bool.
    TruthInput,
    /// The button that sends a form.
    Button,
}

/// Where a tag stands. Forms, inputs and buttons stand in a body.
pub fn stands(tag: TagName) -> Standing
    ensures { where_of result ≡ meant.stands tag }
{
    match tag {
        TagName::Head | TagName::Body => Standing::Html,
        TagName::Title => Standing::Head,
        TagName::Tr => Standing::Table,
        TagName::Th | TagName::Td => Standing::Tr,
        _ => Standing::Body,
    }
}

/// What a tag holds.
pub fn sort_of(tag: TagName) -> TagSort
    ensures { sort_view result ≡ meant.sort_of tag }
{
    match tag {
        TagName::Head => TagSort::Holding(Standing::Head),
        TagName::Title => TagSort::Words,
        TagName::Br | TagName::Hr | TagName::Img => TagSort::Empty,
        TagName::Table => TagSort::Holding(Standing::Table),
        TagName::Tr => TagSort::Holding(Standing::Tr),
        TagName::Form => TagSort::Form,
        TagName::Textbox | TagName::Password | TagName::Hidden => TagSort::TextInput,
        TagName::Checkbox => TagSort::TruthInput,
        TagName::Submit => TagSort::Button,
        _ => TagSort::Holding(Standing::Body),
    }
}

/// The context of a place, with a form around it or without. Html and head never have one.
pub fn context_row(alloc: Global, standing: Standing, in_form: bool) -> Result<Con, AllocError>
    ensures { IfOk result (λ new. con_tree new ≡ meant.context_row (where_of standing) in_form) }
{
    match standing {
        Standing::Html => one_unit(alloc, symbols::HTML),
        Standing::Head => one_unit(alloc, symbols::HEAD),
        Standing::Body => place_row(alloc, symbols::BODY, in_form),
        Standing::Table => place_row(alloc, symbols::TABLE, in_form),
        Standing::Tr => place_row(alloc, symbols::TR, in_form),
    }
}

/// The context of a place in which a form may be around.
fn place_row(alloc: Global, place: Sym, in_form: bool) -> Result<Con, AllocError>
    ensures { IfOk result (λ new. con_tree new ≡
        if in_form then types.unit_row (place.number ∷ form_context ∷ []) else types.unit_row (place.number ∷ [])) }
{
    if in_form {
        two_units(alloc, place, symbols::FORM)
    } else {
        one_unit(alloc, place)
    }
}

/// The type of an attribute of a tag, where the tag has it. A button's action takes the fields
/// `uses` that are filled before it.
pub fn attribute_type(
    alloc: Global,
    uses: Con,
    tag: TagName,
    attr: AttrName,
) -> Result<Option<Con>, AllocError>
    ensures { IfOk result (λ new. option_map con_tree new ≡ meant.attribute_type (con_tree uses) tag attr) }
{
    match attr {
        AttrName::Title => without(uses, Ok(title_type(tag))),
        AttrName::Link => without(uses, link_type(alloc, tag)),
        AttrName::Href => without(uses, Ok(href_type(tag))),
        AttrName::Src => without(uses, Ok(source_type(tag))),
        AttrName::Alt => without(uses, Ok(alternative_type(tag))),
        AttrName::Border => without(uses, Ok(border_type(tag))),
        AttrName::Value => without(uses, Ok(value_type(tag))),
        AttrName::Size => without(uses, Ok(size_type(tag))),
        AttrName::Action => action_type(alloc, uses, tag),
    }
}

/// What was given, with the fields let go.
fn without(_uses: Con, given: Result<Option<Con>, AllocError>) -> Result<Option<Con>, AllocError>
    ensures { result ≡ given }
{
    given
}

/// The type of `title`, of tags of text.
fn title_type(tag: TagName) -> Option<Con>
    ensures { (uses : Cn) → option_map con_tree result ≡ meant.attribute_type uses tag attr.Title }
{
    match tag {
        TagName::P
        | TagName::Div
        | TagName::Span
        | TagName::B
        | TagName::I
        | TagName::Em
        | TagName::Strong
        | TagName::H1
        | TagName::H2
        | TagName::H3
        | TagName::H4
        | TagName::Ul
        | TagName::Ol
        | TagName::Li
        | TagName::Code
        | TagName::Blockquote
        | TagName::Th
        | TagName::Td
        | TagName::A => Some(string_type()),
        _ => None,
    }
}

/// The type of `href`, of `a`.
fn href_type(tag: TagName) -> Option<Con>
    ensures { (uses : Cn) → option_map con_tree result ≡ meant.attribute_type uses tag attr.Href }
{
    match tag {
        TagName::A => Some(url_type()),
        _ => None,
    }
}

/// The type of `src`, of `img`.
fn source_type(tag: TagName) -> Option<Con>
    ensures { (uses : Cn) → option_map con_tree result ≡ meant.attribute_type uses tag attr.Src }
{
    match tag {
        TagName::Img => Some(url_type()),
        _ => None,
    }
}

/// The type of `alt`, of `img`.
fn alternative_type(tag: TagName) -> Option<Con>
    ensures { (uses : Cn) → option_map con_tree result ≡ meant.attribute_type uses tag attr.Alt }
{
    match tag {
        TagName::Img => Some(string_type()),
        _ => None,
    }
}

/// The type of `border`, of `table`.
fn border_type(tag: TagName) -> Option<Con>
    ensures { (uses : Cn) → option_map con_tree result ≡ meant.attribute_type uses tag attr.Border }
{
    match tag {
        TagName::Table => Some(int_type()),
        _ => None,
    }
}

/// The type of `value`, of inputs of text and of the button.
fn value_type(tag: TagName) -> Option<Con>
    ensures { (uses : Cn) → option_map con_tree result ≡ meant.attribute_type uses tag attr.Value }
{
    match tag {
        TagName::Textbox | TagName::Password | TagName::Hidden | TagName::Submit => Some(
            string_type(),
        ),
        _ => None,
    }
}

/// The type of `size`, of the input of a line of text.
fn size_type(tag: TagName) -> Option<Con>
    ensures { (uses : Cn) → option_map con_tree result ≡ meant.attribute_type uses tag attr.Size }
{
    match tag {
        TagName::Textbox => Some(int_type()),
        _ => None,
    }
}

/// The type of `link`, of `a`.
fn link_type(alloc: Global, tag: TagName) -> Result<Option<Con>, AllocError>
    ensures { (uses : Cn) → IfOk result (λ new. option_map con_tree new ≡ meant.attribute_type uses tag attr.Link) }
{
    match tag {
        TagName::A => Ok(Some(page_action(alloc)?)),
        _ => Ok(None),
    }
}

/// The type of `action`, of the button.
fn action_type(alloc: Global, uses: Con, tag: TagName) -> Result<Option<Con>, AllocError>
    ensures { IfOk result (λ new. option_map con_tree new ≡ meant.attribute_type (con_tree uses) tag attr.Action) }
{
    match tag {
        TagName::Submit => made_action(action_of(alloc, uses)),
        _ => without(uses, Ok(None)),
    }
}

/// The type that was made, as one that a tag has.
fn made_action(made: Result<Con, AllocError>) -> Result<Option<Con>, AllocError>
    ensures { (t : Cn) → Makes made t → IfOk result (λ new. option_map con_tree new ≡ Some t) }
{
    match made {
        Ok(made) => Ok(Some(made)),
        Err(error) => Err(error),
    }
}

/// `$uses -> transaction page`
fn action_of(alloc: Global, uses: Con) -> Result<Con, AllocError>
    ensures { Makes result (tree.arrow (tree.record_of (con_tree uses)) (types.transaction_of types.page_type)) }
{
    arrow(alloc, record(alloc, Ok(uses)), page_action(alloc))
}

/// `transaction page`
fn page_action(alloc: Global) -> Result<Con, AllocError>
    ensures { IfOk result (λ new. con_tree new ≡ types.transaction_of types.page_type) }
{
    transaction(alloc, page_type(alloc))
}
