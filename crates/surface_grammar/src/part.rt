//! What the line of a rule is made of.
use crate::Form;
use surface_tree::Kind;

/// A part of a rule.
#[derive(Clone, Copy)]
pub enum Part {
    /// One token of this kind.
    Word(Kind),
    /// One tree of this form.
    One(Form),
    /// Any number of trees of this form: `{x}`.
    Many(Form),
    /// A tree of this form, or nothing: `[x]`.
    Maybe(Form),
}
