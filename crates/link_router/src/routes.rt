//! The entries of a site.
use table_rows::{Arguments, Datatypes, Shape, Texts};

/// A function that a request can call.
#[derive(Drop)]
pub struct Entry {
    /// Its name, piece by piece: the module, and last the function.
    pub name: Texts,
    /// The shapes of its arguments, but for an action's form.
    pub arguments: Arguments,
    /// The shape of an action's form. An entry with a form is read by POST, another one by GET.
    pub form: Option<Shape>,
}

/// The entries of a site, with the datatypes that their arguments name.
#[derive(Drop)]
pub struct Routes {
    pub datatypes: Datatypes,
    pub entries: Vec<Entry>,
}
