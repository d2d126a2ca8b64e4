//! The name that is asked of.
ghost use Rattle.std.specs.Prelude.{◌≡◌, IfOk};
ghost use Rattle.std.specs.Str.{bytes_eq};
ghost use Rattle.unbound_names.specs.Asked.{is_asked, is_path_asked, path_words};
ghost use Rattle.unbound_names.specs.View.{ask_view};

use plain_tree::Path;
use std::alloc::{AllocError, Global};
use table_rows::Text;

/// A name as it is written, and the byte at which it stands. Contracts see it as `ask_view`.
#[derive(Clone, Copy, Drop)]
pub struct Asked<'a> {
    pub alloc: Global,
    pub at: u32,
    pub written: &'a Text,
}

/// Whether two texts are one.
pub fn same_text(a: &Text, b: &Text) -> bool
    ensures { result ≡ bytes_eq a.now b.now }
{
    a.as_str() == b.as_str()
}

/// Whether a name at a byte is the one that is asked of.
pub fn is_word(q: &Asked<'_>, at: u32, name: &Text) -> bool
    ensures { result ≡ is_asked (ask_view q.now) at name.now }
{
    at == q.at && same_text(name, q.written)
}

/// A name with the modules before it, as it is written.
fn path_text(alloc: Global, path: &Path) -> Result<Text, AllocError>
    ensures { IfOk result (λ r. r ≡ path_words path.now.modules path.now.name) }
{
    let mut text = Text::new(alloc);
    for i in 0..path.modules.items.len() {
        text.push_str(path.modules.items[i].as_str())?;
        text.push_str(".")?;
    }
    text.push_str(path.name.as_str())?;
    Ok(text)
}

/// Whether a name at a byte, with the modules before it, is the one that is asked of.
pub fn is_path(q: &Asked<'_>, at: u32, path: &Path) -> Result<bool, AllocError>
    ensures { IfOk result (λ b. b ≡ is_path_asked (ask_view q.now) at path.now) }
{
    if at != q.at {
        return Ok(false);
    }
    let text = path_text(q.alloc, path)?;
    Ok(is_word(q, at, &text))
}
