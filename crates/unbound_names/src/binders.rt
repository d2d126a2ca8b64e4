//! Names that binders give.
ghost use Rattle.std.specs.Prelude.{◌≡◌};
ghost use Rattle.source_names.specs.Standing as standing;
ghost use Rattle.source_names.specs.View.{names_view};
ghost use Rattle.unbound_names.specs.InScope.{is_name_of, is_some};

use crate::asked::same_text;
use plain_tree::Path;
use source_names::Names;
use table_rows::Text;

/// Whether a name is one of these.
#[cycle(is_binder_of)]
fn is_binder_of(name: &Text, names: &Names) -> bool
    ensures { result ≡ is_name_of name.now (names_view names.now) }
{
    match names {
        Names::Nothing => false,
        Names::Under(called, rest) => {
            if same_text(called, name) {
                return true;
            }
            is_binder_of(name, rest)
        }
    }
}

/// Whether one of these binders has a name.
fn is_bound(name: &Text, names: &Names) -> bool
    ensures { result ≡ is_some (standing.binder_of name.now (names_view names.now)) }
{
    is_binder_of(name, names)
}

/// Whether a path names one of these.
pub fn is_binder(path: &Path, names: &Names) -> bool
    ensures { result ≡ is_some
        (standing.binder_at path.now.modules path.now.name (names_view names.now)) }
{
    match path.modules.items.as_slice() {
        [] => is_bound(&path.name, names),
        _ => false,
    }
}
