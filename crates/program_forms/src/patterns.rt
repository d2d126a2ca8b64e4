//! The names and literals of patterns.
ghost use Rattle.std.specs.Prelude.{IsTrue};
ghost use Rattle.core_terms.specs.Leaves.{NamesThere, PatternFieldsFit, PatternFits, PatternFormFits};
ghost use Rattle.core_terms.specs.Lists.{pat_field_tree};
ghost use Rattle.core_terms.specs.View.{pat_fields_tree, pat_form_tree, pat_tree};

use crate::constructors::names_there;
use crate::literals::{number_fits, text_fits};
use core_terms::{Pat, PatField, PatFields, PatForm};

/// Whether each name in a pattern is one of so many symbols.
#[cycle(pattern_fits)]
pub fn pattern_fits(count: usize, p: &Pat) -> bool
    ensures { IsTrue result → PatternFits count (pat_tree p.now) }
{
    pattern_form_fits(count, &p.form)
}

/// Whether so is each in what a pattern is.
#[cycle(pattern_fits)]
fn pattern_form_fits(count: usize, f: &PatForm) -> bool
    ensures { IsTrue result → PatternFormFits count (pat_form_tree f.now) }
{
    match f {
        PatForm::Any => true,
        PatForm::Int(z) => number_fits(z),
        PatForm::Words(t) => text_fits(t),
        PatForm::Bind(x, t) => (x.number as usize) < count && names_there(count, t),
        PatForm::Build(_, _, None) => true,
        PatForm::Build(_, _, Some(q)) => pattern_fits(count, q),
        PatForm::Rec(fs, _) => pattern_fields_fit(count, fs),
        PatForm::Typed(q, t) => pattern_fits(count, q) && names_there(count, t),
    }
}

/// Whether so is each in the fields of a pattern.
#[cycle(pattern_fits)]
fn pattern_fields_fit(count: usize, fs: &PatFields) -> bool
    ensures { IsTrue result → PatternFieldsFit count (pat_fields_tree fs.now) }
{
    for i in 0..fs.items.len() {
        if !pattern_field_fits(count, &fs.items[i]) {
            return false;
        }
    }
    true
}

/// Whether so is each in a field of a pattern.
#[cycle(pattern_fits)]
fn pattern_field_fits(count: usize, f: &PatField) -> bool
    ensures { IsTrue result
        → NamesThere count (pat_field_tree f.now).1 × PatternFits count (pat_field_tree f.now).2 }
{
    names_there(count, &f.name) && pattern_fits(count, &f.pat)
}
