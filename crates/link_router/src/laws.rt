//! Laws of links and forms: which calls a path is, which form a body is, and links and forms worked by hand.
ghost use Rattle.link_router.specs.Forms.{EachBodyIsForm, OneFormAtMost};
ghost use Rattle.link_router.specs.RouteLaws.{CallsAreNotRefused, EachTargetIsRead, OneCallAtMost};
ghost use Rattle.link_router.specs.RouteLaws.{OneRefusalAtMost, RoutesAreRead};
ghost use Rattle.link_router.specs.Worked.{WorkedForms, WorkedLinks, WorkedPaths};

/// The links of the texts nothing, `.`, `a/b` and `é`, of a negative number, and of a list.
pub fn links_are_as_worked()
    ensures { WorkedLinks }
{}

/// A path in lower-case hexadecimal digits, and one behind an authority, have the pieces of the link.
pub fn paths_are_as_worked()
    ensures { WorkedPaths }
{}

/// A path is a link of just the calls that its pieces are read as, from left to right.
pub fn routes_are_read()
    ensures { RoutesAreRead }
{}

/// At most one call has a path.
pub fn one_call_at_most()
    ensures { OneCallAtMost }
{}

/// A target that is a call isn't refused, and another is refused for one reason at most.
pub fn one_reading_at_most()
    ensures not_both { CallsAreNotRefused }
    ensures one_refusal { OneRefusalAtMost }
{}

/// A target is a call, or it is refused: one at least, and by the laws above one at most.
pub fn one_reading_at_least()
    ensures { EachTargetIsRead }
{}

/// Bodies of forms: a first pair that counts, an empty value, a checkbox, a lacking field, a spoilt one.
pub fn forms_are_as_worked()
    ensures { WorkedForms }
{}

/// A body is one form at most, and of a form's shape it is one.
pub fn a_body_is_one_form()
    ensures at_most { OneFormAtMost }
    ensures at_least { EachBodyIsForm }
{}
