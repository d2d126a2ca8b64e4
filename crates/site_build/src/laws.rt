//! Laws of why projects aren't built. Each function does nothing: its clause is the law.
ghost use Rattle.site_build.specs.Laws.{ProjectsHaveOneCause, TextsHaveOneCause};

use project_sources::{folders_have_one_answer, modules_have_one_answer, refusals_have_one_cause};

/// A module alone isn't built for one cause at most. So each line of such a refusal comes exactly by its cause, but for
/// what inference or the checker refuse.
pub fn texts_have_one_cause()
    ensures { TextsHaveOneCause }
{
    modules_have_one_answer();
}

/// A project isn't built for one cause at most. So each line of such a refusal, too many tables' among them, comes
/// exactly by its cause, but for what inference or the checker refuse.
pub fn projects_have_one_cause()
    ensures { ProjectsHaveOneCause }
{
    folders_have_one_answer();
    refusals_have_one_cause();
}
