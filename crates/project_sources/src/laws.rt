//! Laws of what folders hold, and of the texts of modules. Each function does nothing: its clause is the law.
ghost use Rattle.project_sources.specs.Projects.{FoldersHaveOneAnswer, RefusalsHaveOneCause};
ghost use Rattle.project_sources.specs.Texts.{ModulesHaveOneAnswer};

use grammar_engine::{one_refusal, one_whole_tree, trees_are_not_refused};
use project_files::{projects_have_one_answer, refusals_have_one_line};
use ur_lexer::texts_have_one_reading;

/// A folder holds one project at most, and isn't refused where it holds one.
pub fn folders_have_one_answer()
    ensures { FoldersHaveOneAnswer }
{
    texts_have_one_reading();
    one_whole_tree();
    one_refusal();
    trees_are_not_refused();
    projects_have_one_answer();
}

/// A folder is refused for one reason at most.
pub fn refusals_have_one_cause()
    ensures { RefusalsHaveOneCause }
{
    texts_have_one_reading();
    one_whole_tree();
    one_refusal();
    trees_are_not_refused();
    projects_have_one_answer();
    refusals_have_one_line();
}

/// The text of a module has one tree, or is refused for one reason.
pub fn modules_have_one_answer()
    ensures { ModulesHaveOneAnswer }
{
    texts_have_one_reading();
    one_whole_tree();
    one_refusal();
    trees_are_not_refused();
}
