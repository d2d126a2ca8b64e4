//! Laws of project files. Each function does nothing: its clause is the law.
ghost use Rattle.project_files.specs.Projects.{ProjectsHaveOneAnswer, RefusalsHaveOneLine};

/// Bytes say one project at most, and aren't refused where they say one.
pub fn projects_have_one_answer()
    ensures { ProjectsHaveOneAnswer }
{}

/// Bytes are refused at one line at most.
pub fn refusals_have_one_line()
    ensures { RefusalsHaveOneLine }
{}
