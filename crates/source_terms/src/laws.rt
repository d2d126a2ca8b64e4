//! Laws of programs and their sources.
ghost use Rattle.source_terms.specs.SourceLaw.{SourceIsRead};

/// A program that is found to be what its source says is that, part by part, and the other way round.
pub fn sources_are_read()
    ensures { SourceIsRead }
{}
