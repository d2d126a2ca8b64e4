//! The law of what accepted programs insert. The function does nothing: its clause is the law.
ghost use Rattle.inserted_terms.specs.Gapless.{AcceptedProgramsHaveNoGaps};

/// An accepted program has no gap: what its calls insert is what the rules choose.
#[tactic(auto, using(crate::proofs::Gapless::accepted_gapless))]
pub fn accepted_programs_have_no_gaps()
    ensures { AcceptedProgramsHaveNoGaps }
{}
