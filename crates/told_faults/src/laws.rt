//! The laws of told faults.
ghost use Rattle.told_faults.specs.Laws.{ComparisonTells, HeadsAre, KindingTells, Settles, SilentIsFound, SoonerIsEarlier, TwoFaults, TwoSets, TypesTell};

/// The computed order is that of places.
pub fn the_computed_order_is_that_of_places()
    ensures { SoonerIsEarlier }
{}

/// A node tells what its parts tell, unless one of its own faults stands strictly before.
pub fn a_node_tells_the_first()
    ensures { Settles }
{}

/// Of the nodes of two lists the earlier fault counts.
pub fn of_two_sets_of_nodes_the_earlier_counts()
    ensures { TwoSets }
{}

/// Of the faults of two lists the earlier counts.
pub fn of_two_sets_of_faults_the_earlier_counts()
    ensures { TwoFaults }
{}

/// A comparison of types tells its fault, and none where they agree.
pub fn a_comparison_tells_its_fault()
    ensures { ComparisonTells }
{}

/// A kinding tells its first flaw, and none where the constructor has the kind.
pub fn a_kinding_tells_its_fault()
    ensures { KindingTells }
{}

/// What is wanted of a term's type is told where the type is found.
pub fn what_is_told_of_a_type()
    ensures { TypesTell }
{}

/// The head of a normal form is what is read of it.
pub fn heads_are_read()
    ensures { HeadsAre }
{}

/// Where cover and links are decided, a term of which nothing is told is found with cover.
pub fn silent_terms_are_found()
    ensures { SilentIsFound }
{}
