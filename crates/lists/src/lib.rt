// Lists of calls of both ends, computed: what the ends' definitions make of them. They show that demand 3 speaks of
// something; each takes a while to compute, so they stand apart from the ends.
#![tactic(auto)]

ghost use Rattle.lists.specs.Examples.{Examples};
ghost use Rattle.lists.specs.Rewinds.{Rewinds};

// Three lists of calls, and three calls on a chain, as a promise.
pub fn keeps_examples()
    ensures { Examples }
{}

// A line test with a return, as a promise.
pub fn keeps_rewinds()
    ensures { Rewinds }
{}
