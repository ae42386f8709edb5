// The law of the answers. The function does nothing: its contract is a law, so that a check proves
// it.
ghost use Rattle.pure_payoffs.specs.Stops.{ValuesAreSingle};

/// A choice at each set has values at nodes, or one first step that does not fit, and never both.
pub fn values_are_single()
    ensures { ValuesAreSingle }
{}
