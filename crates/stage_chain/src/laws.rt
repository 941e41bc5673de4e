//! What a chain's run is. The function does nothing: it is its contract.

ghost use Rattle.stage_chain.specs.Chain.{ChainIsWritten};

/// The documents of a list, pushed one after another through a chain that is then finished, give the list that the
/// written stages give one after another, or exactly their failure.
pub fn chain_is_written()
    ensures { ChainIsWritten }
{}
