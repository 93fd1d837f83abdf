ghost use Rattle.pr_grammar.specs.Masks.{CdbsAreSpelled};

/// A law, proved by its contract: the bits and bytes that no field of a command has are ignored, and all others are read.
#[tactic(auto, using(crate::proofs::Ignored::cdbs_are_spelled))]
pub fn read_is_spelled()
    ensures { CdbsAreSpelled }
{}
