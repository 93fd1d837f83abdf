ghost use Rattle.pr_grammar.specs.Masks.{FixedIsSpelled, DescriptorIsSpelled};

/// A law, proved by its contract: the bits and bytes of sense data that no field has are ignored, and all others that
/// are needed are read.
#[tactic(auto, using(crate::proofs::Ignored::fixed_spelled, crate::proofs::Ignored::descriptor_spelled))]
pub fn read_is_spelled()
    ensures fixed { FixedIsSpelled }
    ensures descriptor { DescriptorIsSpelled }
{}
