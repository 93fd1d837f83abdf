ghost use Rattle.pr_grammar.specs.Masks.{ListsAreSpelled};
ghost use Rattle.pr_grammar.specs.InReplies.{read_keys, read_reservation, read_capabilities, read_full};
ghost use Rattle.pr_grammar.specs.ReplyMasks.{IsSpelled, keys_mask, spelled_keys, reservation_mask, spelled_reservation, capabilities_mask, spelled_capabilities, full_mask, spelled_full};

/// A law, proved by its contract: the bits and bytes that no field of a parameter list has are ignored, and all others
/// are read.
#[tactic(auto, using(crate::proofs::Ignored::lists_spelled))]
pub fn lists_are_spelled()
    ensures { ListsAreSpelled }
{}

/// Laws, proved by this contract: the bits and bytes that no field of a reply has are ignored, and all others are read.
#[tactic(auto, using(crate::proofs::IgnoredReplies::keys_spelled, crate::proofs::IgnoredReplies::reservation_spelled, crate::proofs::IgnoredReplies::capabilities_spelled, crate::proofs::IgnoredEntries::full_spelled))]
pub fn replies_are_spelled()
    ensures keys { IsSpelled read_keys keys_mask spelled_keys }
    ensures reservation { IsSpelled read_reservation reservation_mask spelled_reservation }
    ensures capabilities { IsSpelled read_capabilities capabilities_mask spelled_capabilities }
    ensures full { IsSpelled read_full full_mask spelled_full }
{}
