//! The unit attentions of one nexus: all four never wait at once, since a removed nexus is told
//! nothing more before it has cleared its list and registered again. So four are tried on the type.

use pr_rules::Attentions;
use pr_words::Code;
use std::test::*;

/// POWER ON, RESET, OR BUS DEVICE RESET OCCURRED (SPC-4).
const POWERED_ON: Code = Code {
    key: 6,
    asc: 0x29,
    ascq: 0,
};

/// RESERVATIONS PREEMPTED (SPC-4).
const CLEARED: Code = Code {
    key: 6,
    asc: 0x2A,
    ascq: 3,
};

/// RESERVATIONS RELEASED (SPC-4).
const RELEASED: Code = Code {
    key: 6,
    asc: 0x2A,
    ascq: 4,
};

/// REGISTRATIONS PREEMPTED (SPC-4).
const PREEMPTED: Code = Code {
    key: 6,
    asc: 0x2A,
    ascq: 5,
};

#[test]
fn all_four_are_handed_out_in_their_order(rt: HostRuntime) {
    let mut waiting = Attentions::fresh();
    waiting.raise(RELEASED);
    waiting.raise(CLEARED);
    waiting.raise(RELEASED);
    waiting.raise(PREEMPTED);
    waiting.raise(CLEARED);
    for wanted in [POWERED_ON, RELEASED, CLEARED, PREEMPTED] {
        assert_eq!(rt; waiting.first(), Some(wanted));
        assert_eq!(rt; waiting.take(), Some(wanted));
    }
    assert_eq!(rt; waiting.take(), None);
}
