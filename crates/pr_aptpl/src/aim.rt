ghost use Rattle.std.specs.Prelude.{◌≡◌, ◌<◌, not, is_some, Some};
ghost use Rattle.pr_grammar.specs.Files.{place_of};
ghost use Rattle.pr_aptpl.specs.Slots.{turn_after};

use pr_grammar::FileLayout;

/// What the next save does.
#[derive(Clone, Copy, Debug, PartialEq, Eq)]
pub(crate) struct Aim {
    /// Whether the slot that it writes is the second one.
    pub(crate) target: bool,
    /// The turn of the other slot, where that is current.
    pub(crate) turn: Option<u8>,
    /// Whether the gate of the slot that it writes may be open on the disk.
    pub(crate) may_be_open: bool,
}

impl Aim {
    /// Where the gate of the slot that is written next stands.
    pub(crate) fn gate(&self, layout: &FileLayout) -> u64
        ensures { result ≡ place_of layout.now self.now.target }
    {
        if self.target {
            layout.slot1
        } else {
            layout.slot0
        }
    }

    /// The turn that the next slot gets.
    pub(crate) fn next_turn(&self) -> u8
        ensures turn { result ≡ turn_after self.now.turn }
        ensures small { result < 3 }
    {
        match self.turn {
            None => 0,
            Some(0) => 1,
            Some(1) => 2,
            Some(_) => 0,
        }
    }

    /// What comes next once a slot with this turn has become current: the other one's turn to be
    /// written, whose gate is open where it was current.
    pub(crate) fn after(&self, turn: u8) -> Aim
        ensures { result ≡ record {
          target = not self.now.target;
          turn = Some turn;
          may_be_open = is_some self.now.turn;
        } }
    {
        Aim {
            target: !self.target,
            turn: Some(turn),
            may_be_open: self.turn.is_some(),
        }
    }
}
