ghost use Rattle.std.specs.Prelude.{◌≡◌, ℕ, ◌≤◌, List, length};
ghost use Rattle.pr_words.specs.declared.limits.TheConstants.{FRAME_LENGTH, HELD};
ghost use Rattle.pr_grammar.specs.Frames.{front, checked};

use crate::Frame;
use crate::bodies::{is_received, is_well_formed};
use pr_words::{FRAME_LENGTH, Side, get_u16, get_u32};

/// What stands at the front of bytes that are looked at in place.
#[derive(Clone, Copy, Debug, PartialEq, Eq)]
pub enum Front {
    /// So many bytes lack until more can be said.
    Need(usize),
    /// It breaks the rule of this number, as in `Got::Bad`.
    Bad(u8),
    /// A frame, whose body stands behind the first 12 bytes.
    Whole(Frame),
}

impl Front {
    ghost use Rattle.pr_link.specs.Fronts.{IsFront, IsChecked};

    /// What stands at the front of the bytes that one side has received. Nothing is moved; what is
    /// behind a frame isn't looked at.
    #[tactic(auto, unfolding(pr_grammar::specs::Frames::front))]
    #[inline(always)]
    pub fn of(side: Side, bytes: &[u8]) -> Front
        ensures { IsFront side (front side bytes.now) result bytes.now }
    {
        if bytes.len() < 4 {
            return Front::Need(4 - bytes.len());
        }
        let len = get_u32(bytes, 0) as usize;
        if len < 8 || len > FRAME_LENGTH {
            return Front::Bad(1);
        }
        if bytes.len() < 4 + len {
            return Front::Need(4 + len - bytes.len());
        }
        Front::check(side, &bytes[4..4 + len])
    }

    /// What a whole frame without its length is.
    #[inline(always)]
    fn check(side: Side, content: &[u8]) -> Front
        requires least { 8 ≤ length content.now }
        requires most { length content.now ≤ FRAME_LENGTH }
        ensures { (rest : List ℕ) →
            IsChecked side (checked side content.now rest) result content.now rest }
    {
        let kind = content[0];
        if !is_received(side, kind) {
            return Front::Bad(2);
        }
        if content[1] != 0 {
            return Front::Bad(3);
        }
        if !is_well_formed(side, kind, &content[8..]) {
            return Front::Bad(4);
        }
        Front::Whole(Frame {
            kind,
            lun: get_u16(content, 2),
            tag: get_u32(content, 4),
            body: content.len() - 8,
        })
    }
}
