//! A target that threads share by turns.

use crate::entry::Entry;
use crate::ground::Ground;
use crate::target::Core;
use pr_gate::Stands;
use pr_io::{Disk, Medium};

impl<M: Medium, D: Disk> Stands for Core<M, D> {
    ghost use Rattle.pr_core.specs.Shared.{Stands, ground_in};

    type Entry = Entry;

    type Ground = Ground;

    ghost number = { λ e. e.who };

    ghost ground = { λ c. ground_in c };

    ghost stands = { λ c h. Stands c h };
}
