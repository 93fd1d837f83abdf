//! Turns over one value that threads share, in one order.
//!
//! A [`Gate`] owns the value. A thread takes a turn by `enter`, changes the value through its
//! [`Turn`], and gives it back by `leave` together with one entry that says what it did. All entries
//! of all threads stand in one list, the history, and the value always stands for it. What
//! "standing for" means, and what an entry is, the value's type says by [`Stands`].
//!
//! A thread needs a [`Pass`] for its turns. The pass knows a beginning of the history, which it has
//! *seen*, and which entries of it are its *own*. A [`Note`] carries what one pass has seen to
//! another. The lists exist in proofs alone: at run time a pass is three numbers, and a turn costs
//! a few atomic steps and no memory, however long the history is.
//!
//! No contract says that a thread gets on: turns are taken in no promised order, and a turn that is
//! never left stops all others.
#![tactic(auto)]

mod gate;
mod latch;
mod pass;
mod plays;
mod stands;
mod steps;
#[cfg(test)]
mod tests;
mod view;

pub use pass::{Gate, Note, Pass, Retired, Spent, Turn, Unreturned};
pub use stands::Stands;
