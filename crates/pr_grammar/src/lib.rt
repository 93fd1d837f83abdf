//! Every byte layout of the project, as a value and its spelling.
//!
//! The definitions stand in `specs/`; the crates that read and write the layouts cite them, and hand on the plain types
//! that stand here because the definitions speak of them too.
#![tactic(auto)]

ghost use Rattle.std.specs.Prelude.{◌≡◌, ℕ, ◌/◌, Some};
ghost use Rattle.pr_grammar.specs.declared.operation.OperationCode.{OperationCode as Code};
ghost use Rattle.pr_grammar.specs.Operations.{row_of, operation_at, length_of, group_length};
ghost use Rattle.pr_grammar.specs.Laws.{Becomes, NeverBecomes};

mod cdb;
mod file;
mod operation;
mod param;
mod sense;

pub use cdb::{Cdb, CdbFault, Class, Command};
pub use file::{FILE_LAYOUT, FileLayout};
pub use operation::OperationCode;
pub use param::{Capabilities, FullEntry, Held, OutList, ParamFault, ReplyFault};
pub use sense::SenseFault;

/// A law, proved by its contract: the bytes that can begin a record of a schedule are those that
/// some more bytes make one.
pub fn can_begin_is_exact()
    ensures becomes { Becomes }
    ensures never { NeverBecomes }
{}

/// Laws, proved by this contract: the table of operation codes has each byte in one row, and its
/// lengths are those of the group codes.
#[tactic(auto, using(crate::proofs::Coding::found_by_its_byte, crate::proofs::Coding::found_has_its_byte, crate::proofs::Coding::length_of_its_group))]
pub fn operation_codes_are_one_table()
    ensures found { (o : Code) → operation_at (row_of o).byte ≡ Some o }
    ensures listed { (op : ℕ) (o : Code) → operation_at op ≡ Some o → (row_of o).byte ≡ op }
    ensures lengths { (op : ℕ) → length_of op ≡ group_length (op / 32) }
{}
