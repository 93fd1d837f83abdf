ghost use Rattle.std.specs.Prelude.{◌≡◌, ◌≤◌, ◌-◌, ◌++◌, true, length, replicate};
ghost use Rattle.pr_grammar.specs.Bodies.{is_command_body, command_cdb};

use std::marker::Model;

/// A command descriptor block as a Command carries it: 1 to 16 bytes, whatever they say (SPC-4).
#[derive(Clone, Copy, Debug, PartialEq, Eq)]
pub struct RawCdb {
    bytes: [u8; 16],
    size: usize,
}

impl Model for RawCdb {
    ghost use Rattle.std.specs.Prelude.{◌≡◌, ℕ, ◌≤◌, ◌-◌, ◌++◌, List, length, take, drop, replicate};
    ghost use Rattle.std.proofs.Common.{sym, ap, ◌∙◌, arith, take-append-drop, length-take-le};

    ghost Value = { List ℕ };

    ghost view = { λ c. take c.size c.bytes };

    ghost invariant = { λ c. (1 ≤ c.size) × (c.size ≤ 16) × (length c.bytes ≡ 16)
        × (drop c.size c.bytes ≡ replicate (16 - c.size) 0) };

    ghost inverse = { λ cdb. record {
      bytes = cdb ++ replicate (16 - length cdb) 0;
      size = length cdb;
    } };

    ghost inverse_ok = { λ c h i. record {
      bytes = (ap (λ n. take c.size c.bytes ++ replicate (16 - n) 0)
          (length-take-le c.size c.bytes (omega (arith, h.1, h.2)))
          ∙ ap (λ w. take c.size c.bytes ++ w) (sym h.3) ∙ take-append-drop c.size c.bytes) i;
      size = length-take-le c.size c.bytes (omega (arith, h.1, h.2)) i;
    } };
}

impl RawCdb {
    /// A CDB of these bytes.
    pub fn new(cdb: &[u8]) -> RawCdb
        requires some { 1 ≤ length cdb.now }
        requires few { length cdb.now ≤ 16 }
        ensures { result ≡ cdb.now }
    {
        let size = cdb.len();
        let mut bytes = [0; 16];
        bytes[..size].copy_from_slice(cdb);
        RawCdb { bytes, size }
    }

    /// The CDB in the body of a Command, with the zeros up to its 16 bytes.
    pub(crate) fn in_command(body: &[u8]) -> RawCdb
        requires { is_command_body body.now ≡ true }
        ensures { result ≡ command_cdb body.now }
    {
        let mut bytes = [0; 16];
        bytes.copy_from_slice(&body[4..20]);
        RawCdb {
            bytes,
            size: body[0] as usize,
        }
    }

    /// Its bytes, 1 to 16.
    pub fn bytes(&self) -> &[u8]
        ensures bytes { result.now ≡ self.now }
        ensures some { 1 ≤ length result.now }
        ensures few { length result.now ≤ 16 }
    {
        &self.bytes[..self.size]
    }

    /// Its bytes, and behind them zeros up to 16.
    pub(crate) fn padded(&self) -> &[u8; 16]
        ensures { result.now ≡ self.now ++ replicate (16 - length self.now) 0 }
    {
        &self.bytes
    }
}
