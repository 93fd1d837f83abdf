ghost use Rattle.std.specs.Prelude.{◌≡◌, ◌≤◌, ◌++◌, length, OnOk, OnErr, IsOk};
ghost use Rattle.pr_io.specs.Streams.{Put, PutSome};
ghost use Rattle.pr_io.specs.Causes.{HasCause};

use crate::{Failed, Sink};

/// Puts all of the piece, in as few calls as the sink allows. An empty piece makes none.
///
/// # Errors
///
/// Where the sink fails. A front of the piece was put then, and how much isn't told.
pub fn put_all<K: Sink>(sink: &mut K, piece: &[u8]) -> Result<(), Failed>
    ensures all { OnOk result (Put (K.written sink.old) (K.written sink.new) piece.now) }
    ensures some { OnErr result (PutSome (K.written sink.old) (K.written sink.new) piece.now) }
    ensures cause { HasCause (K.faults sink.old) (K.faults sink.new) result }
    ensures empty { length piece.now ≡ 0 → IsOk result × (sink.new ≡ sink.old) }
{
    let mut at = 0;
    while at < piece.len() {
        at += sink.put(&piece[at..])?;
    }
    Ok(())
}

/// Puts all of two pieces, one after the other.
///
/// # Errors
///
/// Where the sink fails. A front of the two, one after the other, was put then.
pub fn put_two<K: Sink>(sink: &mut K, first: &[u8], second: &[u8]) -> Result<(), Failed>
    ensures all { OnOk result (Put (K.written sink.old) (K.written sink.new)
        (first.now ++ second.now)) }
    ensures some { OnErr result (PutSome (K.written sink.old) (K.written sink.new)
        (first.now ++ second.now)) }
    ensures cause { HasCause (K.faults sink.old) (K.faults sink.new) result }
{
    put_all(sink, first)?;
    put_all(sink, second)
}

/// Puts all of three pieces, one after the other.
///
/// # Errors
///
/// Where the sink fails. A front of the three, one after the other, was put then.
pub fn put_three<K: Sink>(
    sink: &mut K,
    first: &[u8],
    second: &[u8],
    third: &[u8],
) -> Result<(), Failed>
    ensures all { OnOk result (Put (K.written sink.old) (K.written sink.new)
        (first.now ++ (second.now ++ third.now))) }
    ensures some { OnErr result (PutSome (K.written sink.old) (K.written sink.new)
        (first.now ++ (second.now ++ third.now))) }
    ensures cause { HasCause (K.faults sink.old) (K.faults sink.new) result }
{
    put_all(sink, first)?;
    put_two(sink, second, third)
}
