ghost use Rattle.std.specs.Prelude.{OnOk, OnErr};
ghost use Rattle.pr_io.specs.Causes.{HasCause};
ghost use Rattle.pr_io.specs.Streams.{Put, PutSome};
ghost use Rattle.pr_serve.specs.Turns.{turns_line};

use itoa::Buffer;
use pr_io::{Failed, Sink, put_three};

/// Puts the line that says how many turns the target has done.
///
/// # Errors
///
/// Where the sink fails. A front of the line was put then.
pub(crate) fn tell_turns<K: Sink>(sink: &mut K, turns: u64) -> Result<(), Failed>
    ensures all { OnOk result (Put (K.written sink.old) (K.written sink.new) (turns_line turns)) }
    ensures some { OnErr result (PutSome (K.written sink.old) (K.written sink.new)
        (turns_line turns)) }
    ensures cause { HasCause (K.faults sink.old) (K.faults sink.new) result }
{
    put_three(
        sink,
        b"turns ",
        Buffer::new().format(turns).as_bytes(),
        b"\n",
    )
}
