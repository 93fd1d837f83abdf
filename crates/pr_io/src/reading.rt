ghost use Rattle.std.specs.Prelude.{◌≡◌, ◌≤◌, Ok, length, take, IfOk, OnErr};
ghost use Rattle.pr_io.specs.Streams.{Took, TookFewer, EndedShort};
ghost use Rattle.pr_io.specs.Causes.{HasCause};

use crate::{Failed, Source};

/// Fills the buffer from the source, and says how many bytes came.
///
/// Fewer than the buffer has room for came only where the source has ended. An empty buffer is
/// full at once: the source isn't asked.
///
/// # Errors
///
/// Where the source fails. Bytes that came before the failure are lost; there were fewer than the
/// buffer has room for, and how many isn't told.
pub fn read_up_to<S: Source>(source: &mut S, buf: &mut [u8]) -> Result<usize, Failed>
    ensures count { IfOk result (λ n. n ≤ length buf.old) }
    ensures took { IfOk result (λ n. Took (S.rest source.old) (S.rest source.new)
        (take n buf.new)) }
    ensures took_fewer { OnErr result (TookFewer (S.rest source.old) (S.rest source.new)
        (length buf.old)) }
    ensures short { IfOk result (λ n. EndedShort (S.rest source.new) n (length buf.old)) }
    ensures cause { HasCause (S.faults source.old) (S.faults source.new) result }
    ensures empty { length buf.old ≡ 0 → (result ≡ Ok 0) × (source.new ≡ source.old) }
{
    let mut at = 0;
    while at < buf.len() {
        let n = source.take(&mut buf[at..])?;
        if n == 0 {
            return Ok(at);
        }
        at += n;
    }
    Ok(at)
}
