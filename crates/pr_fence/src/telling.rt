ghost use Rattle.std.specs.Prelude.{◌≡◌, ◌++◌};
ghost use Rattle.pr_io.specs.Told.{told_sink};
ghost use Rattle.pr_fence.specs.Texts.{HasPrinted, before_address, behind_address, line_of};

use crate::plan::Errand;
use pr_io::{Failed, Sink, put_three};

/// What stands before an address.
fn before(errand: Errand) -> &'static [u8]
    ensures { result.now ≡ before_address errand }
{
    match errand {
        Errand::On => b"on ",
        Errand::Off { .. } => b"off ",
        Errand::Status { .. } => b"status ",
    }
}

/// What stands behind an address, by whether the key was found.
fn behind(errand: Errand, found: bool) -> &'static [u8]
    ensures { result.now ≡ behind_address errand found }
{
    match (errand, found) {
        (Errand::On, _) => b"\n",
        (Errand::Off { .. }, true) => b" removed\n",
        (Errand::Status { .. }, true) => b" present\n",
        (_, false) => b" absent\n",
    }
}

/// Puts three pieces of a line.
fn put_line<K: Sink>(
    sink: &mut K,
    before: &[u8],
    address: &[u8],
    behind: &[u8],
) -> Result<(), Failed>
    ensures { HasPrinted (told_sink K.Sink sink.old) (told_sink K.Sink sink.new)
        (before.now ++ (address.now ++ behind.now)) result }
{
    put_three(sink, before, address, behind)
}

/// Puts the line of an address.
///
/// # Errors
///
/// Where the sink fails. A front of the line was put then.
pub(crate) fn put_result<K: Sink>(
    sink: &mut K,
    errand: Errand,
    address: &str,
    found: bool,
) -> Result<(), Failed>
    ensures { HasPrinted (told_sink K.Sink sink.old) (told_sink K.Sink sink.new)
        (line_of errand address.now found) result }
{
    put_line(
        sink,
        before(errand),
        address.as_bytes(),
        behind(errand, found),
    )
}
