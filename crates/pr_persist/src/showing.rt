ghost use Rattle.std.specs.Prelude.{◌≡◌, Err};
ghost use Rattle.pr_grammar.specs.InReplies as replies;
ghost use Rattle.pr_io.specs.Told.{told_sink};
ghost use Rattle.pr_words.specs.declared.service.InService.TheVariants as ins;
ghost use Rattle.pr_persist.specs.declared.asked.Asked.TheVariants as ask;
ghost use Rattle.pr_persist.specs.Shows.{looking, HasShown, place_of, text_in, reply_text, inquiry_text, written_by};
ghost use Rattle.pr_persist.specs.Texts.{keys_text, held_text, capabilities_text, full_text};

use crate::asked::Asked;
use crate::exit::PersistExit;
use crate::full::{put_full, put_inquiry};
use crate::plan::Action;
use crate::printing::put_keys;
use crate::texts::{put_capabilities, put_held};
use pr_io::{Failed, Sink};
use pr_param::{ReplyFault, read_capabilities, read_full, read_keys, read_reservation};
use pr_words::InService;

/// The bytes of standard INQUIRY data that are shown (SPC-4).
const INQUIRY_DATA: usize = 36;

/// The exit of a sink that failed.
fn written(put: Result<(), Failed>) -> Result<(), PersistExit>
    ensures { result ≡ written_by put }
{
    match put {
        Ok(()) => Ok(()),
        Err(_) => Err(PersistExit::WriteFault),
    }
}

/// The place at which data break their grammar.
fn place(fault: ReplyFault) -> usize
    ensures { result ≡ place_of fault }
{
    match fault {
        ReplyFault::BadLength { place, .. } => place,
        ReplyFault::Cut { place } => place,
    }
}

/// The exit of data that break their grammar.
fn bad(asked: Asked, place: usize) -> Result<(), PersistExit>
    ensures { result ≡ Err (PersistExit.BadData asked place) }
{
    Err(PersistExit::BadData {
        asked,
        place: place as u64,
    })
}

/// The exit of data of a PERSISTENT RESERVE IN that break their grammar.
fn bad_reply(service: InService, place: usize) -> Result<(), PersistExit>
    ensures { result ≡ Err (PersistExit.BadData (looking service) place) }
{
    bad(Asked::Command(Action::In(service)), place)
}

/// Shows the data of READ KEYS.
fn show_keys<K: Sink>(sink: &mut K, bytes: &[u8]) -> Result<(), PersistExit>
    ensures { HasShown (looking ins.ReadKeys) (text_in keys_text (replies.read_keys bytes.now))
        (told_sink K.Sink sink.old) (told_sink K.Sink sink.new) result }
{
    match read_keys(bytes) {
        Ok(told) => written(put_keys(sink, &told)),
        Err(fault) => bad_reply(InService::ReadKeys, place(fault)),
    }
}

/// Shows the data of READ RESERVATION.
fn show_reservation<K: Sink>(sink: &mut K, bytes: &[u8]) -> Result<(), PersistExit>
    ensures { HasShown (looking ins.ReadReservation)
        (text_in held_text (replies.read_reservation bytes.now))
        (told_sink K.Sink sink.old) (told_sink K.Sink sink.new) result }
{
    match read_reservation(bytes) {
        Ok(told) => written(put_held(sink, &told)),
        Err(fault) => bad_reply(InService::ReadReservation, place(fault)),
    }
}

/// Shows the data of REPORT CAPABILITIES.
fn show_capabilities<K: Sink>(sink: &mut K, bytes: &[u8]) -> Result<(), PersistExit>
    ensures { HasShown (looking ins.ReportCapabilities)
        (text_in capabilities_text (replies.read_capabilities bytes.now))
        (told_sink K.Sink sink.old) (told_sink K.Sink sink.new) result }
{
    match read_capabilities(bytes) {
        Ok(told) => written(put_capabilities(sink, &told)),
        Err(fault) => bad_reply(InService::ReportCapabilities, place(fault)),
    }
}

/// Shows the data of READ FULL STATUS.
fn show_full<K: Sink>(sink: &mut K, bytes: &[u8]) -> Result<(), PersistExit>
    ensures { HasShown (looking ins.ReadFullStatus)
        (text_in full_text (replies.read_full bytes.now))
        (told_sink K.Sink sink.old) (told_sink K.Sink sink.new) result }
{
    match read_full(bytes) {
        Ok(told) => written(put_full(sink, &told)),
        Err(fault) => bad_reply(InService::ReadFullStatus, place(fault)),
    }
}

/// Shows the data of a PERSISTENT RESERVE IN.
///
/// # Errors
///
/// `PersistExit::BadData` where they break their grammar, and nothing was put; `WriteFault` where
/// the sink fails, and a front of the text was put.
pub(crate) fn show<K: Sink>(
    sink: &mut K,
    service: InService,
    bytes: &[u8],
) -> Result<(), PersistExit>
    ensures { HasShown (looking service) (reply_text service bytes.now)
        (told_sink K.Sink sink.old) (told_sink K.Sink sink.new) result }
{
    match service {
        InService::ReadKeys => show_keys(sink, bytes),
        InService::ReadReservation => show_reservation(sink, bytes),
        InService::ReportCapabilities => show_capabilities(sink, bytes),
        InService::ReadFullStatus => show_full(sink, bytes),
    }
}

/// Shows the line of standard INQUIRY data.
///
/// # Errors
///
/// As `show`: data shorter than 36 bytes break their grammar at their end.
pub(crate) fn show_inquiry<K: Sink>(sink: &mut K, bytes: &[u8]) -> Result<(), PersistExit>
    ensures { HasShown ask.Inquiry (inquiry_text bytes.now)
        (told_sink K.Sink sink.old) (told_sink K.Sink sink.new) result }
{
    if bytes.len() < INQUIRY_DATA {
        return bad(Asked::Inquiry, bytes.len());
    }
    written(put_inquiry(sink, bytes))
}
