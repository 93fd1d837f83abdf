//! A lane's replies, as records of the output.

ghost use Rattle.std.specs.Prelude.{◌≡◌, ℕ, List, [], ◌++◌, ◌≤◌, ◌<◌, length, OnOk, OnErr};
ghost use Rattle.pr_words.specs.declared.limits.TheConstants.{PIECE};
ghost use Rattle.pr_io.specs.Streams.{Put, PutSome};
ghost use Rattle.pr_io.specs.Causes.{HasCause};
ghost use Rattle.pr_grammar.specs.Outputs.{output_record, output_of};
ghost use Rattle.pr_session.specs.Sessions.{reply_of, IsKept};

use pr_io::{Failed, Sink, put_all, put_two};
use pr_session::Session;
use pr_words::PIECE;

/// The head of a record of so many bytes.
fn record_head(lane: u8, len: usize) -> [u8; 4]
    requires { len ≤ PIECE }
    ensures size { length result ≡ 4 }
    ensures text { (bytes : List ℕ) → length bytes ≡ len →
        result ++ bytes ≡ output_record lane bytes }
{
    let size = (len as u16).to_be_bytes();
    [lane, 0, size[0], size[1]]
}

/// Writes one record.
fn put_record<K: Sink>(sink: &mut K, lane: u8, piece: &[u8]) -> Result<(), Failed>
    requires { length piece.now ≤ PIECE }
    ensures all { OnOk result (Put (K.written sink.old) (K.written sink.new)
        (output_record lane piece.now)) }
    ensures some { OnErr result (PutSome (K.written sink.old) (K.written sink.new)
        (output_record lane piece.now)) }
    ensures cause { HasCause (K.faults sink.old) (K.faults sink.new) result }
{
    put_two(sink, &record_head(lane, piece.len()), piece)
}

/// Writes bytes in as many records as they need.
fn put_records<K: Sink>(sink: &mut K, lane: u8, bytes: &[u8]) -> Result<(), Failed>
    ensures all { OnOk result (Put (K.written sink.old) (K.written sink.new)
        (output_of lane bytes.now)) }
    ensures some { OnErr result (PutSome (K.written sink.old) (K.written sink.new)
        (output_of lane bytes.now)) }
    ensures cause { HasCause (K.faults sink.old) (K.faults sink.new) result }
{
    let mut at = 0;
    while at < bytes.len() {
        let len = (bytes.len() - at).min(PIECE);
        put_record(sink, lane, &bytes[at..at + len])?;
        at += len;
    }
    Ok(())
}

/// Writes a reply that one record has room for, at once.
fn put_short<K: Sink>(sink: &mut K, lane: u8, session: &mut Session) -> Result<(), Failed>
    requires some { 0 < length (reply_of session.old) }
    requires short { length (reply_of session.old) ≤ PIECE }
    ensures all { OnOk result (Put (K.written sink.old) (K.written sink.new)
        (output_of lane (reply_of session.old))) }
    ensures some { OnErr result (PutSome (K.written sink.old) (K.written sink.new)
        (output_of lane (reply_of session.old))) }
    ensures cause { HasCause (K.faults sink.old) (K.faults sink.new) result }
    ensures reply { reply_of session.new ≡ reply_of session.old }
    ensures keeps { IsKept session.old session.new }
{
    session.put_head(record_head(lane, session.reply().len()));
    put_all(sink, session.headed_reply())
}

/// Writes the reply that waits, which then waits no longer.
pub fn write_reply<K: Sink>(sink: &mut K, lane: u8, session: &mut Session) -> Result<(), Failed>
    ensures all { OnOk result (Put (K.written sink.old) (K.written sink.new)
        (output_of lane (reply_of session.old))) }
    ensures some { OnErr result (PutSome (K.written sink.old) (K.written sink.new)
        (output_of lane (reply_of session.old))) }
    ensures cause { HasCause (K.faults sink.old) (K.faults sink.new) result }
    ensures silent { reply_of session.new ≡ [] }
    ensures keeps { IsKept session.old session.new }
{
    let len = session.reply().len();
    if len == 0 {
        return Ok(());
    }
    let written = if len > PIECE {
        put_records(sink, lane, session.reply())
    } else {
        put_short(sink, lane, session)
    };
    session.sent(len);
    written
}
