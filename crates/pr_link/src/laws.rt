ghost use Rattle.pr_link.specs.Calls.{FramesAreAtTheFront, CutsAreAlike};
ghost use Rattle.pr_link.specs.Laws.{WrittenIsRead, ReadIsWritten, LoginIsReadBack, CommandIsReadBack, RepliesKeepTheRules};
ghost use Rattle.pr_link.specs.ValueLaws.{RequestsAreReadBack, RepliesAreReadBack};

/// A law, proved by its contract: a frame that is written is read back, whatever bytes come behind it.
pub fn written_is_read()
    ensures { WrittenIsRead }
{}

/// A law, proved by its contract: a frame that is read has one spelling, the bytes that it was read from. So the bytes
/// fed are those of the frames given and then those held, in whatever pieces they came.
pub fn read_is_written()
    ensures { ReadIsWritten }
{}

/// Laws, proved by this contract: what an initiator spells keeps the rules of the target's side, and what was spelled is
/// read back, for fields that fit.
pub fn requests_are_read_back()
    ensures login { LoginIsReadBack }
    ensures command { CommandIsReadBack }
{}

/// A law, proved by its contract: what a target writes in its replies keeps the rules of the initiator's side, where a
/// reply has sense just with CHECK CONDITION and data just with GOOD.
pub fn replies_keep_the_rules()
    ensures { RepliesKeepTheRules }
{}

/// A law, proved by its contract: a target reads the request that an initiator wrote, as the same value.
pub fn requests_are_the_same()
    ensures { RequestsAreReadBack }
{}

/// A law, proved by its contract: an initiator reads the reply that a target wrote, as the same value.
pub fn replies_are_the_same()
    ensures { RepliesAreReadBack }
{}

/// Laws, proved by this contract: the frames that a stream gives don't depend on how its bytes come in pieces, nor on when
/// the next frame is asked for.
pub fn cuts_are_alike()
    ensures front { FramesAreAtTheFront }
    ensures alike { CutsAreAlike }
{}
