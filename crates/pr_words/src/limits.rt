//! Sizes and limits of which more than one layer speaks. The size of a block is SBC-3's and that of
//! a parameter list SPC-4's; the others are this project's own.

/// The bytes of a logical block.
pub const BLOCK: usize = 512;

/// The most blocks of one READ or WRITE.
pub const TRANSFER: usize = 1_024;

/// The most bytes of a command's data-out or data-in: those of so many blocks.
pub const DATA: usize = 524_288;

/// The bytes of a parameter list of PERSISTENT RESERVE OUT.
pub const PARAMETER_LIST: usize = 24;

/// The most bytes of a frame's body: what comes before a command's data-out, and this.
pub const BODY: usize = 524_308;

/// The most that a frame's length field says, which counts the bytes behind it.
pub const FRAME_LENGTH: usize = 524_316;

/// The bytes of a frame before its body.
pub const FRAME_HEAD: usize = 12;

/// The bytes of a Command's body before its data-out.
pub const COMMAND_HEAD: usize = 20;

/// The bytes of a Command reply's body before its sense and data-in.
pub const REPLY_HEAD: usize = 4;

/// The most bytes of a connection that are held: those of the longest frame.
pub const HELD: usize = 524_320;

/// The most bytes that an arrival of a schedule brings, and that an output record holds.
pub const PIECE: usize = 65_535;

/// The most lanes of a schedule.
pub const LANES: usize = 64;

/// The most registrations.
pub const LIMIT: usize = 64;

/// The most known nexuses.
pub const KNOWN: usize = 256;

/// The most registrations of which the data of a PERSISTENT RESERVE IN tells: of so many, each
/// length fits its field of four bytes.
pub const REPORTABLE: usize = 65_536;

const _: () = prove!(DATA == BLOCK * TRANSFER);

const _: () = prove!(BODY == COMMAND_HEAD + DATA);

const _: () = prove!(HELD == FRAME_HEAD + BODY);

const _: () = prove!(FRAME_LENGTH == HELD - 4);
