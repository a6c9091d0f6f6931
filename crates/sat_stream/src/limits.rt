//! How much of a text need be read.

/// No good line of format 1 has more bytes than this, with its byte 10.
pub const LINE_BYTES: u64 = 600;

/// No good line of format 2 has more: its longest write four items.
pub const LONG_LINE_BYTES: u64 = 1_300;

/// No good script of format 1 has more lines than this.
pub const MOST_LINES: u64 = 205_200;

/// No good script of format 2 has more.
pub const MOST_LONG_LINES: u64 = 96_700;

/// The first bad line is known once more bytes than this have come.
pub const MOST_BYTES: u64 = 125_714_097;

/// The first bad line of any text begins before this byte, so nothing after it need be read.
pub const BYTES_END: u64 = 268_435_456;
