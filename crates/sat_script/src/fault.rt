//! What may be wrong with a line.

/// Why a line is refused.
#[derive(Clone, Copy, Debug, PartialEq, Eq)]
pub enum Cause {
    AfterEnd,
    LongLine,
    NoEnd,
    NotText,
    BadHeader,
    BadAct,
    NotLive,
    TooMany,
    SameName,
    UnknownName,
    OutOfRange,
    BadTree,
    NoEdge,
    BadGroup,
    /// Of a history: no answer, or none that its act has.
    BadAnswer,
    /// Of a history: a point that an earlier answer made.
    SamePoint,
    /// Want of memory.
    Memory,
}

/// The first bad line, from 1, and its cause.
#[derive(Clone, Copy, Debug, PartialEq, Eq)]
pub struct ScriptFault {
    pub line: u64,
    pub cause: Cause,
}
