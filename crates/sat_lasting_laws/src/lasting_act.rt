//! Acts of a script for sites that last.
use sat_act::Act;

/// The most calls of a disk that a cut lets pass: those behind which an input's last sync comes.
pub const MOST_CALLS: u64 = 3;

/// One event: a plain act, or a stop of a site. A site keeps its inputs on a disk, and each input takes four calls of
/// that disk, a write and a sync of its record and a write and a sync of the byte before it.
#[derive(Drop, PartialEq, Eq)]
pub enum LastingAct {
    /// An act that is no `clock` and no `settle`.
    Plain(Act),
    /// A site stops between two acts, and is made again from its disk.
    Stop {
        site: u16,
    },
    /// The next act at a site is to be cut off.
    Cut {
        site: u16,
        /// So many calls of the disk pass, 0 to [`MOST_CALLS`], and the next one fails.
        calls: u64,
        /// Whether what wasn't synced is still there afterwards.
        keep: bool,
    },
}
