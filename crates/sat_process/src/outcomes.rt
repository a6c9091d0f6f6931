//! What is asked of a process, and what its calls answer.
use crate::hosted::Became;
use sat_durable::Disk;
use sat_handed::Transport;
use sat_site::SiteInput;
use sat_wire::Wrong;

/// Why there is no process any more. What is handed back is to be recovered from.
#[derive(Drop)]
pub enum Ended<D: Disk, T: Transport> {
    /// The disk failed.
    Disk(D, T),
    /// Memory ran out behind the disk, which has one thing more than was answered.
    Memory(D, T),
}

/// What is asked of a node by itself, by a client or by the operator.
#[derive(Drop)]
pub enum Asked {
    /// Of a site: an input that no message brings, with the client whose act it is, if it is one's.
    Site { by: Option<u16>, input: SiteInput },
    /// Of a serializer: that it stops for good.
    Kill,
}

/// What a turn came to.
#[derive(Clone, Copy, Debug, PartialEq, Eq)]
pub struct Turned {
    /// What came over the transport.
    pub heard: Heard,
    /// Whether it then said all that it was to say. False where memory ran out.
    pub said: bool,
}

/// What came over the transport.
#[derive(Clone, Copy, Debug, PartialEq, Eq)]
pub enum Heard {
    /// Nothing.
    Nothing,
    /// The transport failed.
    Failed,
    /// Bytes of this link that are no message, with the place where they stop to be one.
    Unread(u16, Wrong),
    /// Bytes of this link for which there is no memory.
    Lost(u16),
    /// A message of this link, of which this became.
    Message(u16, Became),
}
