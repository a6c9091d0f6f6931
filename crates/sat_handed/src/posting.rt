//! Messages as letters.
ghost use Rattle.std.specs.Prelude.{[]};
ghost use Rattle.sat_handed.specs.Posting.{Posts};
ghost use Rattle.sat_handed.specs.Transports.{Grows};

use crate::transport::Transport;
use sat_letter::{encode, is_allowed};
use sat_message::Message;

/// What became of the next message of a link.
#[derive(Clone, Copy, Debug, PartialEq, Eq)]
pub enum Spoken {
    /// There is none: all that the journal puts on the link was handed to the transport.
    Nothing,
    /// The transport was handed it.
    Sent,
    /// The transport was handed it, and said that it did not take it.
    Lost,
    /// It has no spelling, and the transport was handed nothing.
    Unspelled,
    /// Out of memory; the transport was handed nothing.
    Memory,
}

/// Hands a transport the bytes of a message, and tells what became of it: not `Nothing`, and `Unspelled` only where the
/// message has no spelling. What the vector holds afterwards is not said.
pub fn post<T: Transport>(
    transport: &mut T,
    bytes: &mut Vec<u8>,
    link: u16,
    message: &Message,
) -> Spoken
    ensures posted { Posts link message.now result (T.sent transport.old) (T.sent transport.new) }
    ensures came { Grows (T.came transport.old) (T.came transport.new) [] }
{
    if !is_allowed(message) {
        return Spoken::Unspelled;
    }
    bytes.clear();
    if encode(message, bytes).is_err() {
        return Spoken::Memory;
    }
    if transport.send(link, bytes.as_slice()) {
        Spoken::Sent
    } else {
        Spoken::Lost
    }
}
