//! Letters that come, as messages.
ghost use Rattle.std.specs.Prelude.{[]};
ghost use Rattle.sat_handed.specs.Transports.{Grows};
ghost use Rattle.sat_process.specs.Letters.{Comes};

use sat_handed::Transport;
use sat_letter::decode;
use sat_message::Message;
use sat_wire::{DecodeFault, Wrong};
use std::alloc::Global;

/// What came over a transport: nothing; the transport failed; bytes of a link that are no message, or for which there
/// is no memory; or a message of a link.
#[derive(Drop)]
pub(crate) enum Letter {
    Nothing,
    Failed,
    Unread(u16, Wrong),
    Lost(u16),
    Message(u16, Message),
}

/// The next letter that came. What the vector holds afterwards is not said.
pub(crate) fn next_letter<T: Transport>(
    alloc: Global,
    transport: &mut T,
    bytes: &mut Vec<u8>,
) -> Letter
    ensures came { Comes result (T.came transport.old) (T.came transport.new) }
    ensures sent { Grows (T.sent transport.old) (T.sent transport.new) [] }
{
    let link = match transport.receive(bytes) {
        Ok(Some(link)) => link,
        Ok(None) => return Letter::Nothing,
        Err(_) => return Letter::Failed,
    };
    match decode(alloc, bytes.as_slice()) {
        Ok(message) => Letter::Message(link, message),
        Err(DecodeFault::Wrong(wrong)) => Letter::Unread(link, wrong),
        Err(DecodeFault::Memory) => Letter::Lost(link),
    }
}
