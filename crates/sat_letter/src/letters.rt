//! Messages.
ghost use Rattle.std.specs.Prelude.{◌≡◌, ◌+◌, ◌≤◌, ◌++◌, true, length, vec_capacity, Ok, IfOk, IfErr};
ghost use Rattle.sat_wire.specs.Code.{StopsAt};
ghost use Rattle.sat_letter.specs.Letters.{letter, letter_allows};

use crate::bodies;
use sat_message::Message;
use sat_node::Envelope;
use sat_wire::{ReadFault, Wire};
use std::alloc::Global;

/// Whether a message has a spelling: its items ascend, and its lists are within the counts of a spelling, as all that a
/// site makes are. It takes no memory.
pub fn is_allowed(message: &Message) -> bool
    ensures { result ≡ letter_allows message.now }
{
    bodies::is_allowed(&message.sent.body)
}

/// How many bytes a message is written in. It takes no memory.
pub fn size(message: &Message) -> usize
    requires { letter_allows message.now ≡ true }
    ensures size { result ≡ length (letter.spell message.now) }
    ensures fits { letter.fits message.now ≡ true }
    ensures most { result ≤ 1310743 }
{
    message.number.size() + message.sent.lamport.size() + bodies::size(&message.sent.body)
}

/// Puts a message's bytes behind others, for which there is room. It takes no memory.
pub fn write(message: &Message, out: &mut Vec<u8>)
    requires fits { letter.fits message.now ≡ true }
    requires room { length out.old.items + length (letter.spell message.now) ≤ vec_capacity out.old }
    ensures items { out.new.items ≡ out.old.items ++ letter.spell message.now }
    ensures capacity { vec_capacity out.old ≤ vec_capacity out.new }
{
    message.number.write(out);
    message.sent.lamport.write(out);
    bodies::write(&message.sent.body, out);
}

/// The message at the front of bytes, and the bytes behind it.
pub fn read(alloc: Global, bytes: &[u8]) -> Result<(Message, &[u8]), ReadFault>
    ensures ok { IfOk result (λ found. letter.read bytes.now ≡ Ok (found.0, found.1.now)) }
    ensures err { IfErr result (λ fault. StopsAt fault (letter.read bytes.now)) }
{
    let (number, rest) = u64::read(alloc, bytes)?;
    let (lamport, rest) = u64::read(alloc, rest)?;
    let (body, rest) = bodies::read(alloc, rest)?;
    let sent = Envelope { lamport, body };
    Ok((Message { number, sent }, rest))
}
