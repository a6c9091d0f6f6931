//! Messages with no byte before or behind them.
ghost use Rattle.std.specs.Prelude.{◌≡◌, ◌-◌, ◌≤◌, ◌++◌, true, length, Ok, IfOk, IfErr, OnOk, OnErr};
ghost use Rattle.sat_message.specs.declared.message.Message.{Message as Seen};
ghost use Rattle.sat_wire.specs.Wholes.{whole, IsWant, Refuses};
ghost use Rattle.sat_letter.specs.Letters.{letter, letter_allows};

use crate::letters::{read, size, write};
use sat_message::Message;
use sat_wire::{Cause, DecodeFault, ReadFault, Stop, Wrong};
use std::alloc::{AllocError, Global};

/// Puts a message's bytes behind others. It takes the room for all of them first; for want of it all is as before.
pub fn encode(message: &Message, out: &mut Vec<u8>) -> Result<(), AllocError>
    requires { letter_allows message.now ≡ true }
    ensures ok { OnOk result (out.new.items ≡ out.old.items ++ letter.spell message.now) }
    ensures err { OnErr result (out.new.items ≡ out.old.items) }
{
    let bytes = size(message);
    out.reserve(bytes)?;
    write(message, out);
    Ok(())
}

// Of so many bytes, by the place from the front.
fn placed(stop: Stop, bytes: usize) -> Wrong
    requires { stop.left ≤ bytes }
    ensures cause { result.cause ≡ stop.cause }
    ensures place { result.place ≡ bytes - stop.left }
{
    Wrong {
        cause: stop.cause,
        place: bytes - stop.left,
    }
}

// What all of the bytes spell.
fn exactly(alloc: Global, bytes: &[u8]) -> Result<Message, DecodeFault>
    ensures ok { IfOk result (λ message. whole letter bytes.now ≡ Ok message) }
    ensures err { IfErr result (λ fault. Refuses fault (whole letter bytes.now)) }
{
    match read(alloc, bytes) {
        Ok((message, rest)) => {
            if rest.is_empty() {
                Ok(message)
            } else {
                Err(DecodeFault::Wrong(placed(
                    Stop {
                        cause: Cause::Long,
                        left: rest.len(),
                    },
                    bytes.len(),
                )))
            }
        }
        Err(ReadFault::Memory) => Err(DecodeFault::Memory),
        Err(ReadFault::Stop(stop)) => Err(DecodeFault::Wrong(placed(stop, bytes.len()))),
    }
}

/// The message that all of some bytes spell, which is one at the most. All other bytes are refused, with the place at
/// which they stop to be a spelling.
pub fn decode(alloc: Global, bytes: &[u8]) -> Result<Message, DecodeFault>
    ensures ok { IfOk result (λ message. whole letter bytes.now ≡ Ok message) }
    ensures err { IfErr result (λ fault. Refuses fault (whole letter bytes.now)) }
    ensures spelled { IfOk result (λ message. bytes.now ≡ letter.spell message) }
    ensures fits { IfOk result (λ message. letter.fits message ≡ true) }
    ensures found { (message : Seen) → letter.fits message ≡ true → bytes.now ≡ letter.spell message
        → IfOk result (λ read. read ≡ message) }
    ensures refused { (message : Seen) → letter.fits message ≡ true → bytes.now ≡ letter.spell message
        → IfErr result IsWant }
{
    exactly(alloc, bytes)
}
