//! What a node is handed, as its disk keeps it.
ghost use Rattle.std.specs.Prelude.{◌≡◌, ◌+◌, ◌<◌, ◌≤◌, ◌^◌, ◌++◌, true, length, vec_capacity, Some, Ok, IfOk, IfErr};
ghost use Rattle.sat_wire.specs.Code.{made, StopsAt};
ghost use Rattle.sat_handed.specs.Handed.{asked_code, asked_of, body_of, came_code, came_of, handed, handed_allows};
ghost use Rattle.sat_handed.specs.Handed.{handed_fits, input_of};

use sat_bodies as inputs;
use sat_letter as letters;
use sat_message::Message;
use sat_site::SiteInput;
use sat_wire::{Cause, ReadFault, Stop, Wire};
use std::alloc::{AllocError, Global};

/// What a node took: at a site an input that no message brings, with the client whose act it is, if it is one's; at a
/// serializer a kill; at both a message of one of its links. The first two have the Lamport number of their entry.
#[derive(Drop)]
pub enum Handed {
    Asked {
        lamport: u64,
        by: Option<u16>,
        input: SiteInput,
    },
    Killed {
        lamport: u64,
    },
    Came {
        link: u16,
        message: Message,
    },
}

/// Whether it has a body: its items ascend, and its lists are within the counts of a spelling. It takes no memory.
pub fn is_allowed(given: &Handed) -> bool
    ensures { result ≡ handed_allows given.now }
{
    match given {
        Handed::Asked { input, .. } => inputs::is_allowed(input),
        Handed::Killed { .. } => true,
        Handed::Came { message, .. } => letters::is_allowed(message),
    }
}

// How many bytes its body has. It takes no memory.
fn size(given: &Handed) -> usize
    requires { handed_allows given.now ≡ true }
    ensures size { result ≡ length (handed.spell given.now) }
    ensures fits { handed_fits given.now ≡ true }
    ensures most { result < 2 ^ 32 }
{
    match given {
        Handed::Asked { lamport, by, input } => {
            1 + lamport.size() + by.size() + inputs::size(input)
        }
        Handed::Killed { lamport } => 1 + lamport.size(),
        Handed::Came { link, message } => 1 + link.size() + letters::size(message),
    }
}

// Puts its body behind other bytes, for which there is room. It takes no memory.
fn write(given: &Handed, out: &mut Vec<u8>)
    requires fits { handed_fits given.now ≡ true }
    requires room { length out.old.items + length (handed.spell given.now) ≤ vec_capacity out.old }
    ensures items { out.new.items ≡ out.old.items ++ handed.spell given.now }
    ensures capacity { vec_capacity out.old ≤ vec_capacity out.new }
{
    match given {
        Handed::Asked { lamport, by, input } => {
            out.push_reserved(0);
            lamport.write(out);
            by.write(out);
            inputs::write(input, out)
        }
        Handed::Killed { lamport } => {
            out.push_reserved(1);
            lamport.write(out)
        }
        Handed::Came { link, message } => {
            out.push_reserved(2);
            link.write(out);
            letters::write(message, out)
        }
    }
}

fn read_asked(alloc: Global, bytes: &[u8]) -> Result<(Handed, &[u8]), ReadFault>
    ensures ok { IfOk result (λ found. made asked_of (asked_code.read bytes.now) ≡ Ok (found.0, found.1.now)) }
    ensures err { IfErr result (λ fault. StopsAt fault (made asked_of (asked_code.read bytes.now))) }
{
    let (lamport, rest) = u64::read(alloc, bytes)?;
    let (by, rest) = Option::<u16>::read(alloc, rest)?;
    let (input, rest) = inputs::read(alloc, rest)?;
    Ok((Handed::Asked { lamport, by, input }, rest))
}

fn read_came(alloc: Global, bytes: &[u8]) -> Result<(Handed, &[u8]), ReadFault>
    ensures ok { IfOk result (λ found. made came_of (came_code.read bytes.now) ≡ Ok (found.0, found.1.now)) }
    ensures err { IfErr result (λ fault. StopsAt fault (made came_of (came_code.read bytes.now))) }
{
    let (link, rest) = u16::read(alloc, bytes)?;
    let (message, rest) = letters::read(alloc, rest)?;
    Ok((Handed::Came { link, message }, rest))
}

// What stands at the front of bytes, and the bytes behind it.
fn read(alloc: Global, bytes: &[u8]) -> Result<(Handed, &[u8]), ReadFault>
    ensures ok { IfOk result (λ found. handed.read bytes.now ≡ Ok (found.0, found.1.now)) }
    ensures err { IfErr result (λ fault. StopsAt fault (handed.read bytes.now)) }
{
    let (number, rest) = u8::read(alloc, bytes)?;
    match number {
        0 => read_asked(alloc, rest),
        1 => {
            let (lamport, rest) = u64::read(alloc, rest)?;
            Ok((Handed::Killed { lamport }, rest))
        }
        2 => read_came(alloc, rest),
        _ => Err(ReadFault::Stop(Stop {
            cause: Cause::Form,
            left: bytes.len(),
        })),
    }
}

/// The body of what was handed. It is read again as just this, and its length fits four bytes.
#[tactic(auto, using(crate::specs::Handed::body_again))]
pub fn body_of(alloc: Global, given: &Handed) -> Result<Vec<u8>, AllocError>
    requires { handed_allows given.now ≡ true }
    ensures body { IfOk result (λ body. body.items ≡ body_of given.now) }
    ensures again { IfOk result (λ body. input_of body.items ≡ Some given.now) }
    ensures short { IfOk result (λ body. length body.items < 2 ^ 32) }
{
    let bytes = size(given);
    let mut body = Vec::with_capacity(alloc, bytes)?;
    write(given, &mut body);
    Ok(body)
}

/// What a body stands for. None where it is the body of nothing.
pub fn input_of(alloc: Global, body: &[u8]) -> Result<Option<Handed>, AllocError>
    ensures { IfOk result (λ found. found ≡ input_of body.now) }
{
    match read(alloc, body) {
        Ok((given, rest)) => {
            if rest.is_empty() {
                Ok(Some(given))
            } else {
                Ok(None)
            }
        }
        Err(ReadFault::Memory) => Err(AllocError),
        Err(ReadFault::Stop(_)) => Ok(None),
    }
}
