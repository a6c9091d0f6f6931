//! The bodies of inputs.
ghost use Rattle.std.specs.Prelude.{◌≡◌, ◌-◌, ◌≤◌, ◌<◌, ◌^◌, ◌++◌, true, length, Some, Ok, IfOk, IfErr, OnOk, OnErr};
ghost use Rattle.sat_wire.specs.Wholes.{whole, IsWant, Refuses};
ghost use Rattle.sat_bodies.specs.Bodies.{body_of, input, input_allows, input_fits, input_of};

use crate::inputs::{read, size, write};
use sat_site::SiteInput;
use sat_wire::{Cause, DecodeFault, ReadFault, Stop, Wrong};
use std::alloc::{AllocError, Global};

/// Puts the body of an input behind other bytes. It takes the room for all of it first; for want of it all is as
/// before.
pub fn encode(given: &SiteInput, out: &mut Vec<u8>) -> Result<(), AllocError>
    requires { input_allows given.now ≡ true }
    ensures ok { OnOk result (out.new.items ≡ out.old.items ++ body_of given.now) }
    ensures err { OnErr result (out.new.items ≡ out.old.items) }
{
    let bytes = size(given);
    out.reserve(bytes)?;
    write(given, out);
    Ok(())
}

// Of so many bytes, by the place from the front.
fn placed(stop: Stop, bytes: usize) -> Wrong
    requires { stop.left ≤ bytes }
    ensures cause { result.cause ≡ stop.cause }
    ensures place { result.place ≡ bytes - stop.left }
{
    Wrong {
        cause: stop.cause,
        place: bytes - stop.left,
    }
}

// What all of the bytes spell.
fn exactly(alloc: Global, bytes: &[u8]) -> Result<SiteInput, DecodeFault>
    ensures ok { IfOk result (λ given. whole input bytes.now ≡ Ok given) }
    ensures err { IfErr result (λ fault. Refuses fault (whole input bytes.now)) }
{
    match read(alloc, bytes) {
        Ok((given, rest)) => {
            if rest.is_empty() {
                Ok(given)
            } else {
                Err(DecodeFault::Wrong(placed(
                    Stop {
                        cause: Cause::Long,
                        left: rest.len(),
                    },
                    bytes.len(),
                )))
            }
        }
        Err(ReadFault::Memory) => Err(DecodeFault::Memory),
        Err(ReadFault::Stop(stop)) => Err(DecodeFault::Wrong(placed(stop, bytes.len()))),
    }
}

/// The input whose body these bytes are, which is one at the most. All other bytes are refused.
pub fn decode(alloc: Global, bytes: &[u8]) -> Result<SiteInput, DecodeFault>
    ensures ok { IfOk result (λ given. whole input bytes.now ≡ Ok given) }
    ensures err { IfErr result (λ fault. Refuses fault (whole input bytes.now)) }
    ensures spelled { IfOk result (λ given. bytes.now ≡ body_of given) }
    ensures fits { IfOk result (λ given. input_fits given ≡ true) }
    ensures found { (given : SiteInput) → input_fits given ≡ true → bytes.now ≡ body_of given
        → IfOk result (λ read. read ≡ given) }
    ensures refused { (given : SiteInput) → input_fits given ≡ true → bytes.now ≡ body_of given → IfErr result IsWant }
{
    exactly(alloc, bytes)
}

/// The body of an input. It is read again as that input, and its length fits four bytes.
#[tactic(auto, using(crate::specs::Bodies::body_again, crate::specs::Bodies::body_short))]
pub fn body_of(alloc: Global, given: &SiteInput) -> Result<Vec<u8>, AllocError>
    requires { input_allows given.now ≡ true }
    ensures body { IfOk result (λ body. body.items ≡ body_of given.now) }
    ensures again { IfOk result (λ body. input_of body.items ≡ Some given.now) }
    ensures short { IfOk result (λ body. length body.items < 2 ^ 32) }
{
    let bytes = size(given);
    let mut body = Vec::with_capacity(alloc, bytes)?;
    write(given, &mut body);
    Ok(body)
}

/// The input that a body stands for. None where it is the body of no input.
pub fn input_of(alloc: Global, body: &[u8]) -> Result<Option<SiteInput>, AllocError>
    ensures { IfOk result (λ found. found ≡ input_of body.now) }
{
    match decode(alloc, body) {
        Ok(given) => Ok(Some(given)),
        Err(DecodeFault::Memory) => Err(AllocError),
        Err(DecodeFault::Wrong(_)) => Ok(None),
    }
}
