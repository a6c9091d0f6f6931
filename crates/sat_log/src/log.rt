//! Byte strings as the inputs of a machine.
ghost use Rattle.std.specs.Prelude.{◌≡◌, IfOk};

use sat_durable::Machine;
use std::alloc::{AllocError, Global};
use std::marker::Model;

/// Some bytes. Contracts see the list of them.
#[derive(Drop)]
pub struct Bytes {
    bytes: Vec<u8>,
}

impl Model for Bytes {
    ghost use Rattle.std.specs.Prelude.{List, ℕ};

    ghost Value = { List ℕ };

    ghost view = { λ b. b.bytes.items };
}

impl Bytes {
    /// These bytes.
    pub fn of(bytes: Vec<u8>) -> Bytes
        ensures { result ≡ bytes.items }
    {
        Bytes { bytes }
    }

    /// The bytes in order.
    pub fn as_slice(&self) -> &[u8]
        ensures { result.now ≡ self.now }
    {
        self.bytes.as_slice()
    }
}

/// What an append answers: nothing.
#[derive(Clone, Copy, Debug, PartialEq, Eq)]
pub struct Appended;

/// The machine of a journal of byte strings. It gathers what a journal has, where it was made to, and else keeps
/// nothing.
#[derive(Drop)]
pub struct Log {
    gathers: bool,
    bodies: Vec<Bytes>,
}

impl Model for Log {
    ghost use Rattle.sat_log.specs.Logs.{LogSeen};

    ghost Value = { LogSeen };

    ghost view = { λ l. record { gathers = l.gathers; bodies = l.bodies.items } };
}

impl Log {
    ghost use Rattle.sat_log.specs.Logs.{gathering, passing};

    /// One that keeps nothing.
    pub fn passing(alloc: Global) -> Log
        ensures { result ≡ passing }
    {
        Log {
            gathers: false,
            bodies: Vec::new(alloc),
        }
    }

    /// One that gathers all byte strings of a journal as it is recovered.
    pub fn gathering(alloc: Global) -> Log
        ensures { result ≡ gathering }
    {
        Log {
            gathers: true,
            bodies: Vec::new(alloc),
        }
    }

    /// What it gathered, the oldest first.
    pub fn bodies(&self) -> &[Bytes]
        ensures { result.now ≡ self.now.bodies }
    {
        self.bodies.as_slice()
    }
}

// The same bytes again.
fn copied(alloc: Global, bytes: &[u8]) -> Result<Vec<u8>, AllocError>
    ensures { IfOk result (λ copy. copy.items ≡ bytes.now) }
{
    let mut copy = Vec::new(alloc);
    copy.extend_from_slice(bytes)?;
    Ok(copy)
}

impl Machine for Log {
    ghost use Rattle.sat_log.specs.Logs.{log_meaning, only_itself};

    type Input = Bytes;

    type Output = Appended;

    ghost meaning = { log_meaning };

    ghost exact = { only_itself };

    fn fits(&self, input: &Bytes) -> bool {
        input.as_slice().len() < 4_294_967_296
    }

    fn step(&mut self, input: Bytes) -> Result<Appended, AllocError> {
        if self.gathers {
            self.bodies.push(input)?;
        }
        Ok(Appended)
    }

    fn encode(&self, alloc: Global, input: &Bytes) -> Result<Vec<u8>, AllocError> {
        copied(alloc, input.as_slice())
    }

    fn decode(alloc: Global, body: &[u8]) -> Result<Option<Bytes>, AllocError> {
        let copy = copied(alloc, body)?;
        Ok(Some(Bytes::of(copy)))
    }
}
