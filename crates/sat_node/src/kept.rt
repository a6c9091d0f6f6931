//! The entries of a journal, and what travels between nodes.
ghost use Rattle.std.specs.Prelude.{◌≡◌, IfOk};
ghost use Rattle.sat_node.specs.Links.{may_pass};

use sat_beat::Beat;
use sat_bulk::Payload;
use sat_label::Label;
use std::alloc::AllocError;

/// An entry of a journal: its Lamport number (Lamport, 1978), what came in and what was answered.
#[derive(Drop)]
pub struct Kept<I, A> {
    pub lamport: u64,
    pub input: I,
    pub answer: A,
}

/// Why a call changed nothing: the number is the greatest that there is, or memory ran out.
#[derive(Debug, Drop, PartialEq, Eq)]
pub enum CallFault {
    Worn(u64),
    Memory,
}

impl From<AllocError> for CallFault {
    ghost use Rattle.std.specs.Prelude.{◌≡◌};
    ghost use Rattle.sat_node.specs.declared.kept.CallFault.TheVariants.{Memory};

    ghost from_gives = { λ _ e. e ≡ Memory };

    fn from(_e: AllocError) -> CallFault {
        CallFault::Memory
    }
}

/// What travels between two nodes. A payload's number is how many payloads of its gear were put on that link before it,
/// a beat's how many beats.
#[derive(Drop)]
pub enum Body {
    Label(Label),
    Payload {
        gear: u16,
        number: u64,
        payload: Payload,
    },
    Beat {
        number: u64,
        beat: Beat,
    },
}

impl Body {
    /// The same again.
    pub fn copy(&self) -> Result<Body, AllocError>
        ensures { IfOk result (λ body. body ≡ self.now) }
    {
        match self {
            Body::Label(label) => Ok(Body::Label(*label)),
            Body::Payload {
                gear,
                number,
                payload,
            } => {
                let payload = payload.copy()?;
                Ok(Body::Payload {
                    gear: *gear,
                    number: *number,
                    payload,
                })
            }
            Body::Beat { number, beat } => {
                let beat = beat.copy()?;
                Ok(Body::Beat {
                    number: *number,
                    beat,
                })
            }
        }
    }

    // Whether it may be passed over.
    pub(crate) fn passes(&self) -> bool
        ensures { result ≡ may_pass self.now }
    {
        match self {
            Body::Label(_) => false,
            Body::Payload {
                gear: _,
                number: _,
                payload: _,
            } => true,
            Body::Beat { number: _, beat: _ } => true,
        }
    }
}

/// What an entry puts on a link, before it has its number there.
#[derive(Drop)]
pub enum Made {
    Label(Label),
    Payload { gear: u16, payload: Payload },
    Beat(Beat),
}

/// A message on its way, with the Lamport number of the entry that put it there.
#[derive(Drop)]
pub struct Envelope {
    pub lamport: u64,
    pub body: Body,
}
