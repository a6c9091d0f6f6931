//! What a site is handed as a machine of a node.
ghost use Rattle.std.specs.Prelude.{◌≡◌, ◌<◌, true, false, length, Some, None, IfOk};
ghost use Rattle.sat_machines.specs.Acts.{is_clients, IsBy};

use crate::Laid;
use sat_beat::Beat;
use sat_bulk::Payload;
use sat_site::SiteInput;
use std::alloc::AllocError;
use std::marker::{Model, PhantomData};

/// An input of a site, with the client whose act it is. A write, a read, a move and an attach are a client's, and
/// nothing else is.
#[derive(Drop)]
pub struct SiteAct<N: Laid> {
    by: Option<u16>,
    pub(crate) input: SiteInput,
    of: PhantomData<N>,
}

impl<N: Laid> Model for SiteAct<N> {
    ghost use Rattle.sat_machines.specs.Acts.{ActSeen, IsBy};

    ghost Value = { ActSeen };

    ghost view = { λ a. record { by = a.by; input = a.input } };

    ghost invariant = { λ a. IsBy N.deployment a.by a.input };
}

impl<N: Laid> SiteAct<N> {
    /// An input that is no client's act.
    pub fn of_site(input: SiteInput) -> SiteAct<N>
        requires { is_clients input ≡ false }
        ensures { result ≡ record { by = None; input = input } }
    {
        SiteAct {
            by: None,
            input,
            of: PhantomData,
        }
    }

    /// An act of the client of this number.
    pub fn of_client(client: u16, input: SiteInput) -> SiteAct<N>
        requires client { client < length N.deployment.clients }
        requires input { is_clients input ≡ true }
        ensures { result ≡ record { by = Some client; input = input } }
    {
        SiteAct {
            by: Some(client),
            input,
            of: PhantomData,
        }
    }

    /// The client whose act it is, None where it is none's.
    pub fn by(&self) -> Option<u16>
        ensures by { result ≡ self.now.by }
        ensures client { IsBy N.deployment self.now.by self.now.input }
    {
        self.by
    }

    /// The input.
    pub fn input(&self) -> &SiteInput
        ensures input { result.now ≡ self.now.input }
        ensures client { IsBy N.deployment self.now.by self.now.input }
    {
        &self.input
    }

    /// The same again.
    pub fn copy(&self) -> Result<SiteAct<N>, AllocError>
        ensures { IfOk result (λ act. act ≡ self.now) }
    {
        let input = copy_input(&self.input)?;
        Ok(SiteAct {
            by: self.by,
            input,
            of: PhantomData,
        })
    }
}

/// The same input again.
pub fn copy_input(input: &SiteInput) -> Result<SiteInput, AllocError>
    ensures { IfOk result (λ copy. copy ≡ input.now) }
{
    match input {
        SiteInput::Tick { gear, ts } => Ok(SiteInput::Tick {
            gear: *gear,
            ts: *ts,
        }),
        SiteInput::Write {
            carried,
            items,
            values,
        } => {
            let values = values.copy()?;
            Ok(SiteInput::Write {
                carried: *carried,
                items: *items,
                values,
            })
        }
        SiteInput::Read { carried, item } => Ok(SiteInput::Read {
            carried: *carried,
            item: *item,
        }),
        SiteInput::Move { carried, to } => Ok(SiteInput::Move {
            carried: *carried,
            to: *to,
        }),
        SiteInput::Attach { carried } => Ok(SiteInput::Attach { carried: *carried }),
        SiteInput::Gather => Ok(SiteInput::Gather),
        SiteInput::Emit => Ok(SiteInput::Emit),
        SiteInput::Pulse => Ok(SiteInput::Pulse),
        SiteInput::Turn { front } => Ok(SiteInput::Turn { front: *front }),
        SiteInput::Bulk {
            from,
            gear,
            number,
            payload,
        } => {
            let payload = payload.copy()?;
            Ok(SiteInput::Bulk {
                from: *from,
                gear: *gear,
                number: *number,
                payload,
            })
        }
        SiteInput::Beat { to } => Ok(SiteInput::Beat { to: *to }),
        SiteInput::BeatIn { from, number, beat } => {
            let beat = beat.copy()?;
            Ok(SiteInput::BeatIn {
                from: *from,
                number: *number,
                beat,
            })
        }
        SiteInput::Stamp => Ok(SiteInput::Stamp),
        SiteInput::Close => Ok(SiteInput::Close),
        SiteInput::Fall => Ok(SiteInput::Fall),
        SiteInput::Advance => Ok(SiteInput::Advance),
    }
}
