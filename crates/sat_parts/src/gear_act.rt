//! What a gear is handed as a machine of a node.
ghost use Rattle.std.specs.Prelude.{◌≡◌, ◌<◌, true, false, length, Some, None, IfOk};
ghost use Rattle.sat_parts.specs.Acts.{is_gear_clients, IsBy};

use crate::gear_input::GearInput;
use sat_machines::Laid;
use std::alloc::AllocError;
use std::marker::{Model, PhantomData};

/// An input of a gear, with the client whose act it is. A write, a read and a move are a client's, also at a gear that
/// shows its part of a write at another one, and nothing else is.
#[derive(Drop)]
pub struct GearAct<N: Laid> {
    by: Option<u16>,
    pub(crate) input: GearInput,
    of: PhantomData<N>,
}

impl<N: Laid> Model for GearAct<N> {
    ghost use Rattle.sat_parts.specs.Acts.{GearActSeen, IsBy, is_gear_clients};

    ghost Value = { GearActSeen };

    ghost view = { λ a. record { by = a.by; input = a.input } };

    ghost invariant = { λ a. IsBy N.deployment a.by (is_gear_clients a.input) };
}

impl<N: Laid> GearAct<N> {
    /// An input that is no client's act.
    pub fn of_gear(input: GearInput) -> GearAct<N>
        requires { is_gear_clients input ≡ false }
        ensures { result ≡ record { by = None; input = input } }
    {
        GearAct {
            by: None,
            input,
            of: PhantomData,
        }
    }

    /// An act of the client of this number.
    pub fn of_client(client: u16, input: GearInput) -> GearAct<N>
        requires client { client < length N.deployment.clients }
        requires input { is_gear_clients input ≡ true }
        ensures { result ≡ record { by = Some client; input = input } }
    {
        GearAct {
            by: Some(client),
            input,
            of: PhantomData,
        }
    }

    /// The client whose act it is, None where it is none's.
    pub fn by(&self) -> Option<u16>
        ensures by { result ≡ self.now.by }
        ensures client { IsBy N.deployment self.now.by (is_gear_clients self.now.input) }
    {
        self.by
    }

    /// The input.
    pub fn input(&self) -> &GearInput
        ensures input { result.now ≡ self.now.input }
        ensures client { IsBy N.deployment self.now.by (is_gear_clients self.now.input) }
    {
        &self.input
    }

    /// The same again.
    pub fn copy(&self) -> Result<GearAct<N>, AllocError>
        ensures { IfOk result (λ act. act ≡ self.now) }
    {
        let input = copy_input(&self.input)?;
        Ok(GearAct {
            by: self.by,
            input,
            of: PhantomData,
        })
    }
}

/// The same input again.
pub fn copy_input(input: &GearInput) -> Result<GearInput, AllocError>
    ensures { IfOk result (λ copy. copy ≡ input.now) }
{
    match input {
        GearInput::Tick { ts } => Ok(GearInput::Tick { ts: *ts }),
        GearInput::Write {
            carried,
            items,
            values,
        } => {
            let values = values.copy()?;
            Ok(GearInput::Write {
                carried: *carried,
                items: *items,
                values,
            })
        }
        GearInput::Read { carried, item } => Ok(GearInput::Read {
            carried: *carried,
            item: *item,
        }),
        GearInput::Move { carried, to } => Ok(GearInput::Move {
            carried: *carried,
            to: *to,
        }),
        GearInput::Drain {
            drained,
            labels,
            stable,
        } => {
            let drained = drained.copy()?;
            Ok(GearInput::Drain {
                drained,
                labels: *labels,
                stable: *stable,
            })
        }
        GearInput::Show { by, payload } => {
            let payload = payload.copy()?;
            Ok(GearInput::Show { by: *by, payload })
        }
    }
}
