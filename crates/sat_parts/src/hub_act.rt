//! What a hub is handed as a machine of a node.
ghost use Rattle.std.specs.Prelude.{◌≡◌, ◌<◌, true, false, length, Some, None, IfOk};
ghost use Rattle.sat_parts.specs.Acts.{is_hub_clients, IsBy};

use crate::hub_input::HubInput;
use sat_machines::Laid;
use std::alloc::AllocError;
use std::marker::{Model, PhantomData};

/// An input of a hub, with the client whose act it is. An attach is a client's, and nothing else is.
#[derive(Drop)]
pub struct HubAct<N: Laid> {
    by: Option<u16>,
    pub(crate) input: HubInput,
    of: PhantomData<N>,
}

impl<N: Laid> Model for HubAct<N> {
    ghost use Rattle.sat_parts.specs.Acts.{HubActSeen, IsBy, is_hub_clients};

    ghost Value = { HubActSeen };

    ghost view = { λ a. record { by = a.by; input = a.input } };

    ghost invariant = { λ a. IsBy N.deployment a.by (is_hub_clients a.input) };
}

impl<N: Laid> HubAct<N> {
    /// An input that is no client's act.
    pub fn of_hub(input: HubInput) -> HubAct<N>
        requires { is_hub_clients input ≡ false }
        ensures { result ≡ record { by = None; input = input } }
    {
        HubAct {
            by: None,
            input,
            of: PhantomData,
        }
    }

    /// An act of the client of this number.
    pub fn of_client(client: u16, input: HubInput) -> HubAct<N>
        requires client { client < length N.deployment.clients }
        requires input { is_hub_clients input ≡ true }
        ensures { result ≡ record { by = Some client; input = input } }
    {
        HubAct {
            by: Some(client),
            input,
            of: PhantomData,
        }
    }

    /// The client whose act it is, None where it is none's.
    pub fn by(&self) -> Option<u16>
        ensures by { result ≡ self.now.by }
        ensures client { IsBy N.deployment self.now.by (is_hub_clients self.now.input) }
    {
        self.by
    }

    /// The input.
    pub fn input(&self) -> &HubInput
        ensures input { result.now ≡ self.now.input }
        ensures client { IsBy N.deployment self.now.by (is_hub_clients self.now.input) }
    {
        &self.input
    }

    /// The same again.
    pub fn copy(&self) -> Result<HubAct<N>, AllocError>
        ensures { IfOk result (λ act. act ≡ self.now) }
    {
        let input = copy_input(&self.input)?;
        Ok(HubAct {
            by: self.by,
            input,
            of: PhantomData,
        })
    }
}

/// The same input again.
pub fn copy_input(input: &HubInput) -> Result<HubInput, AllocError>
    ensures { IfOk result (λ copy. copy ≡ input.now) }
{
    match input {
        HubInput::Attach { carried } => Ok(HubInput::Attach { carried: *carried }),
        HubInput::Gather { drained } => {
            let drained = drained.copy()?;
            Ok(HubInput::Gather { drained })
        }
        HubInput::Emit => Ok(HubInput::Emit),
        HubInput::Pulse => Ok(HubInput::Pulse),
        HubInput::Turn { front } => Ok(HubInput::Turn { front: *front }),
        HubInput::Bulk {
            from,
            gear,
            number,
            payload,
        } => {
            let payload = payload.copy()?;
            Ok(HubInput::Bulk {
                from: *from,
                gear: *gear,
                number: *number,
                payload,
            })
        }
        HubInput::Beat { to } => Ok(HubInput::Beat { to: *to }),
        HubInput::BeatIn { from, number, beat } => {
            let beat = beat.copy()?;
            Ok(HubInput::BeatIn {
                from: *from,
                number: *number,
                beat,
            })
        }
        HubInput::Stamp => Ok(HubInput::Stamp),
        HubInput::Close => Ok(HubInput::Close),
        HubInput::Fall => Ok(HubInput::Fall),
        HubInput::Advance => Ok(HubInput::Advance),
    }
}
