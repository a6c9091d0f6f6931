//! What a host is handed by itself, by a client or by an operator, and by no message.
ghost use Rattle.std.specs.Prelude.{◌≡◌, ◌&&◌, true, false, IfErr, IfOk, OnErr};
ghost use Rattle.sat_node.specs.Meanings.{replay};
ghost use Rattle.sat_site.specs.Inputs.{fits_in};
ghost use Rattle.sat_machines.specs.declared.serial_act.SerialAct.TheVariants.{Kill};
ghost use Rattle.sat_machines.specs.Serials.{serial_meaning};
ghost use Rattle.sat_machines.specs.Sites.{site_meaning};
ghost use Rattle.sat_host_laws.specs.Messages.{SameHost};
ghost use Rattle.sat_host.specs.Locals.{Acts, ActsOne, is_local};
ghost use Rattle.sat_host.specs.Turns.{FailsBy};

use crate::host::Host;
use sat_machines::{Laid, SerialAct, SerialAnswer, SerialNode, SiteAct, SiteAnswer, SiteNode};
use sat_node::{CallFault, Machine};
use sat_site::SiteInput;

// Whether an input takes nothing from a link.
fn is_local(input: &SiteInput) -> bool
    ensures { result ≡ is_local input.now }
{
    match input {
        SiteInput::Tick { .. } => true,
        SiteInput::Write { .. } => true,
        SiteInput::Read { .. } => true,
        SiteInput::Move { .. } => true,
        SiteInput::Attach { .. } => true,
        SiteInput::Gather => true,
        SiteInput::Emit => true,
        SiteInput::Pulse => true,
        SiteInput::Turn { .. } => false,
        SiteInput::Bulk { .. } => false,
        SiteInput::Beat { .. } => true,
        SiteInput::BeatIn { .. } => false,
        SiteInput::Stamp => true,
        SiteInput::Close => true,
        SiteInput::Fall => true,
        SiteInput::Advance => true,
    }
}

// Takes an input that fits and takes nothing from a link.
fn take_local<N: Laid>(
    host: &mut Host<SiteNode<N>>,
    heard: u64,
    act: SiteAct<N>,
) -> Result<SiteAnswer, CallFault>
    requires local { is_local act.input ≡ true }
    requires fits { fits_in host.old.node.machine act.input ≡ true }
    ensures taken { IfOk result (λ a. ActsOne (site_meaning N.deployment) heard act a host.old host.new) }
    ensures err { OnErr result (SameHost host.old host.new) }
    ensures fault { IfErr result (FailsBy host.old heard) }
{
    let Ok(copy) = act.copy() else {
        return Err(CallFault::Memory);
    };
    host.act(heard, act, copy)
}

/// Hands a site what no message brings: a client's act, an operator's, or what the site does by itself. The number
/// heard is that of whoever asks, 0 for the site itself. `None`, and nothing changed, exactly where it is a turn, a
/// payload or a beat of another site, or does not fit the site. `Worn` only where the node's number or the one heard is
/// the greatest, and `Memory`; then all is as before.
#[tactic(auto, using(crate::proofs::Locals::not_first, crate::proofs::Locals::not_second, crate::proofs::Locals::both_are))]
pub fn act_at_site<N: Laid>(
    host: &mut Host<SiteNode<N>>,
    heard: u64,
    act: SiteAct<N>,
) -> Result<Option<SiteAnswer>, CallFault>
    ensures acts { IfOk result (Acts (site_meaning N.deployment) heard act
        (is_local act.input && fits_in host.old.node.machine act.input) host.old host.new) }
    ensures err { OnErr result (SameHost host.old host.new) }
    ensures fault { IfErr result (FailsBy host.old heard) }
{
    if !is_local(act.input()) {
        return Ok(None);
    }
    if !host.node().machine().fits(&act) {
        return Ok(None);
    }
    match take_local(host, heard, act) {
        Ok(answer) => Ok(Some(answer)),
        Err(fault) => Err(fault),
    }
}

/// Stops a serializer for good: it takes no label any more. Errors as in `act_at_site`.
pub fn kill_at_serializer<N: Laid>(
    host: &mut Host<SerialNode<N>>,
    heard: u64,
) -> Result<SerialAnswer, CallFault>
    ensures taken { IfOk result (λ a. ActsOne (serial_meaning N.deployment) heard Kill a host.old host.new) }
    ensures err { OnErr result (SameHost host.old host.new) }
    ensures fault { IfErr result (FailsBy host.old heard) }
{
    host.act(heard, SerialAct::Kill, SerialAct::Kill)
}
