//! What is known of the nodes of a site.
ghost use Rattle.std.specs.Prelude.{◌≡◌};
ghost use Rattle.sat_act.specs.Limits.{IsDeployment};
ghost use Rattle.sat_gear.specs.Gear.{IsGear};
ghost use Rattle.sat_node.specs.Meanings.{Runs, replay};
ghost use Rattle.sat_parts.specs.Gears.{GearStands, gear_meaning};
ghost use Rattle.sat_parts.specs.Hubs.{hub_meaning};

use sat_machines::Laid;
use sat_node::{Held, Names};
use sat_parts::{GearNode, HubNode};

/// It does nothing. Its contract says of a gear's node that its machine stands for the replay of its journal, and what
/// is true of it.
pub fn gear_sound<N: Laid + Names>(held: &Held<GearNode<N>, N>)
    ensures stands { GearStands N.deployment held.now.node.name held.now.node.machine
        (replay (gear_meaning N.deployment) held.now.node.name held.now.node.entries) }
    ensures deployment { IsDeployment N.deployment }
    ensures gear { IsGear held.now.node.machine }
{
    let machine = held.node().machine();
    let _ = machine.gear().promise();
}

/// It does nothing. Its contract says that a hub's journal is a run.
pub fn hub_runs<N: Laid + Names>(held: &Held<HubNode<N>, N>)
    ensures { Runs (hub_meaning N.deployment) held.now.node.name held.now.node.entries }
{
    let _ = held.node().journal();
}
