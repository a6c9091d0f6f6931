//! What is known of a hub's node.
ghost use Rattle.std.specs.Prelude.{◌≡◌};
ghost use Rattle.sat_act.specs.Limits.{IsDeployment};
ghost use Rattle.sat_hub.specs.Seen.{IsHub};
ghost use Rattle.sat_node.specs.Links.{Tied};
ghost use Rattle.sat_node.specs.Meanings.{replay};
ghost use Rattle.sat_site.specs.Laws.{EachFits, EachStep};
ghost use Rattle.sat_machines.specs.Sites.{number_of};
ghost use Rattle.sat_parts.specs.HubSteps.{HasTimes};
ghost use Rattle.sat_parts.specs.Hubs.{HubStands, hub_meaning};

use sat_label::NodeName;
use sat_machines::Laid;
use sat_node::{Held, Names};
use sat_parts::HubNode;
use sat_site::site_laws;

/// It does nothing. Its contract says of a hub's node that its machine stands for the replay of its journal, what is
/// true of it, and what sites take and do, of which one has this hub.
pub fn sound<N: Laid + Names>(held: &Held<HubNode<N>, N>)
    ensures stands { HubStands N.deployment held.now.node.name held.now.node.machine
        (replay (hub_meaning N.deployment) held.now.node.name held.now.node.entries) }
    ensures tied { Tied (hub_meaning N.deployment) held.now }
    ensures deployment { IsDeployment N.deployment }
    ensures hub { IsHub held.now.node.machine }
    ensures times { HasTimes held.now.node.machine }
    ensures fits { EachFits }
    ensures steps { EachStep }
{
    let machine = held.node().machine();
    let _ = machine.hub().shape();
    // This brings its laws into the proof; it does nothing when it runs.
    site_laws();
}

/// The number of the node's site.
pub fn site_of<N: Laid + Names>(held: &Held<HubNode<N>, N>) -> u16
    ensures { result ≡ number_of held.now.node.name }
{
    match held.node().name() {
        NodeName::Site(site) => site,
        NodeName::Serializer { .. } => 0,
        NodeName::Gear { site, .. } => site,
    }
}

/// How many sites there are.
#[tactic(auto, using(crate::proofs::Sent::shape_sites))]
pub fn sites<N: Laid + Names>(held: &Held<HubNode<N>, N>) -> u16
    ensures sites { result ≡ N.deployment.sites }
{
    sound(held);
    held.node().machine().hub().shape().sites
}
