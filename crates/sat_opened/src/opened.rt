//! All nodes of a deployment out of their locks.
ghost use Rattle.std.specs.Prelude.{◌≡◌, map};
ghost use Rattle.sat_label.specs.Words.{below};
ghost use Rattle.sat_label.specs.declared.node.NodeName.TheVariants.{Site as AtSite};
ghost use Rattle.sat_act.specs.Limits.{IsDeployment};
ghost use Rattle.sat_node.specs.Links.{Each};
ghost use Rattle.sat_opened.specs.Opened.{IsOpened, AllOpened, name_in, serial_names};
ghost use Rattle.sat_opened.specs.Laws.{NodesFit};

use sat_act::Deployment;
use sat_machines::{Laid, SerialNode, SiteNode};
use sat_node::{Held, Machine, Names, agree_all, agree_within};

/// Every site of a deployment, and every serializer of its trees, each once and in order. Their journals fit together.
/// The nodes stay as they are.
pub fn open_nodes<N: Laid, W: Names>(
    d: &Deployment,
    sites: &mut Vec<Held<SiteNode<N>, W>>,
    serials: &mut Vec<Held<SerialNode<N>, W>>,
)
    requires deployment { N.deployment ≡ d.now }
    requires sites { map name_in sites.old.items ≡ map AtSite (below N.deployment.sites) }
    requires serials { map name_in serials.old.items ≡ serial_names N.deployment }
    ensures same { (sites.new.items ≡ sites.old.items) × (serials.new.items ≡ serials.old.items) }
    ensures opened { AllOpened N.deployment sites.old.items serials.old.items }
    ensures fit { NodesFit N.deployment sites.old.items serials.old.items }
{
    limits(d);
    look_all(sites.as_slice());
    look_all(serials.as_slice());
    agree_within(sites);
    agree_within(serials);
    agree_all(sites, serials);
    agree_all(serials, sites);
}

// What is true of a deployment.
fn limits(d: &Deployment)
    ensures { IsDeployment d.now }
{
    let _ = d.sites();
}

// What each of these nodes keeps.
fn look_all<M: Machine, W: Names>(nodes: &[Held<M, W>])
    ensures { Each nodes.now (λ _ h. IsOpened M.meaning h) }
{
    for node in nodes {
        look(node);
    }
}

// What a node keeps.
fn look<M: Machine, W: Names>(held: &Held<M, W>)
    ensures { IsOpened M.meaning held.now }
{
    let node = held.node();
    let _ = node.journal();
    let _ = node.lamport();
}
