//! The names of a deployment are names.
ghost use Rattle.std.specs.List.{AllByRecursion};
ghost use Rattle.sat_script.specs.Spelled.{HaveNames};
ghost use Rattle.sat_live.specs.Naming.{IsNamedClient, IsNamedItem};

use sat_act::{ClientLine, Deployment, Item};

#[tactic(auto, using(crate::proofs::Members::all_next, crate::proofs::Members::all_whole))]
fn item_names(items: &[Item])
    ensures { AllByRecursion IsNamedItem items.now }
{
    'items: for item in items {
        let _ = item.name.bytes();
    }
}

#[tactic(auto, using(crate::proofs::Members::all_next, crate::proofs::Members::all_whole))]
fn client_names(clients: &[ClientLine])
    ensures { AllByRecursion IsNamedClient clients.now }
{
    'clients: for client in clients {
        let _ = client.name.bytes();
    }
}

/// Tells the prover what the types of names keep; it does nothing else when it runs.
pub(crate) fn have_names(d: &Deployment)
    ensures { HaveNames d.now }
{
    item_names(d.items());
    client_names(d.clients());
}
