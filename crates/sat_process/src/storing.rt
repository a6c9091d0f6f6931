//! All processes of a deployment.
ghost use Rattle.std.specs.Prelude.{◌≡◌, map};
ghost use Rattle.sat_label.specs.Words.{below};
ghost use Rattle.sat_label.specs.declared.node.NodeName.TheVariants.{Site as AtSite};
ghost use Rattle.sat_node.specs.Links.{Each};
ghost use Rattle.sat_opened.specs.Opened.{serial_names};
ghost use Rattle.sat_host_laws.specs.Messages.{AllKept, IsKept};
ghost use Rattle.sat_process.specs.Storing.{AreGood, AreOneRun, host_in, name_in};

use crate::hosted::Hosted;
use crate::process::Process;
use sat_durable::Disk;
use sat_handed::Transport;
use sat_host_store::storing;
use sat_machines::{Laid, SerialNode, SiteNode};

/// What all processes of a deployment are together, at any time between their calls, whatever they were handed and
/// however often they were stopped and begun again. Each has a host that keeps what hosts keep. Where the transports
/// made nothing up, and sessions noted what the hosts noted, the hosts' journals, merged, are one run, of which the
/// headline holds. It asks for a process of each site and of each serializer, once and in order; no call changes a
/// name.
pub fn processes_keep<D: Disk, T: Transport, E: Disk, U: Transport, N: Laid>(
    sites: &[Process<D, T, SiteNode<N>>],
    serials: &[Process<E, U, SerialNode<N>>],
)
    requires sites { map name_in sites.now ≡ map AtSite (below N.deployment.sites) }
    requires serials { map name_in serials.now ≡ serial_names N.deployment }
    ensures kept { AllKept N.deployment (map host_in sites.now) (map host_in serials.now) }
    ensures run { AreOneRun N.deployment (map host_in sites.now) (map host_in serials.now) }
    ensures good { AreGood N.deployment (map host_in sites.now) (map host_in serials.now) }
{
    look_all(sites);
    look_all(serials);
    // This brings its laws into the proof; it does nothing when it runs.
    storing();
}

// What the hosts of these processes keep.
fn look_all<D: Disk, T: Transport, M: Hosted>(processes: &[Process<D, T, M>])
    ensures { Each (map host_in processes.now) (λ _ h. IsKept M.meaning h) }
{
    for process in processes {
        look(process);
    }
}

// What the host of a process keeps.
fn look<D: Disk, T: Transport, M: Hosted>(process: &Process<D, T, M>)
    ensures { IsKept M.meaning process.now.host }
{
    let _ = process.host();
}
