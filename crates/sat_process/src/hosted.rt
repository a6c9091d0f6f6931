//! The two kinds of node that a process can be.
ghost use Rattle.std.specs.Prelude.{◌≡◌, ◌-◌, ◌^◌, min, IfOk, OnErr, OnOk};
ghost use Rattle.sat_host_laws.specs.Messages.{SameHost};
ghost use Rattle.sat_process.specs.declared.hosted.Became.TheVariants.{Taken};
ghost use Rattle.sat_process.specs.Taking.{Takes};

use sat_act::Deployment;
use sat_handed::Handed;
use sat_host::Host;
use sat_node::Machine;
use std::alloc::AllocError;

/// What becomes of what a process is handed: it has an entry, which is on the disk; its turn comes later, so hand it
/// again; it was taken before; it does not fit; it has no spelling; a number is the greatest that there is; the disk's
/// journal is full; or memory ran out. Nothing changed where it has no entry.
#[derive(Clone, Copy, Debug, PartialEq, Eq)]
pub enum Became {
    Taken,
    Early,
    Again,
    Unfit,
    Unspelled,
    Worn,
    Full,
    Memory,
}

/// A node that a process can be: a site or a serializer.
pub trait Hosted: Machine + Drop {
    ghost use Rattle.std.specs.Prelude.{ℕ};
    ghost use Rattle.std.specs.declared.option.Option.{Option};
    ghost use Rattle.sat_act.specs.Deployed.{Deployed};
    ghost use Rattle.sat_node.specs.declared.kept.Body.{Body};
    ghost use Rattle.sat_host_laws.specs.Messages.{HostSeen};
    ghost use Rattle.sat_handed.specs.declared.handed.Handed.{Handed};
    ghost use Rattle.sat_process.specs.declared.hosted.Became.{Became};

    /// The deployment that it is of.
    ghost deployment: { Deployed };

    /// What an entry of this number and input was handed, where that was no message.
    ghost asked: { ℕ → Self.Input → Option Handed };

    /// What an entry of this input took of a link, where it was a message.
    ghost took: { Self.Input → Option Body };

    /// What would become of what it is handed.
    ghost would: { HostSeen Self Self.Input Self.Answer → Handed → Became };

    /// How many links it has.
    ghost link_count: { Self → ℕ };

    /// Its links, outgoing and incoming, are those from 0 up to this number, of at most 65,535.
    fn links(host: &Host<Self>, d: &Deployment) -> u16
        requires { deployment ≡ d.now }
        ensures { result ≡ min (link_count host.now.node.machine) (2 ^ 16 - 1) };

    /// What would become of what it is handed. Nothing changes.
    fn would(host: &Host<Self>, d: &Deployment, given: &Handed) -> Result<Became, AllocError>
        requires { deployment ≡ d.now }
        ensures { IfOk result (λ became. became ≡ would host.now given.now) };

    /// Takes what it would take. After an error nothing changed.
    fn take(host: &mut Host<Self>, d: &Deployment, given: Handed) -> Result<(), AllocError>
        requires deployment { deployment ≡ d.now }
        requires would { would host.old given ≡ Taken }
        ensures takes { OnOk result (Takes asked took given host.old host.new) }
        ensures err { OnErr result (SameHost host.old host.new) };
}
