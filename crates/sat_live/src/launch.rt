//! The call.
ghost use Rattle.std.specs.Prelude.{◌≡◌, ◌<◌, ◌⊎◌, IfOk};
ghost use Rattle.sat_script.specs.Spelled.{AreActsOf};
ghost use Rattle.sat_live.specs.Told.{IsTold};

use crate::nodes::{Came, come};
use crate::telling::{Told, tell, tell_apart, tell_differ};
use sat_act::{Act, Deployment};
use sat_outside::Gate;
use sat_parts_wires::Wires;
use std::alloc::{AllocError, Global};
use std::marker::Brand;
use std::sync::Wait;
use std::thread::Threads;
use std::time::Clock;

// The most messages that stand on a link.
const LINK_ROOM: usize = 64;

/// Does a script at the hubs, gears and serializers of its deployment, each under a lock of its own: the acts of each
/// client and those of the operator are done in their order on a thread for each, each serializer makes its passes on
/// one, and so does each site, those of its hub and of its gears. The text is the script of their one journal and the
/// report of its run, with status 0; else what is not the same, with 6, or what is missing, with 8. Acts of no client
/// and not of the operator are not done.
pub fn live<R: Threads + Wait + Clock + Sync, G: Gate>(
    rt: &R,
    alloc: Global,
    d: Deployment,
    acts: &[Act],
    gate: &G,
) -> Result<Told, AllocError>
    requires { AreActsOf d acts.now }
    ensures told { IfOk result (λ told. IsTold d acts.now told.text.items told.status) }
    ensures status { IfOk result (λ told. (told.status ≡ 0) ⊎ (told.status ≡ 6) ⊎ (told.status ≡ 8)) }
{
    live_over(rt, alloc, d, acts, gate, LINK_ROOM)
}

/// `live` over links on each of which at most `capacity` messages stand. What it promises is the same at every capacity
/// from 1 on.
#[tactic(auto, using(crate::proofs::Outcomes::told_apart, crate::proofs::Outcomes::told_differ, crate::proofs::Outcomes::told_status))]
pub fn live_over<R: Threads + Wait + Clock + Sync, G: Gate>(
    rt: &R,
    alloc: Global,
    d: Deployment,
    acts: &[Act],
    gate: &G,
    capacity: usize,
) -> Result<Told, AllocError>
    requires acts { AreActsOf d acts.now }
    requires capacity { 0 < capacity }
    ensures told { IfOk result (λ told. IsTold d acts.now told.text.items told.status) }
    ensures status { IfOk result (λ told. (told.status ≡ 0) ⊎ (told.status ≡ 6) ⊎ (told.status ≡ 8)) }
{
    let copy = d.copy()?;
    let wires = Wires::new(alloc, &copy, capacity)?;
    match come::<Brand, R, G>(rt, alloc, copy, wires, d.clients(), acts, gate) {
        Came::Whole(journal) => tell(alloc, &d, acts, journal.as_slice()),
        Came::Differ { node, session } => tell_differ(alloc, &d, acts, &node, &session),
        Came::Apart {
            lamport,
            home,
            other,
        } => tell_apart(alloc, &d, acts, lamport, &home, &other),
        Came::Memory => Err(AllocError),
    }
}
