//! A large script.
ghost use Rattle.std.specs.Prelude.{◌≡◌, ◌≤◌, ◌+◌, ◌++◌, length, IfOk, OnOk};
ghost use Rattle.sat_script.specs.Spelled.{Spells, spelling};
ghost use Rattle.sat_settle.specs.LoadActs.{load_acts};
ghost use Rattle.sat_settle.specs.LoadHeader.{load_deployment};

use crate::load_acts::LoadActs;
use crate::load_draft::act_of;
use crate::load_header::deployment;
use sat_act::{Acts, Deployment};
use sat_stream::Script;
use std::alloc::{AllocError, Global};

/// The most acts that are drawn for a script.
pub const MOST_LOADED: u32 = 199_000;

// Adds the acts that are to come.
fn push_all(
    alloc: Global,
    d: &Deployment,
    mut coming: LoadActs,
    acts: &mut Acts,
) -> Result<(), AllocError>
    requires { d.now ≡ load_deployment }
    ensures { OnOk result (acts.new ≡ acts.old ++ coming) }
{
    while let Some(draft) = coming.next(d) {
        acts.push(act_of(alloc, draft)?)?;
    }
    Ok(())
}

/// The script of a seed and of `count` acts that are drawn, from 2 on: writes, reads, moves, attaches, ticks, gathers,
/// emits, pulses, hops, bulks and turns of 5 sites, in their middle every site's `close`, and last `settle`. It is one
/// that `read_script` takes, with `count` + 6 acts.
pub fn load(alloc: Global, seed: u64, count: u32) -> Result<Script, AllocError>
    requires some { 2 ≤ count }
    requires few { count ≤ MOST_LOADED }
    ensures deployment { IfOk result (λ script. script.deployment ≡ load_deployment) }
    ensures acts { IfOk result (λ script. script.acts ≡ load_acts seed count) }
    ensures spelled { Spells (spelling load_deployment (load_acts seed count)) load_deployment (load_acts seed count) }
    ensures count { length (load_acts seed count) ≡ count + 6 }
{
    let coming = LoadActs::new(seed, count);
    let deployment = deployment(alloc)?;
    let mut acts = Acts::new(alloc);
    push_all(alloc, &deployment, coming, &mut acts)?;
    Ok(Script { deployment, acts })
}
