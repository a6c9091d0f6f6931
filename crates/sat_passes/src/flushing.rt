//! What waits is sent.
ghost use Rattle.std.specs.Prelude.{◌≡◌, ◌<◌, length, IfErr, OnOk};
ghost use Rattle.sat_node.specs.declared.kept.CallFault.TheVariants.{Memory};
ghost use Rattle.sat_node.specs.Links.{OnlyAt};
ghost use Rattle.sat_node.specs.Puts.{Stopped};
ghost use Rattle.sat_passes.specs.Members.{Both};

use sat_node::{CallFault, Held, Machine, Names};
use std::sync::Wait;

// Sends what waits for a link, until all was sent or the link was full.
fn flush_one<M: Machine, N: Names, R: Wait>(
    rt: &R,
    held: &mut Held<M, N>,
    link: usize,
) -> Result<(), CallFault>
    requires { link < length held.old.outs }
    ensures node { held.new.node ≡ held.old.node }
    ensures ins { held.new.ins ≡ held.old.ins }
    ensures stopped { OnOk result (OnlyAt link (λ p o. Stopped held.old.node.entries p o) held.old.outs held.new.outs) }
    ensures fault { IfErr result (λ f. f ≡ Memory) }
{
    match held.flush(rt, link) {
        Ok(()) => Ok(()),
        Err(_) => Err(CallFault::Memory),
    }
}

/// Sends what waits for each link, until all was sent or the link was full. `Memory`: what was sent by then is sent.
pub fn flush_all<M: Machine, N: Names, R: Wait>(
    rt: &R,
    held: &mut Held<M, N>,
) -> Result<(), CallFault>
    ensures node { held.new.node ≡ held.old.node }
    ensures ins { held.new.ins ≡ held.old.ins }
    ensures stopped { OnOk result (Both (λ k p o. Stopped held.old.node.entries p o) held.old.outs held.new.outs) }
    ensures fault { IfErr result (λ f. f ≡ Memory) }
{
    let links = held.outs().len();
    for link in 0..links {
        if let Err(fault) = flush_one(rt, held, link) {
            return Err(fault);
        }
    }
    Ok(())
}
