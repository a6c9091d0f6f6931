//! What a gear's node sends over its lanes.
ghost use Rattle.std.specs.Prelude.{◌≡◌, IfErr, OnOk};
ghost use Rattle.sat_node.specs.declared.kept.CallFault.TheVariants.{Memory};
ghost use Rattle.sat_node.specs.Links.{Both};
ghost use Rattle.sat_parts.specs.Gears.{gear_puts};
ghost use Rattle.sat_parts_passes.specs.Waiting.{SentOrFull};

use sat_machines::Laid;
use sat_node::{CallFault, Held, Machine, Names};
use sat_parts::GearNode;
use sat_passes::flush_all;
use std::sync::Wait;

/// Sends what a node's journal puts on each link and was not yet sent, until all was sent or the link was full.
/// `Memory`: what was sent by then is sent.
pub fn send_waiting<M: Machine, N: Names, R: Wait>(
    rt: &R,
    held: &mut Held<M, N>,
) -> Result<(), CallFault>
    ensures node { held.new.node ≡ held.old.node }
    ensures ins { held.new.ins ≡ held.old.ins }
    ensures sent { OnOk result (Both
        (λ k p o. SentOrFull (M.meaning.puts held.old.node.name k) held.old.node.entries p o)
        held.old.outs held.new.outs) }
    ensures fault { IfErr result (λ f. f ≡ Memory) }
{
    if let Err(fault) = flush_all(rt, held) {
        return Err(fault);
    }
    // This brings into the proof what ties the journal to its links; it does nothing when it runs.
    let _ = held.node();
    Ok(())
}

/// A gear's pass: it sends what waits for each lane, until all was sent or the lane was full. It keeps no entry. After
/// Ok each payload that the gear made for a site stands in the sent list of its lane, or that lane was found full in
/// this call, which was counted. `Memory`: what was sent by then is sent.
pub fn send_payloads<N: Laid + Names, R: Wait>(
    rt: &R,
    held: &mut Held<GearNode<N>, N>,
) -> Result<(), CallFault>
    ensures node { held.new.node ≡ held.old.node }
    ensures ins { held.new.ins ≡ held.old.ins }
    ensures sent { OnOk result (Both
        (λ k p o. SentOrFull (gear_puts held.old.node.name k) held.old.node.entries p o) held.old.outs held.new.outs) }
    ensures fault { IfErr result (λ f. f ≡ Memory) }
{
    send_waiting(rt, held)
}
