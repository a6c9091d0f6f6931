//! A tree of serializers from a text of delays.
ghost use Rattle.std.specs.Prelude.{ℕ, ◌≡◌, ◌≢◌, ◌≤◌, IfOk};
ghost use Rattle.sat_delay.specs.Texts.{fault_text};
ghost use Rattle.sat_plan.specs.Config.{delayed};
ghost use Rattle.sat_plan.specs.Mismatch.{mismatch};
ghost use Rattle.sat_plan.specs.Steps.{built};
ghost use Rattle.sat_plan.specs.Texts.{config_text};
ghost use Rattle.sat_top.specs.Whole.{IsPlanned};

use crate::output::Output;
use sat_delay::{DelayFault, Delays, read_delays, write_delay_fault};
use sat_plan::{build, write_built};
use std::alloc::{AllocError, Global};

// The text of the tree that is built from a table.
fn built_text(alloc: Global, delays: &Delays) -> Result<Vec<u8>, AllocError>
    ensures text { IfOk result (λ text. text.items
        ≡ config_text (built delays.now) (mismatch delays.now (built delays.now))) }
    ensures best { IfOk result (λ _. (e delay : ℕ) → mismatch delays.now (built delays.now)
        ≤ mismatch delays.now (delayed (built delays.now) e delay)) }
{
    let tree = build(alloc, delays)?;
    let mut text = Vec::new(alloc);
    write_built(&tree, &mut text)?;
    Ok(text)
}

// The line of a fault, with status 1. Want of memory has no line.
fn fault_output(alloc: Global, fault: &DelayFault) -> Result<Output, AllocError>
    ensures { IfOk result (λ out. (fault.now ≢ DelayFault.Memory) × (out.text.items ≡ fault_text fault.now)
        × (out.status ≡ 1)) }
{
    if let DelayFault::Memory = fault {
        return Err(AllocError);
    }
    let mut text = Vec::new(alloc);
    write_delay_fault(fault, &mut text)?;
    Ok(Output { text, status: 1 })
}

/// The text of the tree that is built from a text of delays, with status 0, or the line of its first fault, with status
/// 1.
pub(crate) fn plan_of(alloc: Global, bytes: &[u8]) -> Result<Output, AllocError>
    ensures { IfOk result (λ out. IsPlanned bytes.now out.text.items out.status) }
{
    match read_delays(alloc, bytes) {
        Ok(delays) => {
            let text = built_text(alloc, &delays)?;
            Ok(Output { text, status: 0 })
        }
        Err(fault) => {
            let output = fault_output(alloc, &fault)?;
            Ok(output)
        }
    }
}
