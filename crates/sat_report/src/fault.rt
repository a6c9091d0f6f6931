//! The line of a script's fault.
ghost use Rattle.std.specs.Prelude.{◌≡◌, ◌++◌, OnOk, OnErr};
ghost use Rattle.sat_report.specs.Faults.{cause_name, fault_line};

use sat_script::{Cause, ScriptFault};
use std::alloc::AllocError;

#[tactic(auto, unfolding(crate::specs::Faults::cause_name))]
fn cause_name(cause: Cause) -> &'static str
    ensures { result.now ≡ cause_name cause }
{
    match cause {
        Cause::AfterEnd => "AfterEnd",
        Cause::LongLine => "LongLine",
        Cause::NoEnd => "NoEnd",
        Cause::NotText => "NotText",
        Cause::BadHeader => "BadHeader",
        Cause::BadAct => "BadAct",
        Cause::NotLive => "NotLive",
        Cause::TooMany => "TooMany",
        Cause::SameName => "SameName",
        Cause::UnknownName => "UnknownName",
        Cause::OutOfRange => "OutOfRange",
        Cause::BadTree => "BadTree",
        Cause::NoEdge => "NoEdge",
        Cause::BadGroup => "BadGroup",
        Cause::BadAnswer => "BadAnswer",
        Cause::SamePoint => "SamePoint",
        Cause::Memory => "Memory",
    }
}

/// Appends the line of a fault, `line N: CAUSE`. For want of memory `out` is as before.
#[tactic(auto, unfolding(crate::specs::Faults::fault_line))]
pub fn write_fault(fault: &ScriptFault, out: &mut Vec<u8>) -> Result<(), AllocError>
    ensures ok { OnOk result (out.new.items ≡ out.old.items ++ fault_line fault.now) }
    ensures err { OnErr result (out.new.items ≡ out.old.items) }
{
    let line = fault.line;
    let cause = cause_name(fault.cause);
    let text = format!(in *out.allocator(); "line {line}: {cause}\n")?;
    out.extend_from_slice(text.as_bytes())?;
    Ok(())
}
