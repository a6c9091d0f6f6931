//! The verdict on a history from a text.
ghost use Rattle.std.specs.Prelude.{◌≡◌, ◌≢◌, IfOk, Err, IfErr, Ok};
ghost use Rattle.sat_report.specs.Faults.{fault_line};
ghost use Rattle.sat_audit.specs.Histories.{IsHistory};
ghost use Rattle.sat_audit.specs.Judging.{is_yes, verdict_of, verdict_text, IsVerdictOf};
ghost use Rattle.sat_top.specs.Auditing.{heard_in, line_behind, verdict_status, IsAudited};
ghost use Rattle.sat_script.specs.declared.fault.Cause.TheVariants.{Memory};

use crate::output::Output;
use sat_audit::{History, audit, is_yes, read_history, write_verdict};
use sat_report::write_fault;
use sat_script::{Cause, ScriptFault};
use std::alloc::{AllocError, Global};

/// The most bytes of a history that are read. No good one has so many.
pub const MOST_HISTORY_BYTES: usize = 268_435_456;

// The line behind the last one of a history.
fn line_behind(history: &History) -> u64
    ensures { result ≡ line_behind history.now }
{
    let deployment = &history.deployment;
    6 + deployment.items().len() as u64
        + deployment.clients().len() as u64
        + deployment.plans().len() as u64
        + history.heard.as_slice().len() as u64
}

// The history of a text, or its first bad line.
#[tactic(auto, unfolding(crate::specs::Auditing::heard_in))]
fn heard_in(alloc: Global, bytes: &[u8]) -> Result<History, ScriptFault>
    ensures ok { IfOk result (λ history. heard_in bytes.now ≡ Ok history) }
    ensures err { IfErr result (λ fault. fault.cause ≢ Memory → heard_in bytes.now ≡ Err fault) }
    ensures history { IfOk result (λ history. IsHistory history) }
{
    if bytes.len() <= MOST_HISTORY_BYTES {
        return read_history(alloc, bytes);
    }
    match read_history(alloc, &bytes[..MOST_HISTORY_BYTES]) {
        Ok(history) => Err(ScriptFault {
            line: line_behind(&history),
            cause: Cause::AfterEnd,
        }),
        Err(fault) => Err(fault),
    }
}

// The verdict on a history, with status 0 or 7.
fn verdict_output(alloc: Global, history: &History) -> Result<Output, AllocError>
    requires { IsHistory history.now }
    ensures text { IfOk result (λ out. out.text.items ≡ verdict_text (verdict_of history.now)) }
    ensures status { IfOk result (λ out. out.status ≡ verdict_status (is_yes (verdict_of history.now))) }
    ensures verdict { IfOk result (λ _. IsVerdictOf history.now (verdict_of history.now)) }
{
    let verdict = audit(alloc, history)?;
    let status = if is_yes(&verdict) { 0 } else { 7 };
    let mut text = Vec::new(alloc);
    write_verdict(&verdict, &mut text)?;
    Ok(Output { text, status })
}

// The line of a fault, with status 1. Want of memory has no line.
fn fault_output(alloc: Global, fault: &ScriptFault) -> Result<Output, AllocError>
    ensures { IfOk result (λ out. (fault.now.cause ≢ Memory) × (out.text.items ≡ fault_line fault.now)
        × (out.status ≡ 1)) }
{
    if fault.cause == Cause::Memory {
        return Err(AllocError);
    }
    let mut text = Vec::new(alloc);
    write_fault(fault, &mut text)?;
    Ok(Output { text, status: 1 })
}

/// The verdict on the history that a text spells, with status 0 where it is a yes for each law, else with 7; or the
/// line of its first fault, with status 1.
pub(crate) fn audit_of(alloc: Global, bytes: &[u8]) -> Result<Output, AllocError>
    ensures { IfOk result (λ out. IsAudited bytes.now out.text.items out.status) }
{
    match heard_in(alloc, bytes) {
        Ok(history) => {
            let output = verdict_output(alloc, &history)?;
            Ok(output)
        }
        Err(fault) => {
            let output = fault_output(alloc, &fault)?;
            Ok(output)
        }
    }
}
