//! The line of a fault.
ghost use Rattle.std.specs.Prelude.{◌≡◌, ◌++◌, IfOk, OnOk, OnErr, string_bytes};
ghost use Rattle.sat_delay.specs.Texts.{place_text, cause_text, fault_line, fault_text};

use crate::number::key_name;
use crate::{DelayFault, Place};
use std::alloc::{AllocError, Global};

#[tactic(auto, unfolding(crate::specs::Texts::place_text))]
fn place_text(alloc: Global, place: Place) -> Result<String, AllocError>
    ensures { IfOk result (λ text. string_bytes text ≡ place_text place) }
{
    let (key, row, column) = (key_name(place.key), place.row, place.column);
    format!(in alloc; " {key} {row} {column}")
}

#[tactic(auto, unfolding(crate::specs::Texts::cause_text))]
fn cause_text(alloc: Global, fault: &DelayFault) -> Result<String, AllocError>
    ensures { IfOk result (λ text. string_bytes text ≡ cause_text fault.now) }
{
    match fault {
        DelayFault::TooLong => String::from_str(alloc, "TooLong"),
        DelayFault::NotJson => String::from_str(alloc, "NotJson"),
        DelayFault::BadShape(place) => {
            let place = place_text(alloc, *place)?;
            format!(in alloc; "BadShape{place}")
        }
        DelayFault::TooBig(place) => {
            let place = place_text(alloc, *place)?;
            format!(in alloc; "TooBig{place}")
        }
        DelayFault::Memory => String::from_str(alloc, "Memory"),
    }
}

/// Appends the line of a fault, `WORD: CAUSE`, where the word is a command's, and BadShape and TooBig have the key, row
/// and column after them. For want of memory `out` is as before.
#[tactic(auto, unfolding(crate::specs::Texts::fault_line))]
pub fn write_fault(word: &str, fault: &DelayFault, out: &mut Vec<u8>) -> Result<(), AllocError>
    ensures ok { OnOk result (out.new.items ≡ out.old.items ++ fault_line word.now fault.now) }
    ensures err { OnErr result (out.new.items ≡ out.old.items) }
{
    let alloc = *out.allocator();
    let cause = cause_text(alloc, fault)?;
    let text = format!(in alloc; "{word}: {cause}\n")?;
    out.extend_from_slice(text.as_bytes())?;
    Ok(())
}

/// Appends the line of a fault of a text of delays, `plan: CAUSE`, as [`write_fault`] does.
#[tactic(auto, unfolding(crate::specs::Texts::fault_text, crate::specs::Texts::fault_line))]
pub fn write_delay_fault(fault: &DelayFault, out: &mut Vec<u8>) -> Result<(), AllocError>
    ensures ok { OnOk result (out.new.items ≡ out.old.items ++ fault_text fault.now) }
    ensures err { OnErr result (out.new.items ≡ out.old.items) }
{
    write_fault("plan", fault, out)
}
