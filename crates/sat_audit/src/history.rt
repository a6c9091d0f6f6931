//! The text of a history.
ghost use Rattle.std.specs.Prelude.{◌≡◌, ◌≢◌, Ok, Err, IfOk, IfErr};
ghost use Rattle.sat_audit.specs.Histories.{IsHistory};
ghost use Rattle.sat_audit.specs.Texts.{history_of};

use crate::History;
use crate::lines::take_line;
use crate::made::Noted;
use crate::words::cut_at;
use sat_script::{Cause, Dialect, Reader, ScriptFault};
use std::alloc::Global;

/// The history that a text spells, or the fault of its first bad line.
///
/// A text is a header as of a script, of format 1 or 2; then at most [`AUDIT_ACTS`](sat_script::AUDIT_ACTS) lines, each
/// an act but
/// `settle`, ` -> ` and the text that it was answered; and `end`. The act is the most of a line's first words that have
/// a form. An answer that begins with `wrote`, `read`, `moved` or `shown` has to be one that its act can have, else it
/// is `BadAnswer`; any other text is not read. Of a line of an act the faults of the act come first, then `BadAnswer`,
/// and then `SamePoint`, for a point that an earlier line was told as written or moved. `Memory` comes last and for
/// want of memory alone, and promises nothing of its line. Time is about linear in the bytes.
#[tactic(auto, using(crate::proofs::Read::on_start, crate::proofs::Read::on_taken, crate::proofs::Read::on_refused, crate::proofs::Read::end_is, crate::proofs::Read::end_some, crate::proofs::Read::end_bad, crate::proofs::Read::closes_fresh))]
pub fn read_history(alloc: Global, bytes: &[u8]) -> Result<History, ScriptFault>
    ensures ok { IfOk result (λ history. history_of bytes.now ≡ Ok history) }
    ensures err { IfErr result (λ fault. fault.cause ≢ Cause.Memory → history_of bytes.now ≡ Err fault) }
    ensures history { IfOk result (λ history. IsHistory history) }
{
    let mut reader = Reader::of(alloc, Dialect::Audit);
    let mut noted = Noted::new(alloc);
    let mut rest = bytes;
    'lines: while let Some((line, more)) = cut_at(b'\n', rest) {
        noted = match take_line(alloc, &mut reader, noted, line) {
            Ok(noted) => noted,
            Err(fault) => return Err(fault),
        };
        rest = more;
    }
    if let Err(fault) = reader.close(rest) {
        return Err(fault);
    }
    match reader.into_deployment() {
        Some(deployment) => Ok(History {
            deployment,
            heard: noted.into_heard(),
        }),
        None => unreachable!(),
    }
}
