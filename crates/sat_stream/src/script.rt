//! What a text is as a script, and its one spelling.
ghost use Rattle.std.specs.Prelude.{◌≡◌, ◌≢◌, ℕ, Bool, List, IfOk, IfErr, Some, None};
ghost use Rattle.sat_act.specs.declared.act.Act.{Act};
ghost use Rattle.sat_act.specs.Deployed.{Deployed};
ghost use Rattle.sat_stream.specs.Laws.{IsRead, IsSound, SpellingsBeginOnce};
ghost use Rattle.sat_script.specs.Laws.{ActsAreSpelled, ActsAreRead};
ghost use Rattle.sat_stream.specs.Reading.{reading, good, IsAllowed};
ghost use Rattle.sat_script.specs.Spelled.{Spells};

use crate::{Reading, ScriptReader};
use sat_act::{Acts, Deployment};
use sat_script::{Cause, ScriptFault};
use std::alloc::Global;

/// A deployment, and acts of it.
#[derive(Drop)]
pub struct Script {
    pub deployment: Deployment,
    pub acts: Acts,
}

/// Each script has one spelling: a text has no fault exactly where it spells a deployment and acts, within the limits
/// of nodes on threads where it is read for them. And a line of an act says an act exactly where it spells it, whatever
/// forms may stand.
pub fn one_spelling()
    ensures read { (live : Bool) (text : List ℕ) → (reading live text).fault ≡ None
        → IsRead live (reading live text) text }
    ensures found { (live : Bool) (text : List ℕ) (d : Deployed) (acts : List Act) → Spells text d acts
        → IsAllowed live d acts → reading live text ≡ good d acts }
    ensures acts_spelled { ActsAreSpelled }
    ensures acts_read { ActsAreRead }
{}

/// A text begins with at most one spelling, whatever stands behind it and however many acts it is of: so who reads a
/// text that is the spelling of a history's acts and more finds that deployment and these acts, and no others.
pub fn one_beginning()
    ensures { SpellingsBeginOnce }
{}

/// What is read of any text, also of one with a fault, is a deployment within its limits and acts of it, no more than
/// there may be; and no acts where there is no deployment.
pub fn sound_readings()
    ensures { (live : Bool) (text : List ℕ) → IsSound live (reading live text) }
{}

/// The script that a text spells, or the fault of its first bad line.
pub fn read_script(alloc: Global, bytes: &[u8], live: bool) -> Result<Script, ScriptFault>
    ensures ok { IfOk result (λ script. reading live bytes.now ≡ good script.deployment script.acts) }
    ensures spelled { IfOk result (λ script. Spells bytes.now script.deployment script.acts) }
    ensures err { IfErr result (λ fault. fault.cause ≢ Cause.Memory → (reading live bytes.now).fault ≡ Some fault) }
{
    let mut reader = ScriptReader::new(alloc, live);
    if let Err(fault) = reader.feed(bytes) {
        return Err(fault);
    }
    let Reading {
        deployment,
        acts,
        fault,
    } = reader.finish();
    if let Some(fault) = fault {
        return Err(fault);
    }
    match deployment {
        Some(deployment) => Ok(Script { deployment, acts }),
        None => unreachable!(),
    }
}
