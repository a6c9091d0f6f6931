//! Writing a text to a sink.
ghost use Rattle.std.specs.Prelude.{◌≤◌, OnOk, OnErr};
ghost use Rattle.sat_outside.specs.Causes.{HasCause};
ghost use Rattle.sat_outside.specs.Streams.{Takes};
ghost use Rattle.sat_follow.specs.Following.{TakesFront};

use sat_outside::{Failed, Sink};

/// Writes the whole text, or a front of it.
pub fn write_text<K: Sink>(sink: &mut K, text: &[u8]) -> Result<(), Failed>
    ensures ok { OnOk result (Takes (K.told sink.old) (K.told sink.new) text.now) }
    ensures err { OnErr result (TakesFront (K.told sink.old) (K.told sink.new) text.now) }
    ensures cause { HasCause (K.faults sink.old) (K.faults sink.new) result }
    ensures later { K.faults sink.old ≤ K.faults sink.new }
{
    let mut at = 0;
    while at < text.len() {
        at += sink.write(&text[at..])?;
    }
    Ok(())
}
