//! Acts done one after another.
ghost use Rattle.std.specs.Prelude.{◌≡◌, ◌+◌, ◌^◌, ◌<◌, ◌++◌, ℕ, List, IfOk, OnOk, OnErr, length};
ghost use Rattle.sat_act.specs.declared.act.Act.{Act};
ghost use Rattle.sat_act.specs.Ranges.{IsActOf};
ghost use Rattle.sat_script.specs.Spelled.{AreActsOf};
ghost use Rattle.sat_runs.specs.Running.{Does, StopsIn, IsAnswering, HasLines, HasSomeLines};
ghost use Rattle.sat_runs.specs.OneLine.{IsWritten, HasLine, StopsOnTheWay};

use sat_act::{Act, Answer, Deployment};
use sat_report::{LineFront, write_numbered};
use sat_settle::settle;
use sat_world::World;
use std::alloc::AllocError;

/// Does an act: a settle by the acts that it stands for, any other by itself. For want of memory the world is as
/// before, but of a settle's acts the first ones may be done, each whole.
pub fn do_act(world: &mut World, act: &Act) -> Result<Answer, AllocError>
    requires { IsActOf world.old.deployment act.now }
    ensures does { IfOk result (λ answer. Does world.old act.now answer world.new) }
    ensures err { OnErr result (StopsIn world.old act.now world.new) }
    ensures deployment { world.new.deployment ≡ world.old.deployment }
{
    match act {
        Act::Settle => settle(world),
        _ => world.apply(act),
    }
}

// Appends the line of an act's answer, where there is one. It is read where it lies. For want of memory the text is as
// before.
#[inline(always)]
fn write_done(
    d: &Deployment,
    line: &LineFront,
    act: &Act,
    done: &Result<Answer, AllocError>,
    text: &mut Vec<u8>,
) -> Result<(), AllocError>
    ensures written { OnOk result (IsWritten d.now line.now act.now done.now text.old.items text.new.items) }
    ensures err { OnErr result (text.new.items ≡ text.old.items) }
{
    match done {
        Ok(answer) => write_numbered(d, line, act, answer, text),
        Err(_) => Err(AllocError),
    }
}

// Does an act, and appends the line of its answer. The answer is not handed on, since each call between copies it. For
// want of memory the text is as before, and the act may be done.
#[inline(always)]
fn answer_numbered(
    world: &mut World,
    line: &LineFront,
    act: &Act,
    text: &mut Vec<u8>,
) -> Result<(), AllocError>
    requires act { IsActOf world.old.deployment act.now }
    ensures deployment { world.new.deployment ≡ world.old.deployment }
    ensures line { OnOk result (HasLine world.old line.now act.now text.old.items world.new text.new.items) }
    ensures text { OnErr result (text.new.items ≡ text.old.items) }
    ensures world { OnErr result (StopsOnTheWay world.old act.now world.new) }
{
    if let Act::Settle = act {
        let done = settle(world);
        return write_done(world.deployment(), line, act, &done, text);
    }
    let done = world.step(act);
    write_done(world.deployment(), line, act, &done, text)
}

/// Does the acts one after another, behind so many acts, and appends the lines of their answers. For want of memory the
/// first ones of the acts have their lines, each whole, and no other line is there; the act behind these may be done,
/// or of a settle the first ones of its acts.
pub fn answer_acts(
    world: &mut World,
    before: u64,
    acts: &[Act],
    text: &mut Vec<u8>,
) -> Result<(), AllocError>
    requires acts { AreActsOf world.old.deployment acts.now }
    requires few { before + length acts.now < 2 ^ 64 }
    ensures deployment { world.new.deployment ≡ world.old.deployment }
    ensures lines { OnOk result (HasLines world.old before acts.now text.old.items world.new text.new.items) }
    // The same of a text that has the answers of the acts before, or their end.
    ensures running { OnOk result ((front : List ℕ) (done : List Act) → before ≡ length done
        → IsAnswering world.old.deployment world.old (front ++ text.old.items) done
        → IsAnswering world.old.deployment world.new (front ++ text.new.items) (done ++ acts.now)) }
    ensures err { OnErr result (HasSomeLines world.old before acts.now text.old.items world.new text.new.items) }
{
    let mut line = LineFront::of(before);
    for act in acts {
        line.advance();
        answer_numbered(world, &line, act, text)?;
    }
    Ok(())
}
