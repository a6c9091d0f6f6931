//! Running a script that is made, for its summary.
ghost use Rattle.std.specs.Prelude.{ℕ, ◌≡◌, ◌+◌, ◌++◌, [], ◌∷◌, List, ◌≤◌, ◌<◌, IfOk, OnOk, length, true};
ghost use Rattle.sat_act.specs.declared.act.Act.{Act};
ghost use Rattle.sat_act.specs.declared.act.Act.TheVariants as act;
ghost use Rattle.sat_act.specs.declared.answer.Answer.TheVariants as ans;
ghost use Rattle.sat_act.specs.declared.answer.Refusal.TheVariants as why;
ghost use Rattle.sat_act.specs.Ranges.{IsActOf};
ghost use Rattle.sat_world.specs.Stands.{StandsFor};
ghost use Rattle.sat_script.specs.Spelled.{AreActsOf};
ghost use Rattle.sat_runs.specs.Running.{Does};
ghost use Rattle.sat_settle.specs.LoadActs.{load_acts};
ghost use Rattle.sat_settle.specs.LoadDraft.{drafted, drawn_value};
ghost use Rattle.sat_settle.specs.LoadHeader.{load_deployment};
ghost use Rattle.sat_top.specs.Loading.{load_text, IsGoodLoad};
ghost use Rattle.sat_top.specs.Words.{IsCommand};
ghost use Rattle.sat_top.specs.UnderWay.{DoesHere, IsCounting, writes_in};

use crate::output::Output;
use crate::words::Command;
use sat_act::{Answer, Refusal};
use sat_laws::headline;
use sat_report::write_summary;
use sat_rest::settles_all;
use sat_script::MOST_ACTS;
use sat_settle::{Draft, LoadActs, deployment, drawn_value, settle};
use sat_world::{World, world_laws};
use std::alloc::{AllocError, Global};

// How many writes an answer tells of.
fn writes_in(answer: &Answer) -> u64
    ensures { result ≡ writes_in answer.now }
{
    match answer {
        Answer::Wrote(_) => 1,
        _ => 0,
    }
}

// Whether a client has no seat. A write that it asks for is then refused, whatever its item and value.
#[inline(always)]
fn lacks_seat(world: &World, client: u16) -> bool
    requires { client < length world.now.deployment.clients }
    ensures { result ≡ true → (item : ℕ) (value : List ℕ)
        → Does world.now (act.Write client item value) (ans.Refused why.NoSession) world.now }
{
    // Brings these laws into the proof; they do nothing when they run.
    world_laws();
    world.client(client).seat.is_none()
}

// Does the write of a number. Most writes of a large script are refused since their client has no seat, so the value is
// made behind that.
#[inline(always)]
fn write(
    alloc: Global,
    world: &mut World,
    client: u16,
    item: u16,
    number: u32,
) -> Result<Answer, AllocError>
    requires { IsActOf world.old.deployment (act.Write client item (drawn_value number)) }
    ensures { IfOk result (λ answer. DoesHere world.old (act.Write client item (drawn_value number)) answer world.new) }
{
    if lacks_seat(world, client) {
        return Ok(Answer::Refused(Refusal::NoSession));
    }
    let value = drawn_value(alloc, number)?;
    world.write(client, item, &value)
}

// Does an act as it was drawn, by the world's call of its kind.
#[inline(always)]
fn do_draft(alloc: Global, world: &mut World, draft: Draft) -> Result<Answer, AllocError>
    requires { IsActOf world.old.deployment (drafted draft) }
    ensures { IfOk result (λ answer. DoesHere world.old (drafted draft) answer world.new) }
{
    match draft {
        Draft::Write {
            client,
            item,
            number,
        } => write(alloc, world, client, item, number),
        Draft::Read { client, item } => world.read(client, item),
        Draft::Move { client, site } => world.migrate(client, site),
        Draft::Attach { client, site } => world.attach(client, site),
        Draft::Tick { site, gear, ts } => world.tick(site, gear, ts),
        Draft::Gather { site } => world.gather(site),
        Draft::Emit { site } => world.emit(site),
        Draft::Pulse { site } => world.pulse(site),
        Draft::Hop { epoch, from, to } => world.hop(epoch, from, to),
        Draft::Bulk { from, gear, to } => world.bulk(from, gear, to, None),
        Draft::Turn { site } => world.turn(site),
        Draft::Close { site } => world.close(site),
        Draft::Settle => settle(world),
    }
}

// Does an act as it was drawn, and tells how many writes were done: one or none.
#[inline(always)]
fn count_draft(alloc: Global, world: &mut World, draft: Draft) -> Result<u64, AllocError>
    requires act { IsActOf world.old.deployment (drafted draft) }
    ensures deployment { OnOk result (world.new.deployment ≡ world.old.deployment) }
    ensures one { IfOk result (λ wrote. wrote ≤ 1) }
    ensures counting { IfOk result (λ wrote. (acts : List Act) (written : ℕ)
        → IsCounting world.old.deployment world.old written acts
        → IsCounting world.old.deployment world.new (written + wrote) (acts ++ drafted draft ∷ [])) }
{
    let answer = do_draft(alloc, world, draft)?;
    Ok(writes_in(&answer))
}

// Does the acts that are still to come one after another, and counts the writes that were done. No act is kept.
fn count_writes(alloc: Global, world: &mut World, mut coming: LoadActs) -> Result<u64, AllocError>
    requires deployment { world.old.deployment ≡ load_deployment }
    requires fresh { StandsFor world.old [] }
    requires acts { AreActsOf world.old.deployment coming }
    requires few { length coming ≤ MOST_ACTS }
    ensures deployment { OnOk result (world.new.deployment ≡ world.old.deployment) }
    ensures counting { IfOk result (λ written. IsCounting world.old.deployment world.new written coming) }
{
    let mut written = 0;
    while let Some(draft) = coming.next(world.deployment()) {
        written += count_draft(alloc, world, draft)?;
    }
    Ok(written)
}

// Runs the acts of a large script as they are drawn, and gives the summary of their run.
#[tactic(auto, unfolding(crate::specs::Loading::load_text))]
fn load_text(alloc: Global, coming: LoadActs, seed: u64, acts: u32) -> Result<Vec<u8>, AllocError>
    requires acts { coming ≡ load_acts seed acts }
    requires each { AreActsOf load_deployment (load_acts seed acts) }
    requires few { length (load_acts seed acts) ≤ MOST_ACTS }
    ensures { IfOk result (λ text. text.items ≡ load_text seed acts) }
{
    let mut world = World::new(alloc, deployment(alloc)?)?;
    let written = count_writes(alloc, &mut world, coming)?;
    let mut text = Vec::new(alloc);
    write_summary(&world, seed, acts, written, &mut text)?;
    Ok(text)
}

/// Makes a large script, runs it and makes the summary.
pub(crate) fn load_output(alloc: Global, seed: u64, acts: u32) -> Result<Output, AllocError>
    requires { IsCommand (Command.Load seed acts) }
    ensures text { IfOk result (λ out. out.text.items ≡ load_text seed acts) }
    ensures status { IfOk result (λ out. out.status ≡ 0) }
    ensures good { IfOk result (λ _. IsGoodLoad seed acts) }
{
    let coming = LoadActs::new(seed, acts);
    // Brings these two laws into the proof; they do nothing when they run.
    headline();
    settles_all();
    let text = load_text(alloc, coming, seed, acts)?;
    Ok(Output { text, status: 0 })
}
