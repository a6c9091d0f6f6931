//! The texts.
ghost use Rattle.std.specs.Prelude.{◌≡◌, ◌++◌, ◌∷◌, [], OnOk};
ghost use Rattle.std.specs.Fmt.{decimal};
ghost use Rattle.sat_script.specs.Spelled.{act_text};
ghost use Rattle.sat_outcome.specs.Texts.{apart_text, differ_text, entry_text, joint_text, kept_text, known_text};
ghost use Rattle.sat_outcome.specs.Texts.{note_text, number_text, part_text, place_of, undone_text, unsettled_text};

use crate::places::node_place;
use itoa::write_digits;
use sat_act::{Act, Deployment, Entry};
use sat_finish::Joint;
use sat_label::{NodeName, write_point};
use sat_report::append_answer;
use sat_script::act_line;
use sat_session::Noted;
use std::alloc::AllocError;

// The digits of the greatest `u64`.
const NUMBER_DIGITS: usize = 20;

fn append_number(number: u64, out: &mut Vec<u8>) -> Result<(), AllocError>
    ensures { OnOk result (out.new.items ≡ out.old.items ++ decimal number) }
{
    let mut digits = [0; NUMBER_DIGITS];
    let start = write_digits(number, &mut digits, NUMBER_DIGITS);
    out.extend_from_slice(&digits[start..])
}

// A number, or a dash where there is none.
fn append_some(number: Option<u64>, out: &mut Vec<u8>) -> Result<(), AllocError>
    ensures { OnOk result (out.new.items ≡ out.old.items ++ number_text number) }
{
    match number {
        None => out.extend_from_slice(b"-"),
        Some(number) => append_number(number, out),
    }
}

// The place of a node, if there is one.
fn place_of(d: &Deployment, at: Option<NodeName>) -> Option<u64>
    ensures { result ≡ place_of d.now at }
{
    match at {
        None => None,
        Some(name) => Some(node_place(d, name)),
    }
}

fn wide(number: Option<u16>) -> Option<u64>
    ensures { result ≡ number }
{
    match number {
        None => None,
        Some(number) => Some(u64::from(number)),
    }
}

fn append_act(d: &Deployment, act: &Act, out: &mut Vec<u8>) -> Result<(), AllocError>
    ensures { OnOk result (out.new.items ≡ out.old.items ++ act_text d.now act.now) }
{
    let line = act_line(*out.allocator(), d, act)?;
    out.extend_from_slice(line.as_slice())
}

// An act's line, and its answer.
fn append_entry(d: &Deployment, entry: &Entry, out: &mut Vec<u8>) -> Result<(), AllocError>
    ensures { OnOk result (out.new.items ≡ out.old.items ++ entry_text d.now entry.now) }
{
    append_act(d, &entry.act, out)?;
    out.extend_from_slice(b" -> ")?;
    append_answer(d, &entry.act, &entry.answer, out)
}

// What stands behind a note's number.
fn append_known(d: &Deployment, note: &Noted, out: &mut Vec<u8>) -> Result<(), AllocError>
    ensures { OnOk result (out.new.items ≡ out.old.items ++ known_text d.now note.now) }
{
    append_some(place_of(d, note.at), out)?;
    out.push(b' ')?;
    write_point(&note.carried.point, out)?;
    out.push(b' ')?;
    append_some(wide(note.carried.moving), out)
}

fn append_note(d: &Deployment, note: &Noted, out: &mut Vec<u8>) -> Result<(), AllocError>
    ensures { OnOk result (out.new.items ≡ out.old.items ++ note_text d.now note.now) }
{
    append_number(note.lamport, out)?;
    out.push(b' ')?;
    append_known(d, note, out)?;
    out.push(b' ')?;
    append_entry(d, &note.entry, out)
}

// What was kept of an act, and a new line.
fn append_kept(d: &Deployment, note: &Option<Noted>, out: &mut Vec<u8>) -> Result<(), AllocError>
    ensures { OnOk result (out.new.items ≡ out.old.items ++ (kept_text d.now note.now ++ 10 ∷ [])) }
{
    match note {
        None => out.extend_from_slice(b"none\n"),
        Some(note) => {
            append_note(d, note, out)?;
            out.push(b'\n')?;
            Ok(())
        }
    }
}

/// Appends what a node kept of an act and what a session kept of it, where they are not the same. For want of memory a
/// front of it may stand there.
pub fn write_differ(
    d: &Deployment,
    node: &Option<Noted>,
    session: &Option<Noted>,
    out: &mut Vec<u8>,
) -> Result<(), AllocError>
    ensures { OnOk result (out.new.items ≡ out.old.items ++ differ_text d.now node.now session.now) }
{
    out.extend_from_slice(b"differ\n")?;
    append_kept(d, node, out)?;
    append_kept(d, session, out)
}

fn append_joint(
    d: &Deployment,
    number: u64,
    joint: &Joint,
    out: &mut Vec<u8>,
) -> Result<(), AllocError>
    ensures { OnOk result (out.new.items ≡ out.old.items ++ joint_text d.now number joint.now) }
{
    append_number(number, out)?;
    out.push(b' ')?;
    append_number(node_place(d, joint.at), out)?;
    out.push(b' ')?;
    append_entry(d, &joint.entry, out)
}

// The part that was kept of an act under a number, and a new line.
fn append_part(
    d: &Deployment,
    number: u64,
    joint: &Option<Joint>,
    out: &mut Vec<u8>,
) -> Result<(), AllocError>
    ensures { OnOk result (out.new.items ≡ out.old.items ++ (part_text d.now number joint.now ++ 10 ∷ [])) }
{
    match joint {
        None => out.extend_from_slice(b"none\n"),
        Some(joint) => {
            append_joint(d, number, joint, out)?;
            out.push(b'\n')?;
            Ok(())
        }
    }
}

/// Appends what two nodes of one act kept of it under its Lamport number, its home and another node, where they are not
/// the same. For want of memory a front of it may stand there.
pub fn write_apart(
    d: &Deployment,
    lamport: u64,
    home: &Option<Joint>,
    other: &Option<Joint>,
    out: &mut Vec<u8>,
) -> Result<(), AllocError>
    ensures { OnOk result (out.new.items ≡ out.old.items ++ apart_text d.now lamport home.now other.now) }
{
    out.extend_from_slice(b"apart\n")?;
    append_part(d, lamport, home, out)?;
    append_part(d, lamport, other, out)
}

/// Appends the act that a history lacks. For want of memory a front of it may stand there.
pub fn write_undone(d: &Deployment, act: &Act, out: &mut Vec<u8>) -> Result<(), AllocError>
    ensures { OnOk result (out.new.items ≡ out.old.items ++ undone_text d.now act.now) }
{
    out.extend_from_slice(b"undone\n")?;
    append_act(d, act, out)?;
    out.push(b'\n')?;
    Ok(())
}

/// Appends what a settle behind a history had still to do: the rounds in which something was done, and how much. For
/// want of memory a front of it may stand there.
pub fn write_unsettled(rounds: u64, done: u64, out: &mut Vec<u8>) -> Result<(), AllocError>
    ensures { OnOk result (out.new.items ≡ out.old.items ++ unsettled_text rounds done) }
{
    out.extend_from_slice(b"undone\nsettled ")?;
    append_number(rounds, out)?;
    out.push(b' ')?;
    append_number(done, out)?;
    out.push(b'\n')?;
    Ok(())
}
