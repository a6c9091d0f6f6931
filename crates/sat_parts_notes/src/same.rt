//! Whether two notes are one, and copies of notes.
ghost use Rattle.std.specs.Prelude.{◌≡◌, IfOk};
ghost use Rattle.std.specs.Bool.{Decides};

use sat_act::{Act, Answer, Entry};
use sat_label::{Carried, NodeName};
use sat_session::Noted;
use std::alloc::AllocError;

/// The same note again.
pub(crate) fn copy_noted(noted: &Noted) -> Result<Noted, AllocError>
    ensures { IfOk result (λ n. n ≡ noted.now) }
{
    let entry = noted.entry.copy()?;
    Ok(Noted {
        lamport: noted.lamport,
        at: noted.at,
        carried: noted.carried,
        entry,
    })
}

/// Whether two notes are one.
pub(crate) fn same_noted(a: &Noted, b: &Noted) -> bool
    ensures { Decides result (a.now ≡ b.now) }
{
    a.lamport == b.lamport
        && same_place(a.at, b.at)
        && same_carried(a.carried, b.carried)
        && same_entry(&a.entry, &b.entry)
}

fn same_place(a: Option<NodeName>, b: Option<NodeName>) -> bool
    ensures { Decides result (a ≡ b) }
{
    a == b
}

fn same_carried(a: Carried, b: Carried) -> bool
    ensures { Decides result (a ≡ b) }
{
    a == b
}

fn same_entry(a: &Entry, b: &Entry) -> bool
    ensures { Decides result (a.now ≡ b.now) }
{
    same_act(&a.act, &b.act) && same_answer(&a.answer, &b.answer) && a.inner == b.inner
}

fn same_act(a: &Act, b: &Act) -> bool
    ensures { Decides result (a.now ≡ b.now) }
{
    *a == *b
}

fn same_answer(a: &Answer, b: &Answer) -> bool
    ensures { Decides result (a.now ≡ b.now) }
{
    *a == *b
}
