//! What is lacking.
ghost use Rattle.std.specs.Prelude.{◌≡◌, ◌<◌, ◌+◌, ◌^◌, ◌++◌, List, [], ◌∷◌, get_or, length, set, None, Some, IfOk};
ghost use Rattle.std.specs.Prelude.{MatchOption};
ghost use Rattle.sat_act.specs.declared.act.Act.{Act as Deed};
ghost use Rattle.sat_act.specs.declared.entry.Entry.{Entry as Line};
ghost use Rattle.std.specs.List.{AllByRecursion};
ghost use Rattle.sat_stitch.specs.Places.{Client, session_of};
ghost use Rattle.sat_undone.specs.Counted.{AreCounts, AreTallies, IsKnown};
ghost use Rattle.sat_undone.specs.Undone.{lacks, lacks_of, next_tally, no_tally, number_of, undone};

use crate::tries::{MOST_TRIES, has_to_wait};
use sat_act::{Act, Entry};
use std::alloc::{AllocError, Global};

/// How many acts of a session were done, and how many attaches in a row, behind these, had to wait.
#[derive(Clone, Copy)]
struct Tally {
    done: u64,
    tries: u64,
}

// The number of a client, if it is one of so many.
fn client_number(clients: usize, client: u16) -> Option<usize>
    ensures { result ≡ number_of clients (Some (Client client)) }
{
    let client = usize::from(client);
    if client < clients { Some(client) } else { None }
}

// The number of the session of an act: that of its client, or the operator's behind all clients.
fn session_number(clients: usize, act: &Act) -> Option<usize>
    ensures { result ≡ number_of clients (session_of act.now) }
{
    match act {
        Act::Write { client, .. } => client_number(clients, *client),
        Act::Writes { client, .. } => client_number(clients, *client),
        Act::Read { client, .. } => client_number(clients, *client),
        Act::Move { client, .. } => client_number(clients, *client),
        Act::Leave { client } => client_number(clients, *client),
        Act::Attach { client, .. } => client_number(clients, *client),
        Act::Close { .. } => Some(clients),
        Act::Fall { .. } => Some(clients),
        Act::Kill { .. } => Some(clients),
        _ => None,
    }
}

// A tally after one entry more.
fn next_tally(tally: Tally, entry: &Entry) -> Tally
    requires { tally.done + tally.tries + 1 < 2 ^ 64 }
    ensures { result ≡ next_tally tally entry.now }
{
    if has_to_wait(&entry.act, &entry.answer) {
        Tally {
            done: tally.done,
            tries: tally.tries + 1,
        }
    } else {
        Tally {
            done: tally.done + 1,
            tries: 0,
        }
    }
}

// The tally at a place.
fn tally_at(tallies: &Vec<Tally>, place: usize) -> Tally
    requires { place < length tallies.now.items }
    ensures { result ≡ get_or tallies.now.items place no_tally }
{
    tallies[place]
}

fn put_tally(tallies: &mut Vec<Tally>, place: usize, tally: Tally)
    requires { place < length tallies.old.items }
    ensures { tallies.new.items ≡ set tallies.old.items place tally }
{
    tallies[place] = tally;
}

// Counts an entry to its session.
fn count_entry(tallies: &mut Vec<Tally>, clients: usize, entry: &Entry)
    requires { (es : List Line) × (length es + 1 < 2 ^ 64) × AreTallies clients es tallies.old.items }
    ensures { (es : List Line) → AreTallies clients es tallies.old.items
        → AreTallies clients (es ++ entry.now ∷ []) tallies.new.items }
{
    let Some(number) = session_number(clients, &entry.act) else {
        return;
    };
    let tally = next_tally(tally_at(tallies, number), entry);
    put_tally(tallies, number, tally);
}

// Of each session of so many clients, and of the operator.
fn tallies(alloc: Global, clients: usize, entries: &[Entry]) -> Result<Vec<Tally>, AllocError>
    requires { clients < 2 ^ 16 }
    ensures { IfOk result (λ list. AreTallies clients entries.now list.items) }
{
    let mut list = no_tallies(alloc, clients)?;
    for (place, entry) in entries.iter().enumerate() {
        let _ = place;
        count_entry(&mut list, clients, entry);
    }
    Ok(list)
}

// Of no entries.
fn no_tallies(alloc: Global, clients: usize) -> Result<Vec<Tally>, AllocError>
    requires { clients < 2 ^ 16 }
    ensures { IfOk result (λ list. AreTallies clients [] list.items) }
{
    let mut list = Vec::new(alloc);
    for number in 0..clients + 1 {
        let _ = number;
        list.push(Tally { done: 0, tries: 0 })?;
    }
    Ok(list)
}

// Of no acts.
fn no_counts(alloc: Global, clients: usize) -> Result<Vec<u64>, AllocError>
    requires { clients < 2 ^ 16 }
    ensures { IfOk result (λ list. AreCounts clients [] list.items) }
{
    let mut list = Vec::new(alloc);
    list.resize(clients + 1, 0)?;
    Ok(list)
}

// Whether the history lacks the act of this number of a session.
fn lacks_of(tally: Tally, number: u64) -> bool
    ensures { result ≡ lacks_of tally number }
{
    tally.tries < MOST_TRIES && tally.done <= number
}

// Counts one more at a place, and answers how many were counted there before.
fn count_more(counts: &mut Vec<u64>, place: usize) -> u64
    requires place { place < length counts.old.items }
    requires small { get_or counts.old.items place 0 + 1 < 2 ^ 64 }
    ensures before { result ≡ get_or counts.old.items place 0 }
    ensures counts { counts.new.items ≡ set counts.old.items place (get_or counts.old.items place 0 + 1) }
{
    let count = counts[place];
    counts[place] = count + 1;
    count
}

// Whether the history lacks an act, which is counted to its session.
fn lacks(tallies: &Vec<Tally>, counts: &mut Vec<u64>, clients: usize, act: &Act) -> bool
    requires known { IsKnown clients act.now }
    requires tallies { (es : List Line) × AreTallies clients es tallies.now.items }
    requires counts { (before : List Deed) × (length before + 1 < 2 ^ 64) × AreCounts clients before counts.old.items }
    ensures lacks { (es : List Line) (before : List Deed) → AreTallies clients es tallies.now.items
        → AreCounts clients before counts.old.items → result ≡ lacks es before act.now }
    ensures counts { (before : List Deed) → AreCounts clients before counts.old.items
        → AreCounts clients (before ++ act.now ∷ []) counts.new.items }
{
    let Some(number) = session_number(clients, act) else {
        return false;
    };
    let tally = tally_at(tallies, number);
    let count = count_more(counts, number);
    lacks_of(tally, count)
}

/// The first act of a script that a history of running nodes lacks, None where it lacks none: of a client, or of the
/// operator, it lacks the k-th act where it has fewer than k of theirs, an attach that had to wait and the entry of its
/// client behind it taken as one act. What stands behind `MOST_TRIES` such attaches in a row, with which a client
/// stopped, is not asked for. Both lists are the oldest first, and `clients` is how many the deployment has.
pub fn undone<'a>(
    alloc: Global,
    clients: u16,
    entries: &[Entry],
    acts: &'a [Act],
) -> Result<Option<&'a Act>, AllocError>
    requires { AllByRecursion (IsKnown clients) acts.now }
    ensures { IfOk result (λ first. MatchOption first (undone entries.now acts.now ≡ None)
        (λ act. undone entries.now acts.now ≡ Some act.now)) }
{
    let clients = usize::from(clients);
    let tallies = tallies(alloc, clients, entries)?;
    let mut counts = no_counts(alloc, clients)?;
    for (place, act) in acts.iter().enumerate() {
        let _ = place;
        if lacks(&tallies, &mut counts, clients, act) {
            return Ok(Some(act));
        }
    }
    Ok(None)
}
