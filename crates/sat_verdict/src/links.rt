//! The entries of each client, one behind the other.
ghost use Rattle.std.specs.Prelude.{◌≡◌, ◌≤◌, length, IfOk};
ghost use Rattle.sat_verdict.specs.declared.limits.TheConstants.{MOST_ENTRIES};
ghost use Rattle.sat_verdict.specs.Tables.{HasClients};
ghost use Rattle.sat_verdict.specs.Walks.{follower, headed, Linked};

use crate::Tale;
use crate::row::filled;
use std::alloc::{AllocError, Global};

/// The first entry of each client, and behind each entry the next one of its client; where there is none, the number of
/// all entries.
#[derive(Drop)]
pub struct Links {
    /// The place of each client's first entry.
    pub heads: Vec<u16>,
    /// The place of the next entry of the same client.
    pub next: Vec<u16>,
}

/// What follows an entry: the first of its client's entries behind it, or the end.
fn follower(heads: &[u16], end: u16, client: Option<u16>) -> u16
    ensures { result ≡ follower heads.now end client }
{
    match client {
        Some(client) => match heads.get(client as usize) {
            Some(head) => *head,
            None => end,
        },
        None => end,
    }
}

/// Puts an entry before those of its client.
fn put_first(heads: &mut Vec<u16>, client: Option<u16>, place: u16)
    ensures { heads.new.items ≡ headed heads.old.items place client }
{
    if let Some(client) = client {
        if (client as usize) < heads.len() {
            heads[client as usize] = place;
        }
    }
}

/// Links the entries of each client.
pub fn links_of(alloc: Global, tales: &[Tale], clients: u16) -> Result<Links, AllocError>
    requires few { length tales.now ≤ MOST_ENTRIES }
    requires clients { HasClients clients tales.now }
    ensures { IfOk result (λ links. Linked tales.now clients links.heads.items links.next.items 0) }
{
    let mut place = tales.len();
    let mut heads = filled(alloc, clients as usize, place as u16)?;
    let mut next = filled(alloc, place, 0)?;
    while place > 0 {
        place -= 1;
        let client = tales[place].client();
        next[place] = follower(heads.as_slice(), tales.len() as u16, client);
        put_first(&mut heads, client, place as u16);
    }
    Ok(Links { heads, next })
}
