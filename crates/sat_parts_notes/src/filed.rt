//! A note with the session that it is of.
ghost use Rattle.std.specs.Prelude.{◌≡◌};
ghost use Rattle.sat_parts_notes.specs.Filing.{owner_in, rank_of, key_of, comes_before};

use sat_session::Noted;
use std::marker::Model;

/// A note of a client's session, or of the operator's. Contracts see the session and the note.
#[derive(Drop)]
pub(crate) struct Filed {
    client: Option<u16>,
    noted: Noted,
}

impl Model for Filed {
    ghost use Rattle.sat_session.specs.Owned.{Owned};
    ghost use Rattle.sat_parts_notes.specs.Filing.{owner_in};

    ghost Value = { Owned };

    ghost view = { λ f. (owner_in f.client, f.noted) };
}

// The place of a session among all: the operator's comes first.
fn rank(client: Option<u16>) -> u32
    ensures { result ≡ rank_of (owner_in client) }
{
    match client {
        Some(client) => u32::from(client) + 1,
        None => 0,
    }
}

impl Filed {
    /// A note of the client of this number, or of the operator.
    pub(crate) fn new(client: Option<u16>, noted: Noted) -> Filed
        ensures { result ≡ (owner_in client, noted) }
    {
        Filed { client, noted }
    }

    /// The place of its session, and its number.
    pub(crate) fn key(&self) -> (u32, u64)
        ensures { result ≡ key_of self.now }
    {
        (rank(self.client), self.noted.lamport)
    }

    /// The note.
    pub(crate) fn noted(&self) -> &Noted
        ensures { result.now ≡ self.now.1 }
    {
        &self.noted
    }

    /// Whether it comes before another: by session, then by number.
    pub(crate) fn is_before(&self, other: &Filed) -> bool
        ensures { result ≡ comes_before self.now other.now }
    {
        let (rank, number) = self.key();
        let (other_rank, other_number) = other.key();
        rank < other_rank || (rank == other_rank && number < other_number)
    }
}
