//! How a run ends, and why it doesn't.
use crate::joint::Joint;
use crate::opened::Opened;
use sat_act::{Deployment, Entries};
use sat_machines::Laid;
use sat_node::Names;
use sat_session::{Noted, Session};

/// A run that ended: its deployment, and its journal, the oldest entry first.
#[derive(Drop)]
pub struct Ended {
    pub deployment: Deployment,
    pub journal: Entries,
}

/// Why opened nodes and sessions made no journal.
#[derive(Drop)]
pub enum FinishFault<N: Laid + Names> {
    /// More or fewer sessions came back than were given. All comes back.
    SessionsOut {
        given: u64,
        returned: u64,
        opened: Opened<N>,
        sessions: Vec<Session<N>>,
    },
    /// What nodes and a session kept of an act at a node under one number is not the same. None stands for nothing
    /// kept, or for no session.
    Differ {
        node: Option<Noted>,
        session: Option<Noted>,
    },
    /// What the home of an act and one of its gears kept of it under one number is not the same: act, answer, and what
    /// passed between them. None stands for no part.
    Apart {
        lamport: u64,
        home: Option<Joint>,
        other: Option<Joint>,
    },
    /// There was no memory. All comes back.
    Memory {
        opened: Opened<N>,
        sessions: Vec<Session<N>>,
    },
}
