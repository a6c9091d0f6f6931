//! The end of a run.
ghost use Rattle.std.specs.Prelude.{MatchResult};
ghost use Rattle.sat_finish.specs.Ends.{IsEnd, IsFault};

use crate::fault::{Ended, FinishFault};
use crate::find::{Found, find};
use crate::opened::Opened;
use sat_machines::Laid;
use sat_node::Names;
use sat_session::Session;
use std::alloc::Global;

impl<N: Laid + Names> Opened<N> {
    /// Merges what all nodes and sessions kept into one journal. `SessionsOut` exactly where not as many sessions came
    /// back as were given, else `Differ` exactly where nodes and sessions did not keep the same of acts at nodes, and
    /// else `Apart` exactly where the home of an act of several nodes and one of its gears did not keep the same part
    /// of it.
    pub fn finish(self, alloc: Global, sessions: Vec<Session<N>>) -> Result<Ended, FinishFault<N>>
        ensures { MatchResult result (IsEnd N.deployment self sessions.items)
            (IsFault N.deployment self sessions.items) }
    {
        let returned = sessions.len() as u64;
        let given = self.given;
        if given != returned {
            return Err(FinishFault::SessionsOut {
                given,
                returned,
                opened: self,
                sessions,
            });
        }
        let Opened {
            deployment,
            mut hubs,
            mut gears,
            mut serials,
            given,
        } = self;
        match find(
            alloc,
            &deployment,
            &mut hubs,
            &mut gears,
            &mut serials,
            sessions.as_slice(),
        ) {
            Found::Whole(journal) => Ok(Ended {
                deployment,
                journal,
            }),
            Found::Differ(difference) => Err(FinishFault::Differ {
                node: difference.node,
                session: difference.session,
            }),
            Found::Apart(parting) => Err(FinishFault::Apart {
                lamport: parting.lamport,
                home: parting.home,
                other: parting.other,
            }),
            Found::Memory => Err(FinishFault::Memory {
                opened: Opened {
                    deployment,
                    hubs,
                    gears,
                    serials,
                    given,
                },
                sessions,
            }),
        }
    }
}
