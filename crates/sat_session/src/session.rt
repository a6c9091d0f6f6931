//! The session of a client, or of the operator.
ghost use Rattle.std.specs.Prelude.{◌≡◌, ◌<◌, [], ◌∷◌, length, Some, IfOk};
ghost use Rattle.sat_act.specs.Limits.{IsDeployment};
ghost use Rattle.sat_act.specs.Parts.{home};
ghost use Rattle.sat_act.specs.Answers.{InRange};
ghost use Rattle.sat_stitch.specs.Kept.{OfClient as Handed};
ghost use Rattle.sat_stitch.specs.Places.{InSession, Client as OfClient, places, session_of};
ghost use Rattle.sat_stitch.specs.Nodes.{IsSessionAnswer};
ghost use Rattle.sat_session.specs.Sessions.{IsSession};
ghost use Rattle.sat_session.specs.Calls.{AtNone};

use crate::Noted;
use crate::answers::{keep, own_answer};
use sat_act::{Act, Answer, Deployment};
use sat_client::Client;
use sat_label::{Carried, Point};
use sat_machines::Laid;
use sat_node::CallFault;
use std::alloc::Global;
use std::marker::{Model, PhantomData};

/// What a client, or the operator, did at the nodes of N's deployment, and what it carries from call to call.
#[derive(Drop)]
pub struct Session<N: Laid> {
    pub(crate) number: u16,
    pub(crate) client: Client,
    pub(crate) lamport: u64,
    pub(crate) noted: Vec<Noted>,
    pub(crate) of: PhantomData<N>,
}

impl<N: Laid> Model for Session<N> {
    ghost use Rattle.sat_session.specs.Notes.{SessionSeen};
    ghost use Rattle.sat_session.specs.Sessions.{IsSession};

    ghost Value = { SessionSeen };

    ghost view = { λ s. record { number = s.number; client = s.client; lamport = s.lamport; noted = s.noted.items } };

    ghost invariant = { λ s. IsSession N.deployment
        (record { number = s.number; client = s.client; lamport = s.lamport; noted = s.noted.items }) };
}

// The first site of a client.
#[tactic(auto, unfolding(sat_act::specs::Parts::home))]
fn home(d: &Deployment, client: u16) -> u16
    requires { client < length d.now.clients }
    ensures home { home d.now client ≡ Some result }
    ensures limits { IsDeployment d.now }
{
    let lines = d.clients();
    let line = &lines[client as usize];
    line.site
}

impl<N: Laid> Session<N> {
    /// The session of the client of this number, which did nothing yet and sits at its first site.
    pub fn of_client(alloc: Global, d: &Deployment, client: u16) -> Session<N>
        requires deployment { N.deployment ≡ d.now }
        requires client { client < length d.now.clients }
        ensures number { result.number ≡ client }
        ensures fresh { (result.noted ≡ []) × (result.lamport ≡ 0) }
    {
        let site = home(d, client);
        Session {
            number: client,
            client: Client::new(site),
            lamport: 0,
            noted: Vec::new(alloc),
            of: PhantomData,
        }
    }

    /// The operator's session, which did nothing yet. Its number is the number of clients.
    pub fn of_operator(alloc: Global, d: &Deployment) -> Session<N>
        requires deployment { N.deployment ≡ d.now }
        ensures number { result.number ≡ length d.now.clients }
        ensures fresh { (result.noted ≡ []) × (result.lamport ≡ 0) }
    {
        let carried = Carried {
            point: Point::zero(),
            moving: None,
        };
        let number = d.clients().len() as u16;
        Session {
            number,
            client: Client {
                carried,
                seat: None,
            },
            lamport: 0,
            noted: Vec::new(alloc),
            of: PhantomData,
        }
    }

    /// The number of its client, the number of clients for the operator.
    pub fn number(&self) -> u16
        ensures number { result ≡ self.now.number }
        ensures session { IsSession N.deployment self.now }
    {
        self.number
    }

    /// Its client. The operator carries nothing and has no seat.
    pub fn client(&self) -> &Client
        ensures client { result.now ≡ self.now.client }
        ensures session { IsSession N.deployment self.now }
    {
        &self.client
    }

    /// Its Lamport number: that of its last note, 0 where there is none.
    pub fn lamport(&self) -> u64
        ensures lamport { result ≡ self.now.lamport }
        ensures session { IsSession N.deployment self.now }
    {
        self.lamport
    }

    /// Where it takes its memory.
    pub fn allocator(&self) -> Global {
        *self.noted.allocator()
    }

    /// A note of each of its calls, in order.
    pub fn noted(&self) -> &[Noted]
        ensures noted { result.now ≡ self.now.noted }
        ensures session { IsSession N.deployment self.now }
    {
        self.noted.as_slice()
    }

    /// An act of the client that touches no node: a leave, a write, a read or a move without a seat, or an attach where
    /// it has one. The session answers it and notes it. `Worn`, with the greatest u64, exactly where the session's
    /// number is that; `Memory`. After an error the session is as before.
    pub fn alone(&mut self, act: Act) -> Result<Answer, CallFault>
        requires own { session_of act ≡ Some (OfClient self.old.number) }
        requires client { self.old.number < length N.deployment.clients }
        requires range { InRange N.deployment act }
        requires nowhere { places act (Handed self.old.client.carried self.old.client.seat)
            ≡ InSession self.old.number ∷ [] }
        ensures done { AtNone act result self.old self.new }
        ensures answer { IfOk result
            (λ r. IsSessionAnswer act (Handed self.old.client.carried self.old.client.seat) r) }
    {
        if self.lamport == u64::MAX {
            return Err(CallFault::Worn(u64::MAX));
        }
        if self.noted.reserve(1).is_err() {
            return Err(CallFault::Memory);
        }
        let answer = own_answer(&self.client, &act);
        let lamport = self.lamport + 1;
        keep(
            &mut self.noted,
            &mut self.client,
            lamport,
            None,
            act,
            &answer,
            None,
        );
        self.lamport = lamport;
        Ok(answer)
    }
}
