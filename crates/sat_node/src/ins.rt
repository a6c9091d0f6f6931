//! The receiving end of a link, which lies under a node's lock.
ghost use Rattle.std.specs.Prelude.{◌≡◌, ◌<◌, Some, None, slice_get, IsTrue, MatchOption, ◌↔◌};
ghost use mathlib.Core.List.{IsPrefix};
ghost use Rattle.sat_node.specs.Links.{Pulled, Cleared, PassedOver};

use crate::kept::Envelope;
use crate::outs::{Names, Out};
use sat_link::{LinkOut, compare};
use std::marker::{Model, PhantomData};
use std::sync::Wait;

/// The receiving end of a link at its place in the list of wires, with the envelope that was popped and not yet taken,
/// if any. It serves labels, payloads and beats.
#[derive(Drop)]
pub struct In<N: Names> {
    place: usize,
    link: LinkOut<Envelope>,
    front: Option<Envelope>,
    of: PhantomData<N>,
}

impl<N: Names> Model for In<N> {
    ghost use Rattle.std.specs.Prelude.{◌≡◌, Some, slice_get};
    ghost use Rattle.sat_node.specs.Links.{InSeen};

    ghost Value = { InSeen };

    ghost view = { λ i. record { place = i.place; link = i.link; front = i.front } };

    ghost invariant = { λ i. slice_get N.wires i.place ≡ Some i.link.wire };
}

impl<N: Names> In<N> {
    /// A receiving end at its place, with no front.
    pub fn new(place: usize, link: LinkOut<Envelope>) -> In<N>
        requires { slice_get N.wires place ≡ Some link.wire }
        ensures { result ≡ record { place = place; link = link; front = None } }
    {
        In {
            place,
            link,
            front: None,
            of: PhantomData,
        }
    }

    /// The envelope in front, which was popped and not yet taken, if there is one.
    pub fn front(&self) -> Option<&Envelope>
        ensures { MatchOption result (self.now.front ≡ None) (λ e. self.now.front ≡ Some e.now) }
    {
        self.front.as_ref()
    }

    /// Pops the next envelope as the front. Where a front is kept, nothing changes.
    pub(crate) fn pull<R: Wait>(&mut self, rt: &R)
        ensures pulled { Pulled self.old self.new }
    {
        if self.front.is_none() {
            self.front = self.link.pop(rt);
        }
    }

    /// Takes the front.
    pub(crate) fn clear(&mut self)
        ensures cleared { Cleared self.old self.new }
    {
        self.front = None;
    }

    /// Passes over a payload or a beat in front. False where there is none, and then nothing changes.
    pub(crate) fn pass_over(&mut self) -> bool
        ensures { PassedOver result self.old self.new }
    {
        match &self.front {
            Some(front) if front.body.passes() => {}
            _ => return false,
        }
        self.clear();
        true
    }
}

/// Whether two ends have one place. Then they are compared. They stay as they are.
pub(crate) fn compare_ends<N: Names>(out: &mut Out<N>, into: &mut In<N>) -> bool
    ensures same { (out.new ≡ out.old) × (into.new ≡ into.old) }
    ensures place { IsTrue result ↔ (out.old.place ≡ into.old.place) }
    ensures prefix { IsTrue result → IsPrefix into.old.link.received out.old.link.sent }
{
    if out.place != into.place {
        return false;
    }
    compare(&mut out.link, &mut into.link);
    true
}
