//! The ends of all links at their places, from which nodes take theirs.
ghost use Rattle.std.specs.Prelude.{◌≡◌, ◌++◌, map, IfOk, IfSome, OnOk};
ghost use Rattle.sat_node.specs.Links.{Each, in_places, out_places};
ghost use Rattle.sat_wires.specs.Ways.{link_of, place_back_in, place_in};
ghost use Rattle.sat_wires.specs.Wires.{IsFreshIn, IsFreshOut, NothingReceived, NothingSent, wire_in, wire_out};
ghost use Rattle.sat_wires.specs.Ends.{AllIns, AllOuts, InAt, OutAt};

use crate::way::Way;
use crate::ways::Ways;
use sat_link::{LinkIn, LinkOut};
use sat_node::{Envelope, In, Names, Out};
use std::alloc::{AllocError, Global};
use std::marker::Model;

/// The ends of all links, each at its place. Contracts see how many places there are.
#[derive(Drop)]
pub struct Ends<N: Names> {
    outs: Vec<Option<Out<N>>>,
    ins: Vec<Option<In<N>>>,
}

impl<N: Names> Model for Ends<N> {
    ghost use Rattle.std.specs.Prelude.{ℕ, length};
    ghost use Rattle.sat_wires.specs.Ends.{AllIns, AllOuts};

    ghost Value = { ℕ };

    ghost view = { λ e. length e.outs.items };

    ghost invariant = { λ e. AllOuts e.outs.items × AllIns e.ins.items };
}

// The sending ends of all links.
fn place_outs<N: Names>(
    alloc: Global,
    links: Vec<LinkIn<Envelope>>,
) -> Result<Vec<Option<Out<N>>>, AllocError>
    requires wires { map wire_in links.items ≡ N.wires }
    requires fresh { NothingSent links.items }
    ensures { IfOk result (λ ends. AllOuts ends.items) }
{
    let mut ends = Vec::new(alloc);
    for link in links {
        let end = Out::new(alloc, ends.len(), link);
        ends.push(Some(end))?;
    }
    Ok(ends)
}

// The receiving ends of all links.
fn place_ins<N: Names>(
    alloc: Global,
    links: Vec<LinkOut<Envelope>>,
) -> Result<Vec<Option<In<N>>>, AllocError>
    requires wires { map wire_out links.items ≡ N.wires }
    requires fresh { NothingReceived links.items }
    ensures { IfOk result (λ ends. AllIns ends.items) }
{
    let mut ends = Vec::new(alloc);
    for link in links {
        let end = In::new(ends.len(), link);
        ends.push(Some(end))?;
    }
    Ok(ends)
}

impl<N: Names> Ends<N> {
    /// The ends of links through which nothing went, in the order of N's wires.
    pub fn new(
        alloc: Global,
        ins: Vec<LinkIn<Envelope>>,
        outs: Vec<LinkOut<Envelope>>,
    ) -> Result<Ends<N>, AllocError>
        requires ins { (map wire_in ins.items ≡ N.wires) × NothingSent ins.items }
        requires outs { (map wire_out outs.items ≡ N.wires) × NothingReceived outs.items }
    {
        let senders = place_outs::<N>(alloc, ins)?;
        let receivers = place_ins::<N>(alloc, outs)?;
        Ok(Ends {
            outs: senders,
            ins: receivers,
        })
    }

    // Takes the sending end at a place out, None where it is not there.
    #[tactic(auto, using(crate::proofs::Pairs::out_left))]
    fn take_out(&mut self, place: usize) -> Option<Out<N>>
        ensures { IfSome result (λ o. OutAt place o) }
    {
        if place >= self.outs.len() {
            return None;
        }
        self.outs[place].take()
    }

    // Takes the receiving end at a place out, None where it is not there.
    #[tactic(auto, using(crate::proofs::Pairs::in_left))]
    fn take_in(&mut self, place: usize) -> Option<In<N>>
        ensures { IfSome result (λ i. InAt place i) }
    {
        if place >= self.ins.len() {
            return None;
        }
        self.ins[place].take()
    }

    // The sending end of the link of a way. Each is there once; without it the answer is want of memory.
    #[tactic(auto, using(crate::proofs::Places::placed))]
    fn sender(&mut self, all: &Ways, way: &Way) -> Result<Out<N>, AllocError>
        ensures { IfOk result (λ o. OutAt (place_in all.now (link_of way.now)) o) }
    {
        let Some(place) = all.place(way) else {
            return Err(AllocError);
        };
        match self.take_out(place) {
            Some(end) => Ok(end),
            None => Err(AllocError),
        }
    }

    // The receiving end of the link that leads the other way. Each is there once; without it the answer is want of
    // memory.
    #[tactic(auto, using(crate::proofs::Places::placed_back))]
    fn receiver(&mut self, all: &Ways, way: &Way) -> Result<In<N>, AllocError>
        ensures { IfOk result (λ i. InAt (place_back_in all.now (link_of way.now)) i) }
    {
        let back = way.turned();
        let Some(place) = all.place(&back) else {
            return Err(AllocError);
        };
        match self.take_in(place) {
            Some(end) => Ok(end),
            None => Err(AllocError),
        }
    }

    /// Takes out the sending ends of a node's links.
    #[tactic(auto, using(crate::proofs::Pairs::outs_start))]
    pub fn outs(&mut self, alloc: Global, all: &Ways, own: &Ways) -> Result<Vec<Out<N>>, AllocError>
        ensures places { IfOk result (λ outs. out_places outs.items ≡ map (place_in all.now) own.now) }
        ensures fresh { IfOk result (λ outs. Each outs.items (λ _ o. IsFreshOut o)) }
    {
        let mut outs = Vec::new(alloc);
        for way in own.as_slice() {
            let end = self.sender(all, way)?;
            outs.push(end)?;
        }
        Ok(outs)
    }

    /// Takes out the receiving ends of the links that lead the other way.
    #[tactic(auto, using(crate::proofs::Pairs::ins_start))]
    pub fn ins(&mut self, alloc: Global, all: &Ways, own: &Ways) -> Result<Vec<In<N>>, AllocError>
        ensures places { IfOk result (λ ins. in_places ins.items ≡ map (place_back_in all.now) own.now) }
        ensures fresh { IfOk result (λ ins. Each ins.items (λ _ i. IsFreshIn i)) }
    {
        let mut ins = Vec::new(alloc);
        for way in own.as_slice() {
            let end = self.receiver(all, way)?;
            ins.push(end)?;
        }
        Ok(ins)
    }

    /// Takes out the sending ends at these places. Want of memory also where one of them is not there.
    #[tactic(auto, using(crate::proofs::Pairs::outs_start))]
    pub fn outs_at(&mut self, alloc: Global, places: &[usize]) -> Result<Vec<Out<N>>, AllocError>
        ensures places { IfOk result (λ outs. out_places outs.items ≡ places.now) }
        ensures fresh { IfOk result (λ outs. Each outs.items (λ _ o. IsFreshOut o)) }
    {
        let mut outs = Vec::new(alloc);
        for place in places {
            let Some(end) = self.take_out(*place) else {
                return Err(AllocError);
            };
            outs.push(end)?;
        }
        Ok(outs)
    }

    /// Takes out the receiving ends at these places, behind those of a node that there are. Want of memory also where
    /// one of them is not there.
    #[tactic(auto, using(crate::proofs::Pairs::ins_behind))]
    pub fn add_ins(&mut self, ins: &mut Vec<In<N>>, places: &[usize]) -> Result<(), AllocError>
        requires fresh { Each ins.old.items (λ _ i. IsFreshIn i) }
        ensures places { OnOk result (in_places ins.new.items ≡ in_places ins.old.items ++ places.now) }
        ensures fresh { OnOk result (Each ins.new.items (λ _ i. IsFreshIn i)) }
    {
        for place in places {
            let Some(end) = self.take_in(*place) else {
                return Err(AllocError);
            };
            ins.push(end)?;
        }
        Ok(())
    }
}
