//! Growing a tree serializer by serializer.
ghost use Rattle.std.specs.Prelude.{◌≡◌, ◌<◌, ◌≤◌, ◌++◌, ◌∷◌, [], ◌-◌, ℕ, length, map, slice_index, IfOk, Some};
ghost use Rattle.sat_tree.specs.Flaw.{IsSmallTree};
ghost use Rattle.sat_delay.specs.Table.{IsWithinLimits};
ghost use Rattle.sat_label.specs.Words.{below};
ghost use Rattle.sat_plan.specs.Config.{Fits};
ghost use Rattle.sat_plan.specs.Drafts.{draft_config, best_below};
ghost use Rattle.sat_plan.specs.Mismatch.{mismatch};
ghost use Rattle.sat_plan.specs.Steps.{start_at, start_cost, start, seat_cost, nearest, nearest_seats, hung, hung_cost};
ghost use Rattle.sat_plan.specs.Steps.{best_place, parent_cost, best_parent, best_hung, grow, grown};

use crate::best::Best;
use crate::draft::Draft;
use sat_delay::Delays;
use sat_label::MOST_SERIALIZERS;
use sat_tree::{Tree, TreeFault};
use std::alloc::{AllocError, Global};

// The tree of parents and seats that are right.
#[tactic(auto, using(sat_tree::proofs::Small::no_flaw))]
fn tree_of(alloc: Global, parents: &[Option<u16>], seats: &[u16]) -> Result<Tree, AllocError>
    requires { IsSmallTree (record { parents = parents.now; seats = seats.now }) }
    ensures { IfOk result (λ t. t ≡ record { parents = parents.now; seats = seats.now }) }
{
    match Tree::new(alloc, parents, seats) {
        Ok(tree) => Ok(tree),
        Err(TreeFault::Memory) => Err(AllocError),
        Err(_) => unreachable!(),
    }
}

// One serializer at a place, with all sites seated there.
#[tactic(auto, using(crate::proofs::Grown::star_small, crate::proofs::Grown::start_fits), unfolding(crate::specs::Steps::start_at))]
fn start_at(alloc: Global, d: &Delays, place: u16) -> Result<Draft, AllocError>
    requires { place < d.now.places }
    ensures start { IfOk result (λ c. draft_config c ≡ start_at d.now place) }
    ensures fits { IfOk result (λ c. Fits d.now (draft_config c)) }
{
    let seats = vec![in alloc; 0; d.sites() as usize]?;
    let tree = tree_of(alloc, &[None], &seats)?;
    let places = vec![in alloc; u64::from(place)]?;
    let draft = Draft::undelayed(alloc, tree, places)?;
    Ok(draft)
}

#[tactic(auto, unfolding(crate::specs::Steps::start_cost))]
fn start_cost(alloc: Global, d: &Delays, place: u16) -> Result<u64, AllocError>
    requires { place < d.now.places }
    ensures { IfOk result (λ cost. cost ≡ start_cost d.now place) }
{
    let draft = start_at(alloc, d, place)?;
    let cost = draft.mismatch(alloc, d)?;
    Ok(cost)
}

// The best place of a single serializer.
#[tactic(auto, using(crate::proofs::SumLemmas::best_one, crate::proofs::SumLemmas::best_more, crate::proofs::SumLemmas::best_within))]
fn first_place(alloc: Global, d: &Delays) -> Result<Best, AllocError>
    ensures best { IfOk result (λ best. best ≡ best_below (start_cost d.now) d.now.places) }
    ensures within { IfOk result (λ best. best.number < d.now.places) }
{
    let places = d.places();
    let mut best = Best {
        number: 0,
        cost: start_cost(alloc, d, 0)?,
    };
    for place in 1..places {
        best = best.or(place, start_cost(alloc, d, place)?);
    }
    Ok(best)
}

#[tactic(auto, unfolding(crate::specs::Steps::start))]
fn start(alloc: Global, d: &Delays) -> Result<Draft, AllocError>
    ensures start { IfOk result (λ c. draft_config c ≡ start d.now) }
    ensures fits { IfOk result (λ c. Fits d.now (draft_config c)) }
{
    let best = first_place(alloc, d)?;
    let draft = start_at(alloc, d, best.number)?;
    Ok(draft)
}

// The serializer whose place has the least reach for a site.
#[tactic(auto, using(crate::proofs::SumLemmas::best_one, crate::proofs::SumLemmas::best_more, crate::proofs::SumLemmas::best_within), unfolding(crate::specs::Steps::nearest))]
fn nearest(d: &Delays, places: &[u64], site: u16) -> u16
    requires site { site < d.now.sites }
    requires some { 0 < length places.now }
    requires few { length places.now ≤ 15 }
    requires limits { IsWithinLimits d.now }
    requires placed { (z : ℕ) → z < length places.now → slice_index places.now z < d.now.places }
    ensures nearest { result ≡ nearest d.now places.now site }
    ensures within { result < length places.now }
{
    let mut best = Best {
        number: 0,
        cost: d.reach(site, places[0] as u16),
    };
    for z in 1..places.len() as u16 {
        best = best.or(z, d.reach(site, places[z as usize] as u16));
    }
    best.number
}

#[tactic(auto, unfolding(crate::specs::Steps::nearest_seats))]
fn nearest_seats(alloc: Global, d: &Delays, places: &[u64]) -> Result<Vec<u16>, AllocError>
    requires some { 0 < length places.now }
    requires few { length places.now ≤ 15 }
    requires placed { (z : ℕ) → z < length places.now → slice_index places.now z < d.now.places }
    ensures seats { IfOk result (λ seats. seats.items ≡ nearest_seats d.now places.now) }
    ensures limits { IsWithinLimits d.now }
{
    let mut seats = Vec::new(alloc);
    for site in 0..d.sites() {
        seats.push(nearest(d, places, site))?;
    }
    Ok(seats)
}

// The parents of a tree's serializers, and of one more.
#[tactic(auto, using(crate::proofs::Lists::take_get))]
fn parents_with(alloc: Global, tree: &Tree, parent: u16) -> Result<Vec<Option<u16>>, AllocError>
    ensures parents { IfOk result (λ parents. parents.items ≡ tree.now.parents ++ Some parent ∷ []) }
    ensures small { IsSmallTree tree.now }
{
    let mut parents = Vec::new(alloc);
    for z in 0..tree.serializers() {
        parents.push(tree.parent(z))?;
    }
    parents.push(Some(parent))?;
    Ok(parents)
}

// The places of a tree's serializers, and of one more.
fn places_with(alloc: Global, places: &[u64], place: u16) -> Result<Vec<u64>, AllocError>
    ensures { IfOk result (λ list. list.items ≡ places.now ++ place ∷ []) }
{
    let mut list = places.to_vec(alloc)?;
    list.push(u64::from(place))?;
    Ok(list)
}

// A new serializer at a place that hangs on another one, after which every site is seated at the nearest.
#[tactic(auto, using(crate::proofs::Grown::placed_more))]
fn hung(
    alloc: Global,
    d: &Delays,
    draft: &Draft,
    parent: u16,
    place: u16,
) -> Result<Draft, AllocError>
    requires fits { Fits d.now (draft_config draft.now) }
    requires room { length draft.now.tree.parents ≤ 14 }
    requires parent { parent < length draft.now.tree.parents }
    requires place { place < d.now.places }
    ensures hung { IfOk result (λ c. draft_config c ≡ hung d.now (draft_config draft.now) parent place) }
    ensures fits { IfOk result (λ c. Fits d.now (draft_config c)) }
{
    let places = places_with(alloc, &draft.places, place)?;
    let seats = nearest_seats(alloc, d, &places)?;
    let parents = parents_with(alloc, &draft.tree, parent)?;
    let tree = tree_of(alloc, &parents, &seats)?;
    let next = Draft::undelayed(alloc, tree, places)?;
    Ok(next)
}

#[tactic(auto, unfolding(crate::specs::Steps::hung_cost))]
fn hung_cost(
    alloc: Global,
    d: &Delays,
    draft: &Draft,
    parent: u16,
    place: u16,
) -> Result<u64, AllocError>
    requires fits { Fits d.now (draft_config draft.now) }
    requires room { length draft.now.tree.parents ≤ 14 }
    requires parent { parent < length draft.now.tree.parents }
    requires place { place < d.now.places }
    ensures { IfOk result (λ cost. cost ≡ hung_cost d.now (draft_config draft.now) parent place) }
{
    let next = hung(alloc, d, draft, parent, place)?;
    let cost = next.mismatch(alloc, d)?;
    Ok(cost)
}

// The best place of a serializer that hangs on another one.
#[tactic(auto, using(crate::proofs::SumLemmas::best_one, crate::proofs::SumLemmas::best_more, crate::proofs::SumLemmas::best_within))]
fn best_place(alloc: Global, d: &Delays, draft: &Draft, parent: u16) -> Result<Best, AllocError>
    requires fits { Fits d.now (draft_config draft.now) }
    requires room { length draft.now.tree.parents ≤ 14 }
    requires parent { parent < length draft.now.tree.parents }
    ensures best { IfOk result (λ best. best
        ≡ best_below (hung_cost d.now (draft_config draft.now) parent) d.now.places) }
    ensures within { IfOk result (λ best. best.number < d.now.places) }
{
    let places = d.places();
    let mut best = Best {
        number: 0,
        cost: hung_cost(alloc, d, draft, parent, 0)?,
    };
    for place in 1..places {
        best = best.or(place, hung_cost(alloc, d, draft, parent, place)?);
    }
    Ok(best)
}

// The cost of the best place of a serializer that hangs on another one.
#[tactic(auto, unfolding(crate::specs::Steps::parent_cost, crate::specs::Steps::best_place))]
fn parent_cost(alloc: Global, d: &Delays, draft: &Draft, parent: u16) -> Result<u64, AllocError>
    requires fits { Fits d.now (draft_config draft.now) }
    requires room { length draft.now.tree.parents ≤ 14 }
    requires parent { parent < length draft.now.tree.parents }
    ensures { IfOk result (λ cost. cost ≡ parent_cost d.now (draft_config draft.now) parent) }
{
    let best = best_place(alloc, d, draft, parent)?;
    Ok(best.cost)
}

// The best serializer to hang a new one on.
#[tactic(auto, using(crate::proofs::SumLemmas::best_one, crate::proofs::SumLemmas::best_more, crate::proofs::SumLemmas::best_within))]
fn best_parent(alloc: Global, d: &Delays, draft: &Draft) -> Result<Best, AllocError>
    requires fits { Fits d.now (draft_config draft.now) }
    requires room { length draft.now.tree.parents ≤ 14 }
    ensures best { IfOk result (λ best. best
        ≡ best_below (parent_cost d.now (draft_config draft.now)) (length draft.now.tree.parents)) }
    ensures within { IfOk result (λ best. best.number < length draft.now.tree.parents) }
{
    let serializers = draft.tree.serializers();
    let mut best = Best {
        number: 0,
        cost: parent_cost(alloc, d, draft, 0)?,
    };
    for parent in 1..serializers {
        best = best.or(parent, parent_cost(alloc, d, draft, parent)?);
    }
    Ok(best)
}

// The tree with one serializer more, the best of all.
fn best_hung(alloc: Global, d: &Delays, draft: &Draft) -> Result<Draft, AllocError>
    requires fits { Fits d.now (draft_config draft.now) }
    requires room { length draft.now.tree.parents ≤ 14 }
    ensures best { IfOk result (λ c. draft_config c ≡ best_hung d.now (draft_config draft.now)) }
    ensures fits { IfOk result (λ c. Fits d.now (draft_config c)) }
{
    let parent = best_parent(alloc, d, draft)?.number;
    let place = best_place(alloc, d, draft, parent)?.number;
    let next = hung(alloc, d, draft, parent, place)?;
    Ok(next)
}

/// Grows a tree, serializer by serializer, as long as the best one lowers the mismatch and there are at most 15.
pub fn grown(alloc: Global, d: &Delays) -> Result<Draft, AllocError>
    ensures grown { IfOk result (λ c. draft_config c ≡ grown d.now) }
    ensures fits { IfOk result (λ c. Fits d.now (draft_config c)) }
{
    let mut draft = start(alloc, d)?;
    let mut cost = draft.mismatch(alloc, d)?;
    'growing: while draft.tree.serializers() < MOST_SERIALIZERS {
        let next = best_hung(alloc, d, &draft)?;
        let lower = next.mismatch(alloc, d)?;
        if lower >= cost {
            return Ok(draft);
        }
        draft = next;
        cost = lower;
    }
    Ok(draft)
}
