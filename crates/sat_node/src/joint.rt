//! One act of nodes that are lent together: all keep an entry under one number, or none does. All memory is taken
//! before the first of them steps.
ghost use Rattle.std.specs.Prelude.{◌≡◌, ◌+◌, ◌<◌, ◌≤◌, ◌⊎◌, ◌↔◌, [], ◌∷◌, length, IfOk, IfErr, OnOk, OnErr, IsErrOf};
ghost use Rattle.sat_node.specs.declared.kept.CallFault.TheVariants.{Memory};
ghost use Rattle.sat_node.specs.Seen.{last_number};
ghost use Rattle.sat_node.specs.Links.{Each, OnlyAt};
ghost use Rattle.sat_node.specs.Together.{AllKeep, AllSame, AreSure, IsFit, IsSure, Keeps, KeepsSome, SameHeld};
ghost use Rattle.sat_node.specs.Together.{heard_from, lent, most, top_of};

use crate::held::Held;
use crate::kept::CallFault;
use crate::node::Machine;
use crate::outs::Names;
use std::cmp::max;
use std::sync::MutexGuard;

/// An input with its copy.
#[derive(Drop)]
pub struct Part<I> {
    pub input: I,
    pub copy: I,
}

// Takes an input for which there is room, under one above this number. It can't fail.
fn take_sure<M: Machine, N: Names>(node: &mut Held<M, N>, last: u64, part: Part<M::Input>)
    requires room { 0 < node.old.node.room }
    requires part { IsSure M.meaning M.takes_in M.may_fail node.old part }
    requires number { node.old.node.number ≤ last }
    requires last { last < last_number }
    ensures { KeepsSome M.meaning (last + 1) part.input node.old node.new }
{
    let Part { input, copy } = part;
    let _ = node.act(last, input, copy);
}

// The greatest of this number and of those of these nodes.
fn most_of<M: Machine, N: Names>(number: u64, nodes: &[MutexGuard<'_, Held<M, N>>]) -> u64
    ensures { result ≡ most number (lent nodes.now) }
{
    match nodes.split_first() {
        Some((first, rest)) => most_of(max(number, first.node().lamport()), rest),
        None => number,
    }
}

// The greatest of the number heard, the front's and those of two nodes.
fn top_both<H: Machine, G: Machine, N: Names>(
    home: &Held<H, N>,
    other: &Held<G, N>,
    heard: u64,
    link: Option<usize>,
) -> u64
    ensures { result ≡ top_of heard link home.now (other.now ∷ []) }
{
    let own = max(max(heard, home.heard_from(link)), home.node().lamport());
    max(own, other.node().lamport())
}

// The greatest of the number heard, the front's and those of all nodes.
fn top_all<H: Machine, G: Machine, N: Names>(
    home: &Held<H, N>,
    others: &[MutexGuard<'_, Held<G, N>>],
    heard: u64,
    link: Option<usize>,
) -> u64
    ensures { result ≡ top_of heard link home.now (lent others.now) }
{
    let own = max(max(heard, home.heard_from(link)), home.node().lamport());
    most_of(own, others)
}

// Room for one entry, under one above this number at most.
fn reserve_one<M: Machine, N: Names>(node: &mut Held<M, N>, last: u64) -> Result<u64, CallFault>
    requires number { node.old.node.number ≤ last }
    requires last { last < last_number }
    ensures same { SameHeld node.old node.new }
    ensures room { OnOk result (0 < node.new.node.room) }
    ensures only { IfErr result (λ f. f ≡ Memory) }
{
    node.reserve(last)
}

// The same at both.
#[tactic(auto, using(crate::proofs::Together::same_self))]
fn reserve_both<H: Machine, G: Machine, N: Names>(
    home: &mut Held<H, N>,
    other: &mut Held<G, N>,
    last: u64,
) -> Result<(), CallFault>
    requires home { home.old.node.number ≤ last }
    requires other { other.old.node.number ≤ last }
    requires last { last < last_number }
    ensures home { SameHeld home.old home.new }
    ensures other { SameHeld other.old other.new }
    ensures room { OnOk result ((0 < home.new.node.room) × (0 < other.new.node.room)) }
    ensures only { IfErr result (λ f. f ≡ Memory) }
{
    if let Err(fault) = reserve_one(home, last) {
        return Err(fault);
    }
    if let Err(fault) = reserve_one(other, last) {
        return Err(fault);
    }
    Ok(())
}

// The home's step, under one above this number, which is no less than the home's and the front's.
fn take_home<M: Machine, N: Names>(
    home: &mut Held<M, N>,
    last: u64,
    link: Option<usize>,
    own: Part<M::Input>,
) -> Result<M::Answer, CallFault>
    requires own { IsFit M.meaning M.takes_in link home.old own }
    requires number { home.old.node.number ≤ last }
    requires heard { heard_from link home.old.ins ≤ last }
    requires last { last < last_number }
    ensures home { IfOk result (λ a. Keeps M.meaning (last + 1) link own.input a home.old home.new) }
    ensures err { OnErr result (SameHeld home.old home.new) }
    ensures only { IfErr result (λ f. f ≡ Memory) }
{
    let Part { input, copy } = own;
    home.take(last, link, input, copy)
}

/// One act of two nodes that are lent: both keep an entry, under one number, or neither does. The number is one above
/// the greatest of the one heard, that of the front which the home takes, if a link is named, and those of the two
/// nodes (Lamport, 1978). The home answers; the other node's part is one that can't fail. `Worn` exactly where that
/// greatest number is the last; `Memory`. After an error both are as before.
#[tactic(auto, using(crate::proofs::Together::same_self))]
pub fn take_both<H: Machine, G: Machine, N: Names>(
    home: &mut Held<H, N>,
    other: &mut Held<G, N>,
    heard: u64,
    link: Option<usize>,
    own: Part<H::Input>,
    part: Part<G::Input>,
) -> Result<H::Answer, CallFault>
    requires own { IsFit H.meaning H.takes_in link home.old own }
    requires part { IsSure G.meaning G.takes_in G.may_fail other.old part }
    ensures home { IfOk result (λ a. Keeps H.meaning (top_of heard link home.old (other.old ∷ []) + 1) link own.input a
        home.old home.new) }
    ensures other { OnOk result (KeepsSome G.meaning (top_of heard link home.old (other.old ∷ []) + 1) part.input
        other.old other.new) }
    ensures err { OnErr result (SameHeld home.old home.new × SameHeld other.old other.new) }
    ensures worn { IsErrOf result (CallFault.Worn last_number)
        ↔ (top_of heard link home.old (other.old ∷ []) ≡ last_number) }
    ensures only { IfErr result (λ f. (f ≡ CallFault.Worn last_number) ⊎ (f ≡ Memory)) }
{
    let last = top_both(&*home, &*other, heard, link);
    if last == u64::MAX {
        return Err(CallFault::Worn(last));
    }
    if let Err(fault) = reserve_both(home, other, last) {
        return Err(fault);
    }
    let answer = take_home(home, last, link, own);
    if answer.is_err() {
        return answer;
    }
    take_sure(other, last, part);
    answer
}

// Room for one entry at the node of this number.
fn reserve_at<M: Machine, N: Names>(
    nodes: &mut Vec<MutexGuard<'_, Held<M, N>>>,
    k: usize,
    last: u64,
) -> Result<u64, CallFault>
    requires inside { k < length nodes.old.items }
    requires number { Each (lent nodes.old.items) (λ _ h. h.node.number ≤ last) }
    requires last { last < last_number }
    ensures same { OnlyAt k SameHeld (lent nodes.old.items) (lent nodes.new.items) }
    ensures room { OnOk result (OnlyAt k (λ _ h. 0 < h.node.room) (lent nodes.old.items) (lent nodes.new.items)) }
    ensures only { IfErr result (λ f. f ≡ Memory) }
{
    let node = &mut *nodes[k];
    reserve_one(node, last)
}

// Room for one entry at each of these nodes.
fn reserve_rest<M: Machine, N: Names>(
    nodes: &mut Vec<MutexGuard<'_, Held<M, N>>>,
    last: u64,
) -> Result<(), CallFault>
    requires number { Each (lent nodes.old.items) (λ _ h. h.node.number ≤ last) }
    requires last { last < last_number }
    ensures same { AllSame (lent nodes.old.items) (lent nodes.new.items) }
    ensures room { OnOk result (Each (lent nodes.new.items) (λ _ h. 0 < h.node.room)) }
    ensures only { IfErr result (λ f. f ≡ Memory) }
{
    for k in 0..nodes.len() {
        if let Err(fault) = reserve_at(nodes, k, last) {
            return Err(fault);
        }
    }
    Ok(())
}

/// Room for one entry at a home and at all other nodes of an act, and the greatest of their numbers, of the one heard
/// and of that of the front which the home takes, if a link is named: the act's number is one above it at all of them.
/// `Worn` exactly where it is the last; `Memory`. Nothing but room changes.
#[tactic(auto, using(crate::proofs::Together::same_self, crate::proofs::Lent::all_same))]
pub fn reserve_all<H: Machine, G: Machine, N: Names>(
    home: &mut Held<H, N>,
    others: &mut Vec<MutexGuard<'_, Held<G, N>>>,
    heard: u64,
    link: Option<usize>,
) -> Result<u64, CallFault>
    ensures number { IfOk result (λ n. (n ≡ top_of heard link home.old (lent others.old.items)) × (n < last_number)) }
    ensures home { SameHeld home.old home.new }
    ensures others { AllSame (lent others.old.items) (lent others.new.items) }
    ensures room { OnOk result ((0 < home.new.node.room) × Each (lent others.new.items) (λ _ h. 0 < h.node.room)) }
    ensures worn { IsErrOf result (CallFault.Worn last_number)
        ↔ (top_of heard link home.old (lent others.old.items) ≡ last_number) }
    ensures only { IfErr result (λ f. (f ≡ CallFault.Worn last_number) ⊎ (f ≡ Memory)) }
{
    let last = top_all(&*home, others.as_slice(), heard, link);
    if last == u64::MAX {
        return Err(CallFault::Worn(last));
    }
    if let Err(fault) = reserve_one(home, last) {
        return Err(fault);
    }
    if let Err(fault) = reserve_rest(others, last) {
        return Err(fault);
    }
    Ok(last)
}

// Takes its part at the node of this number. It can't fail.
fn take_at<M: Machine, N: Names>(
    nodes: &mut Vec<MutexGuard<'_, Held<M, N>>>,
    k: usize,
    last: u64,
    part: Part<M::Input>,
)
    requires inside { k < length nodes.old.items }
    requires room { Each (lent nodes.old.items) (λ j h. j ≡ k → 0 < h.node.room) }
    requires number { Each (lent nodes.old.items) (λ j h. j ≡ k → h.node.number ≤ last) }
    requires part { Each (lent nodes.old.items) (λ j h. j ≡ k → IsSure M.meaning M.takes_in M.may_fail h part) }
    requires last { last < last_number }
    ensures { OnlyAt k (KeepsSome M.meaning (last + 1) part.input) (lent nodes.old.items) (lent nodes.new.items) }
{
    let node = &mut *nodes[k];
    take_sure(node, last, part);
}

/// Takes at each of these nodes its part, under one above this number, once there is room for it. None of them can
/// fail.
pub fn take_rest<M: Machine, N: Names>(
    nodes: &mut Vec<MutexGuard<'_, Held<M, N>>>,
    last: u64,
    mut parts: Vec<Part<M::Input>>,
)
    requires room { Each (lent nodes.old.items) (λ _ h. 0 < h.node.room) }
    requires number { Each (lent nodes.old.items) (λ _ h. h.node.number ≤ last) }
    requires parts { AreSure M.meaning M.takes_in M.may_fail (lent nodes.old.items) parts.items }
    requires last { last < last_number }
    ensures { AllKeep M.meaning (last + 1) parts.items (lent nodes.old.items) (lent nodes.new.items) }
{
    while let Some(part) = parts.pop() {
        let k = parts.len();
        take_at(nodes, k, last, part);
    }
}

/// One act of a home and of other nodes of one sort, all lent: all keep an entry, under one number, or none does. The
/// number is one above the greatest of the one heard, that of the front which the home takes, if a link is named, and
/// those of all nodes (Lamport, 1978). The home answers; the others' parts, in their order, are such as can't fail.
/// Where a part has to know what the home answers, the home is stepped by `Held::take` between `reserve_all` and
/// `take_rest`. `Worn` exactly where that greatest number is the last; `Memory`. After an error all are as before.
pub fn take_all<H: Machine, G: Machine, N: Names>(
    home: &mut Held<H, N>,
    others: &mut Vec<MutexGuard<'_, Held<G, N>>>,
    heard: u64,
    link: Option<usize>,
    own: Part<H::Input>,
    parts: Vec<Part<G::Input>>,
) -> Result<H::Answer, CallFault>
    requires own { IsFit H.meaning H.takes_in link home.old own }
    requires parts { AreSure G.meaning G.takes_in G.may_fail (lent others.old.items) parts.items }
    ensures home { IfOk result (λ a. Keeps H.meaning (top_of heard link home.old (lent others.old.items) + 1) link
        own.input a home.old home.new) }
    ensures others { OnOk result (AllKeep G.meaning (top_of heard link home.old (lent others.old.items) + 1) parts.items
        (lent others.old.items) (lent others.new.items)) }
    ensures err { OnErr result (SameHeld home.old home.new × AllSame (lent others.old.items) (lent others.new.items)) }
    ensures worn { IsErrOf result (CallFault.Worn last_number)
        ↔ (top_of heard link home.old (lent others.old.items) ≡ last_number) }
    ensures only { IfErr result (λ f. (f ≡ CallFault.Worn last_number) ⊎ (f ≡ Memory)) }
{
    let last = match reserve_all(home, others, heard, link) {
        Ok(last) => last,
        Err(fault) => return Err(fault),
    };
    let result = take_home(home, last, link, own);
    if result.is_err() {
        return result;
    }
    take_rest(others, last, parts);
    result
}
