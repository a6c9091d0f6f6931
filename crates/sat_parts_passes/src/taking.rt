//! One act of nodes that are lent together, in which only some of them take part.
ghost use Rattle.std.specs.Prelude.{◌≡◌, ◌+◌, ◌<◌, ◌≤◌, ◌⊎◌, ◌↔◌, length, IfErr, IfOk, IsErrOf, OnErr, OnOk};
ghost use Rattle.sat_node.specs.declared.kept.CallFault.TheVariants.{Memory};
ghost use Rattle.sat_node.specs.Links.{Each, OnlyAt};
ghost use Rattle.sat_node.specs.Seen.{last_number};
ghost use Rattle.sat_node.specs.Together.{AllSame, IsFit, IsSure, Keeps, KeepsSome, SameHeld, heard_from, lent, top_of};
ghost use Rattle.sat_parts_passes.specs.Partly.{ArePartlySure, KeepsPart, PartlyKeep, SureIf};

use sat_node::{CallFault, Held, Machine, Names, Part, reserve_all};
use std::sync::MutexGuard;

// Takes an input for which there is room, under one above this number. It can't fail.
fn take_sure<M: Machine, N: Names>(node: &mut Held<M, N>, last: u64, part: Part<M::Input>)
    requires room { 0 < node.old.node.room }
    requires part { IsSure M.meaning M.takes_in M.may_fail node.old part }
    requires number { node.old.node.number ≤ last }
    requires last { last < last_number }
    ensures { KeepsSome M.meaning (last + 1) part.input node.old node.new }
{
    let Part { input, copy } = part;
    let _ = node.act(last, input, copy);
}

// The home's step, under one above this number, which is no less than the home's and the front's.
fn take_home<M: Machine, N: Names>(
    home: &mut Held<M, N>,
    last: u64,
    link: Option<usize>,
    own: Part<M::Input>,
) -> Result<M::Answer, CallFault>
    requires own { IsFit M.meaning M.takes_in link home.old own }
    requires number { home.old.node.number ≤ last }
    requires heard { heard_from link home.old.ins ≤ last }
    requires last { last < last_number }
    ensures home { IfOk result (λ a. Keeps M.meaning (last + 1) link own.input a home.old home.new) }
    ensures err { OnErr result (SameHeld home.old home.new) }
    ensures only { IfErr result (λ f. f ≡ Memory) }
{
    let Part { input, copy } = own;
    home.take(last, link, input, copy)
}

// Takes its part at the node of this number.
fn take_one<M: Machine, N: Names>(
    nodes: &mut Vec<MutexGuard<'_, Held<M, N>>>,
    k: usize,
    last: u64,
    part: Part<M::Input>,
)
    requires inside { k < length nodes.old.items }
    requires room { Each (lent nodes.old.items) (λ j h. j ≡ k → 0 < h.node.room) }
    requires number { Each (lent nodes.old.items) (λ j h. j ≡ k → h.node.number ≤ last) }
    requires part { Each (lent nodes.old.items) (λ j h. j ≡ k → IsSure M.meaning M.takes_in M.may_fail h part) }
    requires last { last < last_number }
    ensures { OnlyAt k (KeepsSome M.meaning (last + 1) part.input) (lent nodes.old.items) (lent nodes.new.items) }
{
    let node = &mut *nodes[k];
    take_sure(node, last, part);
}

// The same, if it has one.
fn take_at<M: Machine, N: Names>(
    nodes: &mut Vec<MutexGuard<'_, Held<M, N>>>,
    k: usize,
    last: u64,
    part: Option<Part<M::Input>>,
)
    requires inside { k < length nodes.old.items }
    requires room { Each (lent nodes.old.items) (λ j h. j ≡ k → 0 < h.node.room) }
    requires number { Each (lent nodes.old.items) (λ j h. j ≡ k → h.node.number ≤ last) }
    requires part { Each (lent nodes.old.items) (λ j h. j ≡ k → SureIf M.meaning M.takes_in M.may_fail h part) }
    requires last { last < last_number }
    ensures { OnlyAt k (KeepsPart M.meaning (last + 1) part) (lent nodes.old.items) (lent nodes.new.items) }
{
    match part {
        None => {}
        Some(part) => take_one(nodes, k, last, part),
    }
}

// Takes at each of these nodes its part, if it has one, under one above this number. None of them can fail.
fn take_rest<M: Machine, N: Names>(
    nodes: &mut Vec<MutexGuard<'_, Held<M, N>>>,
    last: u64,
    mut parts: Vec<Option<Part<M::Input>>>,
)
    requires room { Each (lent nodes.old.items) (λ _ h. 0 < h.node.room) }
    requires number { Each (lent nodes.old.items) (λ _ h. h.node.number ≤ last) }
    requires parts { ArePartlySure M.meaning M.takes_in M.may_fail (lent nodes.old.items) parts.items }
    requires last { last < last_number }
    ensures { PartlyKeep M.meaning (last + 1) parts.items (lent nodes.old.items) (lent nodes.new.items) }
{
    while let Some(part) = parts.pop() {
        let k = parts.len();
        take_at(nodes, k, last, part);
    }
}

/// One act of a home and of some of the other nodes of one sort, all lent: the home and those that have a part keep an
/// entry, under one number, or none does; the others keep nothing. The number is one above the greatest of the one
/// heard, that of the front which the home takes, if a link is named, and those of all nodes (Lamport, 1978). The home
/// answers; the others' parts, in their order, are such as can't fail. `Worn` exactly where that greatest number is the
/// last; `Memory`. After an error all are as before, but for room.
pub(crate) fn take_some<H: Machine, G: Machine, N: Names>(
    home: &mut Held<H, N>,
    others: &mut Vec<MutexGuard<'_, Held<G, N>>>,
    heard: u64,
    link: Option<usize>,
    own: Part<H::Input>,
    parts: Vec<Option<Part<G::Input>>>,
) -> Result<H::Answer, CallFault>
    requires own { IsFit H.meaning H.takes_in link home.old own }
    requires parts { ArePartlySure G.meaning G.takes_in G.may_fail (lent others.old.items) parts.items }
    ensures home { IfOk result (λ a. Keeps H.meaning (top_of heard link home.old (lent others.old.items) + 1) link
        own.input a home.old home.new) }
    ensures others { OnOk result (PartlyKeep G.meaning (top_of heard link home.old (lent others.old.items) + 1)
        parts.items (lent others.old.items) (lent others.new.items)) }
    ensures err { OnErr result
        (SameHeld home.old home.new × AllSame (lent others.old.items) (lent others.new.items)) }
    ensures worn { IsErrOf result (CallFault.Worn last_number)
        ↔ (top_of heard link home.old (lent others.old.items) ≡ last_number) }
    ensures only { IfErr result (λ f. (f ≡ CallFault.Worn last_number) ⊎ (f ≡ Memory)) }
{
    let last = match reserve_all(home, others, heard, link) {
        Ok(last) => last,
        Err(fault) => return Err(fault),
    };
    let result = take_home(home, last, link, own);
    if result.is_err() {
        return result;
    }
    take_rest(others, last, parts);
    result
}
