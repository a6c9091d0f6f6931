//! The lines after `begin`, by their words.
ghost use Rattle.std.specs.Prelude.{codes, Bool, true, ◌≡◌, ◌<◌, ◌≤◌, ◌+◌, ◌==◌, [], ◌∷◌, length, map, option_copied};
ghost use Rattle.std.specs.Prelude.{IsTrue, IfSome, MatchResult, Some, None, Ok, Err, if◌then◌else◌};
ghost use Rattle.std.specs.Option.{option_map};
ghost use Rattle.sat_tree.specs.Cut.{IsNode};
ghost use Rattle.sat_tree.specs.Shape.{TreeShape};
ghost use Rattle.sat_act.specs.Parts.{tree_of};
ghost use Rattle.sat_script.specs.Causes.{bar, full};
ghost use Rattle.sat_script.specs.Grammar.{is_end, body_line};
ghost use Rattle.sat_script.specs.Lines.{Gives};
ghost use Rattle.sat_script.specs.Said.{said_of, shape_of, SaysOn, begins, AreRead, IsReadWord, SaysAct, is_counted};
ghost use Rattle.sat_act.specs.Deployed.{Deployed};
ghost use Rattle.sat_label.specs.Grouped.{are_items, list_of};
ghost use Rattle.sat_label.specs.Text.{is_value};
ghost use Rattle.sat_script.specs.Spelled.{HaveNames};
ghost use Rattle.sat_script.specs.Table.{shape, shapes, known, all_known, says, all_say, has_node, joins, edge_cause};
ghost use Rattle.sat_script.specs.Table.{unfit, said_act, form_line, kinds_say, act_line, kinds_of, act_of, args_of};
ghost use Rattle.sat_script.specs.Table.{place, num, at};
ghost use Rattle.sat_script.specs.Words.{node_in, serializer_in, words_of};
ghost use Rattle.sat_script.specs.declared.form.Form.TheVariants as form;
ghost use Rattle.sat_script.specs.declared.form.Kind.TheVariants as kind;
ghost use Rattle.sat_script.specs.declared.line.Parsed.TheVariants as parsed;

use crate::Cause;
use crate::form::{Form, Kind, act_forms, allows, form_of_one, found_form, kinds_of};
use crate::header::Header;
use crate::line::Parsed;
use crate::nodes::{node_in, serializer_in};
use crate::number::{is_number, number_below, number_to, number_up_to};
use crate::place::Place;
use crate::said::{Args, Said, act_of};
use crate::words::{is_node, is_serializer, is_token};
use arrayvec::ArrayVec;
use sat_act::Act;
use sat_label::{Items, NodeId, TS_END, Value, are_items, spells_name, spells_value};
use sat_tree::Tree;
use std::alloc::Global;

// ---- each word

/// Whether a word is one of a kind by its bytes alone.
pub fn has_shape(kind: Kind, word: &[u8]) -> bool
    ensures { result ≡ shape kind word.now }
{
    match kind {
        Kind::Client => spells_name(word),
        Kind::Item => spells_name(word),
        Kind::Value => is_token(word),
        Kind::Node => is_node(word),
        Kind::Serializer => is_serializer(word),
        _ => is_number(word),
    }
}

fn is_known(header: &Header, kind: Kind, word: &[u8]) -> bool
    ensures { result ≡ known header.now.said kind word.now }
{
    match kind {
        Kind::Client => header.client_of(word).is_some(),
        Kind::Item => header.item_of(word).is_some(),
        _ => true,
    }
}

#[inline(always)]
fn place_of<'a>(number: Option<u16>) -> Option<Said<'a>>
    ensures { option_map said_of result ≡ option_map place number }
{
    Some(Said::Place(number?))
}

#[inline(always)]
fn num_of<'a>(number: Option<u64>) -> Option<Said<'a>>
    ensures { option_map said_of result ≡ option_map num number }
{
    Some(Said::Number(number?))
}

#[inline(always)]
#[tactic(auto, using(crate::proofs::NoTree::no_node))]
fn node_of<'a>(tree: Option<&Tree>, word: &[u8]) -> Option<Said<'a>>
    ensures { option_map said_of result ≡ option_map at (node_in (shape_of (option_copied tree.entry)) word.now) }
{
    Some(Said::Node(node_in(tree?, word)?))
}

#[inline(always)]
#[tactic(auto, using(crate::proofs::NoTree::no_serializer))]
fn serializer_of<'a>(tree: Option<&Tree>, word: &[u8]) -> Option<Said<'a>>
    ensures { option_map said_of result
        ≡ option_map place (serializer_in (shape_of (option_copied tree.entry)) word.now) }
{
    place_of(serializer_in(tree?, word))
}

// What a word says; a node stands in the tree of the epoch before it.
#[inline(always)]
fn says<'a>(header: &Header, tree: Option<&Tree>, kind: Kind, word: &'a [u8]) -> Option<Said<'a>>
    ensures { option_map said_of result ≡ says header.now.said (shape_of (option_copied tree.entry)) kind word.now }
{
    match kind {
        Kind::Client => place_of(header.client_of(word)),
        Kind::Item => place_of(header.item_of(word)),
        Kind::Value => {
            if spells_value(word) {
                Some(Said::Bytes(word))
            } else {
                None
            }
        }
        Kind::Site => place_of(number_below(header.sites(), word)),
        Kind::Gear => place_of(number_below(header.gears(), word)),
        Kind::Ts => num_of(number_up_to(TS_END, word)),
        Kind::Count => num_of(number_up_to(u64::MAX, word)),
        Kind::Epoch => place_of(number_to(header.plans(), word)),
        Kind::Node => node_of(tree, word),
        Kind::Serializer => serializer_of(tree, word),
    }
}

// ---- the words of a line

fn shapes(kinds: &[Kind], words: &[&[u8]]) -> bool
    ensures { result ≡ shapes kinds.now (map (λ word. word.now) words.now) }
{
    let Some((kind, kinds)) = kinds.split_first() else {
        return words.is_empty();
    };
    let Some((word, words)) = words.split_first() else {
        return false;
    };
    has_shape(*kind, word) && shapes(kinds, words)
}

fn all_known(header: &Header, kinds: &[Kind], words: &[&[u8]]) -> bool
    ensures { result ≡ all_known header.now.said kinds.now (map (λ word. word.now) words.now) }
{
    let Some((kind, kinds)) = kinds.split_first() else {
        return true;
    };
    let Some((word, words)) = words.split_first() else {
        return true;
    };
    is_known(header, *kind, word) && all_known(header, kinds, words)
}

// The words in turn, added to what was said; an epoch says in which tree the nodes after it stand.
#[inline(never)]
fn all_say<'a>(
    header: &Header,
    tree: Option<&Tree>,
    kinds: &[Kind],
    words: &[&'a [u8]],
    said: &mut Args<'a>,
) -> Result<(), Cause>
    requires { length said.old.items + length kinds.now ≤ 9 }
    ensures { SaysOn result said.old.items said.new.items
        (all_say header.now.said (shape_of (option_copied tree.entry)) kinds.now (map (λ word. word.now) words.now)) }
{
    let Some((kind, kinds)) = kinds.split_first() else {
        return Ok(());
    };
    let Some((word, words)) = words.split_first() else {
        return Ok(());
    };
    let Some(one) = says(header, tree, *kind, word) else {
        return Err(Cause::OutOfRange);
    };
    said.push(one);
    match (*kind, one) {
        (Kind::Epoch, Said::Place(epoch)) => {
            let Some(tree) = header.tree(epoch) else {
                return Err(Cause::NoEdge);
            };
            all_say(header, Some(tree), kinds, words, said)
        }
        _ => all_say(header, tree, kinds, words, said),
    }
}

// ---- good words, each read once

#[inline(always)]
fn begins(kind: Kind, word: &[u8]) -> bool
    ensures { result ≡ begins kind word.now }
{
    match kind {
        Kind::Node => match word {
            [] => false,
            [byte, ..] => *byte == b's' || *byte == b'z',
        },
        Kind::Serializer => match word {
            [] => false,
            [byte, ..] => *byte == b'z',
        },
        _ => true,
    }
}

// What an epoch says, and its tree.
fn read_epoch<'h>(header: &'h Header, word: &[u8]) -> Option<(u16, &'h Tree)>
    ensures read { (t : TreeShape)
        → IfSome result (λ read. IsReadWord header.now.said t Kind.Epoch word.now (place read.0) read.1.now) }
    ensures tree { IfSome result (λ read. tree_of header.now.said read.0 ≡ Some read.1.now) }
{
    let epoch = number_to(header.plans(), word)?;
    let tree = header.tree(epoch)?;
    Some((epoch, tree))
}

// ---- some good words together

/// What an epoch, a node and a serializer say that are neighbours in its tree.
#[inline(always)]
pub fn said_edge(
    header: &Header,
    epoch: &[u8],
    from: &[u8],
    to: &[u8],
) -> Option<(u16, NodeId, u16)>
    ensures { IfSome result (λ said. AreRead header.now.said (kind.Epoch ∷ kind.Node ∷ kind.Serializer ∷ [])
        (epoch.now ∷ from.now ∷ to.now ∷ []) (place said.0 ∷ at said.1 ∷ place said.2 ∷ [])
        × (edge_cause (tree_of header.now.said said.0) said.1 said.2 ≡ None)) }
{
    let (epoch, tree) = read_epoch(header, epoch)?;
    if !begins(Kind::Node, from) {
        return None;
    }
    if !begins(Kind::Serializer, to) {
        return None;
    }
    let from = node_in(tree, from)?;
    let to = serializer_in(tree, to)?;
    if !tree.is_edge(from, NodeId::Serializer(to)) {
        return None;
    }
    Some((epoch, from, to))
}

/// What an epoch and a serializer say.
#[inline(always)]
pub fn said_serializer(header: &Header, epoch: &[u8], serializer: &[u8]) -> Option<(u16, u16)>
    ensures { IfSome result (λ said. AreRead header.now.said (kind.Epoch ∷ kind.Serializer ∷ [])
        (epoch.now ∷ serializer.now ∷ []) (place said.0 ∷ place said.1 ∷ [])) }
{
    let (epoch, tree) = read_epoch(header, epoch)?;
    if !begins(Kind::Serializer, serializer) {
        return None;
    }
    let serializer = serializer_in(tree, serializer)?;
    Some((epoch, serializer))
}

/// What an epoch, a serializer and a number say.
#[inline(always)]
pub fn said_part(
    header: &Header,
    epoch: &[u8],
    serializer: &[u8],
    number: &[u8],
) -> Option<(u16, u16, u64)>
    ensures { IfSome result (λ said. AreRead header.now.said (kind.Epoch ∷ kind.Serializer ∷ kind.Count ∷ [])
        (epoch.now ∷ serializer.now ∷ number.now ∷ []) (place said.0 ∷ place said.1 ∷ num said.2 ∷ [])) }
{
    let (epoch, tree) = read_epoch(header, epoch)?;
    if !begins(Kind::Serializer, serializer) {
        return None;
    }
    let serializer = serializer_in(tree, serializer)?;
    let number = number_up_to(u64::MAX, number)?;
    Some((epoch, serializer, number))
}

// ---- acts

fn has_node(tree: &Tree, node: NodeId) -> bool
    ensures test { result ≡ has_node tree.now node }
    ensures inside { IsTrue result → IsNode tree.now node }
{
    match node {
        NodeId::Site(site) => site < tree.sites(),
        NodeId::Serializer(serializer) => serializer < tree.serializers(),
    }
}

fn joins(tree: &Tree, from: NodeId, to: u16) -> bool
    ensures { result ≡ joins tree.now from to }
{
    let to = NodeId::Serializer(to);
    if !has_node(tree, from) {
        return false;
    }
    if !has_node(tree, to) {
        return false;
    }
    tree.is_edge(from, to)
}

/// Why a label may not go from a node to a serializer of a tree.
pub fn edge_cause(tree: Option<&Tree>, from: NodeId, to: u16) -> Option<Cause>
    ensures { result ≡ edge_cause (option_copied tree.entry) from to }
{
    match tree {
        Some(tree) if joins(tree, from, to) => None,
        _ => Some(Cause::NoEdge),
    }
}

fn pair_cause(from: u16, to: u16) -> Option<Cause>
    ensures { result ≡ (if from == to then Some Cause.OutOfRange else None) }
{
    if from == to {
        Some(Cause::OutOfRange)
    } else {
        None
    }
}

// Items that don't ascend.
fn group_cause(items: &Items) -> Option<Cause>
    ensures { result ≡ (if are_items (list_of items.now) then None else Some Cause.BadGroup) }
{
    let ascend = match *items {
        Items::One(a) => are_items(&[a]),
        Items::Two(a, b) => are_items(&[a, b]),
        Items::Three(a, b, c) => are_items(&[a, b, c]),
        Items::Four(a, b, c, d) => are_items(&[a, b, c, d]),
    };
    if ascend { None } else { Some(Cause::BadGroup) }
}

// Two sites that are one, two nodes that are no edge, or items that don't ascend.
#[inline(always)]
fn unfit(header: &Header, act: &Act) -> Option<Cause>
    ensures { result ≡ unfit header.now.said act.now }
{
    match act {
        Act::Bulk { from, to, .. } => pair_cause(*from, *to),
        Act::Beat { from, to } => pair_cause(*from, *to),
        Act::BeatIn { from, to, .. } => pair_cause(*from, *to),
        Act::Hop { epoch, from, to } => edge_cause(header.tree(*epoch), *from, *to),
        Act::Writes { items, .. } => group_cause(items),
        _ => None,
    }
}

// ---- a line

// The act that words of a form say, unless its parts do not go together.
#[inline(always)]
fn said_act(alloc: Global, header: &Header, form: Form, said: &[Said]) -> Result<Act, Cause>
    ensures { Gives result (said_act header.now.said form (Ok (map said_of said.now))) }
{
    let act = act_of(alloc, form, said)?;
    match unfit(header, &act) {
        Some(cause) => Err(cause),
        None => Ok(act),
    }
}

// The causes in their order.
#[tactic(auto, unfolding(crate::specs::Table::form_line))]
fn form_line(alloc: Global, place: &Place, form: Form, words: &[&[u8]]) -> Result<Act, Cause>
    ensures { Gives result (form_line (bar place.now) place.now.header form (map (λ word. word.now) words.now)) }
{
    if !allows(place.header().format(), form) {
        return Err(Cause::BadAct);
    }
    let kinds = kinds_of(form);
    if !shapes(kinds, words) {
        return Err(Cause::BadAct);
    }
    place.admit(form)?;
    if !all_known(place.header(), kinds, words) {
        return Err(Cause::UnknownName);
    }
    let mut said = ArrayVec::new();
    all_say(place.header(), None, kinds, words, &mut said)?;
    said_act(alloc, place.header(), form, said.as_slice())
}

/// What words of these kinds say behind the word of an act that another reader has.
#[tactic(auto, unfolding(crate::specs::Table::kinds_say))]
pub fn kinds_say<'a>(place: &Place, kinds: &[Kind], words: &[&'a [u8]]) -> Result<Args<'a>, Cause>
    requires { length kinds.now ≤ 9 }
    ensures { MatchResult result
        (λ args. kinds_say (full place.now) place.now.header kinds.now (map (λ word. word.now) words.now)
        ≡ Ok (map said_of args.items))
        (λ cause. kinds_say (full place.now) place.now.header kinds.now (map (λ word. word.now) words.now)
        ≡ Err cause) }
{
    if !shapes(kinds, words) {
        return Err(Cause::BadAct);
    }
    if let Some(cause) = place.full() {
        return Err(cause);
    }
    if !all_known(place.header(), kinds, words) {
        return Err(Cause::UnknownName);
    }
    let mut said = ArrayVec::new();
    all_say(place.header(), None, kinds, words, &mut said)?;
    Ok(said)
}

#[tactic(auto, unfolding(crate::specs::Table::act_line))]
fn act_line(alloc: Global, place: &Place, words: &[&[u8]]) -> Result<Act, Cause>
    ensures { Gives result (act_line (bar place.now) place.now.header (map (λ word. word.now) words.now)) }
{
    let Some((word, words)) = words.split_first() else {
        return Err(Cause::BadAct);
    };
    let Some(form) = found_form(word, words.len(), act_forms()) else {
        return Err(Cause::BadAct);
    };
    form_line(alloc, place, form, words)
}

fn is_end(words: &[&[u8]]) -> bool
    ensures { result ≡ is_end (map (λ word. word.now) words.now) }
{
    match words {
        [word] => *word == b"end".as_slice(),
        _ => false,
    }
}

// ---- acts that most lines are, made as their words are read

#[inline(always)]
#[tactic(auto, using(crate::proofs::Quick::site_at))]
fn read_site(header: &Header, word: &[u8]) -> Option<u16>
    ensures { IfSome result (λ site. (t : TreeShape) → IsReadWord header.now.said t Kind.Site word.now (place site) t) }
{
    number_below(header.sites(), word)
}

#[inline(always)]
#[tactic(auto, using(crate::proofs::Quick::gear_at))]
fn read_gear(header: &Header, word: &[u8]) -> Option<u16>
    ensures { IfSome result (λ gear. (t : TreeShape) → IsReadWord header.now.said t Kind.Gear word.now (place gear) t) }
{
    number_below(header.gears(), word)
}

#[inline(always)]
#[tactic(auto, using(crate::proofs::Quick::client_at))]
fn read_client(header: &Header, word: &[u8]) -> Option<u16>
    requires { HaveNames header.now.said }
    ensures { IfSome result (λ client. (t : TreeShape)
        → IsReadWord header.now.said t Kind.Client word.now (place client) t) }
{
    header.client_of(word)
}

#[inline(always)]
#[tactic(auto, using(crate::proofs::Quick::item_at))]
fn read_item(header: &Header, word: &[u8]) -> Option<u16>
    requires { HaveNames header.now.said }
    ensures { IfSome result (λ item. (t : TreeShape) → IsReadWord header.now.said t Kind.Item word.now (place item) t) }
{
    header.item_of(word)
}

// A value, where there is memory for it.
#[inline(always)]
fn read_value(alloc: Global, word: &[u8]) -> Option<Value>
    ensures { IfSome result (λ value. (value ≡ word.now) × (is_value word.now ≡ true)) }
{
    Value::of(alloc, word).ok()?
}

#[inline(always)]
fn bulk_of(header: &Header, from: &[u8], gear: &[u8], to: &[u8]) -> Option<Act>
    ensures { (hops : Bool) → IfSome result
        (λ act. SaysAct hops header.now.said (codes "bulk") (from.now ∷ gear.now ∷ to.now ∷ []) act) }
{
    let from = read_site(header, from)?;
    let gear = read_gear(header, gear)?;
    let to = read_site(header, to)?;
    if from == to {
        return None;
    }
    Some(Act::Bulk {
        from,
        gear,
        to,
        number: None,
    })
}

#[inline(always)]
fn numbered_bulk_of(
    header: &Header,
    from: &[u8],
    gear: &[u8],
    to: &[u8],
    number: &[u8],
) -> Option<Act>
    requires { HaveNames header.now.said }
    ensures { (hops : Bool) → IfSome result
        (λ act. SaysAct hops header.now.said (codes "bulk") (from.now ∷ gear.now ∷ to.now ∷ number.now ∷ []) act) }
{
    let from = read_site(header, from)?;
    let gear = read_gear(header, gear)?;
    let to = read_site(header, to)?;
    let number = number_up_to(u64::MAX, number)?;
    if from == to {
        return None;
    }
    Some(Act::Bulk {
        from,
        gear,
        to,
        number: Some(number),
    })
}

#[inline(always)]
fn tick_of(header: &Header, site: &[u8], gear: &[u8], ts: &[u8]) -> Option<Act>
    ensures { (hops : Bool) → IfSome result
        (λ act. SaysAct hops header.now.said (codes "tick") (site.now ∷ gear.now ∷ ts.now ∷ []) act) }
{
    let site = read_site(header, site)?;
    let gear = read_gear(header, gear)?;
    let ts = number_up_to(TS_END, ts)?;
    Some(Act::Tick { site, gear, ts })
}

#[inline(always)]
fn beat_in_of(header: &Header, from: &[u8], to: &[u8], number: &[u8]) -> Option<Act>
    requires { HaveNames header.now.said }
    ensures { (hops : Bool) → IfSome result
        (λ act. SaysAct hops header.now.said (codes "beatin") (from.now ∷ to.now ∷ number.now ∷ []) act) }
{
    let from = read_site(header, from)?;
    let to = read_site(header, to)?;
    let number = number_up_to(u64::MAX, number)?;
    if from == to {
        return None;
    }
    Some(Act::BeatIn { from, to, number })
}

#[inline(always)]
fn hop_of(header: &Header, hops: bool, epoch: &[u8], from: &[u8], to: &[u8]) -> Option<Act>
    ensures { IfSome result
        (λ act. SaysAct hops header.now.said (codes "hop") (epoch.now ∷ from.now ∷ to.now ∷ []) act) }
{
    if !hops {
        return None;
    }
    let (epoch, from, to) = said_edge(header, epoch, from, to)?;
    Some(Act::Hop { epoch, from, to })
}

#[inline(always)]
fn write_of(alloc: Global, header: &Header, client: &[u8], item: &[u8], value: &[u8]) -> Option<Act>
    requires { HaveNames header.now.said }
    ensures { (hops : Bool) → IfSome result
        (λ act. SaysAct hops header.now.said (codes "write") (client.now ∷ item.now ∷ value.now ∷ []) act) }
{
    let client = read_client(header, client)?;
    let item = read_item(header, item)?;
    let value = read_value(alloc, value)?;
    Some(Act::Write {
        client,
        item,
        value,
    })
}

#[inline(always)]
fn read_of(header: &Header, client: &[u8], item: &[u8]) -> Option<Act>
    requires { HaveNames header.now.said }
    ensures { (hops : Bool) → IfSome result
        (λ act. SaysAct hops header.now.said (codes "read") (client.now ∷ item.now ∷ []) act) }
{
    let client = read_client(header, client)?;
    let item = read_item(header, item)?;
    Some(Act::Read { client, item })
}

#[inline(always)]
fn beat_of(header: &Header, from: &[u8], to: &[u8]) -> Option<Act>
    ensures { (hops : Bool) → IfSome result
        (λ act. SaysAct hops header.now.said (codes "beat") (from.now ∷ to.now ∷ []) act) }
{
    let from = read_site(header, from)?;
    let to = read_site(header, to)?;
    if from == to {
        return None;
    }
    Some(Act::Beat { from, to })
}

#[inline(always)]
fn move_of(header: &Header, client: &[u8], site: &[u8]) -> Option<Act>
    requires { HaveNames header.now.said }
    ensures { (hops : Bool) → IfSome result
        (λ act. SaysAct hops header.now.said (codes "move") (client.now ∷ site.now ∷ []) act) }
{
    let client = read_client(header, client)?;
    let site = read_site(header, site)?;
    Some(Act::Move { client, site })
}

#[inline(always)]
fn attach_of(header: &Header, client: &[u8], site: &[u8]) -> Option<Act>
    requires { HaveNames header.now.said }
    ensures { (hops : Bool) → IfSome result
        (λ act. SaysAct hops header.now.said (codes "attach") (client.now ∷ site.now ∷ []) act) }
{
    let client = read_client(header, client)?;
    let site = read_site(header, site)?;
    Some(Act::Attach { client, site })
}

#[inline(always)]
fn leave_of(header: &Header, client: &[u8]) -> Option<Act>
    requires { HaveNames header.now.said }
    ensures { (hops : Bool) → IfSome result
        (λ act. SaysAct hops header.now.said (codes "leave") (client.now ∷ []) act) }
{
    let client = read_client(header, client)?;
    Some(Act::Leave { client })
}

// The act of a form whose only word is a site.
#[inline(always)]
fn act_of_site(form: Form, site: u16) -> Option<Act>
    ensures { IfSome result (λ act. (kinds_of form ≡ kind.Site ∷ []) × (args_of act ≡ place site ∷ [])
        × (act_of form (args_of act) ≡ Some act)
        × ((hops : Bool) → is_counted hops form ≡ true) × ((d : Deployed) → unfit d act ≡ None)) }
{
    match form {
        Form::Turn => Some(Act::Turn { site }),
        Form::Emit => Some(Act::Emit { site }),
        Form::Gather => Some(Act::Gather { site }),
        Form::Pulse => Some(Act::Pulse { site }),
        Form::Stamp => Some(Act::Stamp { site }),
        Form::Advance => Some(Act::Advance { site }),
        _ => None,
    }
}

#[inline(always)]
fn site_act_of(header: &Header, word: &[u8], site: &[u8]) -> Option<Act>
    ensures { (hops : Bool) → IfSome result (λ act. SaysAct hops header.now.said word.now (site.now ∷ []) act) }
{
    let form = form_of_one(word)?;
    let site = read_site(header, site)?;
    act_of_site(form, site)
}

/// The act that a word and one behind it say. Of rare acts, and where the line may be bad, it says nothing.
#[inline(always)]
pub fn act_of_two(header: &Header, word: &[u8], one: &[u8]) -> Option<Act>
    requires { HaveNames header.now.said }
    ensures { (hops : Bool) → IfSome result (λ act. SaysAct hops header.now.said word.now (one.now ∷ []) act) }
{
    match word {
        [b'l', b'e', b'a', b'v', b'e'] => leave_of(header, one),
        _ => site_act_of(header, word, one),
    }
}

/// The act that a word and two behind it say, as above.
#[inline(always)]
pub fn act_of_three(header: &Header, word: &[u8], one: &[u8], two: &[u8]) -> Option<Act>
    requires { HaveNames header.now.said }
    ensures { (hops : Bool) → IfSome result
        (λ act. SaysAct hops header.now.said word.now (one.now ∷ two.now ∷ []) act) }
{
    match word {
        [b'r', b'e', b'a', b'd'] => read_of(header, one, two),
        [b'm', b'o', b'v', b'e'] => move_of(header, one, two),
        [b'b', b'e', b'a', b't'] => beat_of(header, one, two),
        _ => {
            if word == b"attach".as_slice() {
                attach_of(header, one, two)
            } else {
                None
            }
        }
    }
}

/// The act that a word and three behind it say, as above. It is a hop only where hops are wanted.
#[inline(always)]
pub fn act_of_four(
    alloc: Global,
    header: &Header,
    hops: bool,
    word: &[u8],
    one: &[u8],
    two: &[u8],
    three: &[u8],
) -> Option<Act>
    requires { HaveNames header.now.said }
    ensures { IfSome result (λ act. SaysAct hops header.now.said word.now (one.now ∷ two.now ∷ three.now ∷ []) act) }
{
    match word {
        [b'h', b'o', b'p'] => hop_of(header, hops, one, two, three),
        [b'b', b'u', b'l', b'k'] => bulk_of(header, one, two, three),
        [b't', b'i', b'c', b'k'] => tick_of(header, one, two, three),
        [b'w', b'r', b'i', b't', b'e'] => write_of(alloc, header, one, two, three),
        _ => {
            if word == b"beatin".as_slice() {
                beat_in_of(header, one, two, three)
            } else {
                None
            }
        }
    }
}

/// The act that a word and four behind it say, as above.
#[inline(always)]
pub fn act_of_five(
    header: &Header,
    word: &[u8],
    one: &[u8],
    two: &[u8],
    three: &[u8],
    four: &[u8],
) -> Option<Act>
    requires { HaveNames header.now.said }
    ensures { (hops : Bool) → IfSome result
        (λ act. SaysAct hops header.now.said word.now (one.now ∷ two.now ∷ three.now ∷ four.now ∷ []) act) }
{
    match word {
        [b'b', b'u', b'l', b'k'] => numbered_bulk_of(header, one, two, three, four),
        _ => None,
    }
}

/// The act of a write whose line may be long, cut at its first three blanks. Its value has no more of them. Short lines
/// have a call of their own, so that it has one caller, into which it goes whole.
pub fn long_write_of(
    alloc: Global,
    header: &Header,
    client: &[u8],
    item: &[u8],
    value: &[u8],
) -> Option<Act>
    requires { HaveNames header.now.said }
    ensures { (hops : Bool) → IfSome result
        (λ act. SaysAct hops header.now.said (codes "write") (client.now ∷ item.now ∷ value.now ∷ []) act
        × (words_of value.now ≡ value.now ∷ [])) }
{
    let client = read_client(header, client)?;
    let item = read_item(header, item)?;
    let value = read_value(alloc, value)?;
    Some(Act::Write {
        client,
        item,
        value,
    })
}

/// An act, or `end`.
#[tactic(auto, unfolding(crate::specs::Grammar::body_line))]
pub fn body_line(alloc: Global, place: &Place, words: &[&[u8]]) -> Result<Parsed, Cause>
    ensures { Gives result (body_line place.now (map (λ word. word.now) words.now)) }
{
    if is_end(words) {
        return Ok(Parsed::End);
    }
    match act_line(alloc, place, words) {
        Ok(act) => Ok(Parsed::Act(act)),
        Err(cause) => Err(cause),
    }
}
