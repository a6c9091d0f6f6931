//! The spelling of each line, without its byte 10.
ghost use Rattle.std.specs.Prelude.{◌≡◌, ◌++◌, ◌∷◌, [], OnOk, IfOk, map, codes, if◌then◌else◌};
ghost use Rattle.std.specs.Fmt.{decimal};
ghost use Rattle.sat_label.specs.Text.{node_text};
ghost use Rattle.sat_label.specs.Words.{bit};
ghost use Rattle.sat_script.specs.Spelled.{with_comma, line_text, sites_text, item_words, client_words, plan_words};
ghost use Rattle.sat_script.specs.Spelled.{act_text};
ghost use Rattle.sat_tree.specs.PlanLine.{spaced, parent_text};
ghost use Rattle.sat_script.specs.Table.{client_name, item_name, text, texts};
ghost use Rattle.sat_script.specs.Said.{said_of};

use crate::form::{Kind, kinds_of, word_of};
use crate::said::{Said, parts_of};
use sat_act::{Act, ClientLine, Deployment, Item, Plan};
use sat_label::{NodeId, SiteSet};
use sat_tree::Tree;
use std::alloc::{AllocError, Global};

/// Adds a line and its byte 10 to a text.
#[tactic(auto, using(std::proofs::lemmas::List::append_assoc))]
pub fn push_line(text: &mut Vec<u8>, line: &[u8]) -> Result<(), AllocError>
    ensures { OnOk result (text.new.items ≡ text.old.items ++ (line.now ++ 10 ∷ [])) }
{
    text.extend_from_slice(line)?;
    text.push(b'\n')?;
    Ok(())
}

// Adds a word to a line.
#[tactic(auto, using(std::proofs::lemmas::List::append_assoc))]
fn add(line: &mut Vec<u8>, word: &[u8]) -> Result<(), AllocError>
    ensures { OnOk result (line.new.items ≡ line.old.items ++ 32 ∷ word.now) }
{
    line.push(b' ')?;
    line.extend_from_slice(word)
}

// Adds a number to a line.
fn add_number(alloc: Global, line: &mut Vec<u8>, number: u64) -> Result<(), AllocError>
    ensures { OnOk result (line.new.items ≡ line.old.items ++ 32 ∷ decimal number) }
{
    let digits = number.to_string(alloc)?;
    add(line, digits.as_bytes())
}

// ---- lines of a word and numbers

/// A line of a word and a number.
pub fn number_line(alloc: Global, word: &[u8], number: u64) -> Result<Vec<u8>, AllocError>
    ensures { IfOk result (λ line. line.items ≡ line_text (word.now ∷ decimal number ∷ [])) }
{
    let mut line = word.to_vec(alloc)?;
    add_number(alloc, &mut line, number)?;
    Ok(line)
}

// ---- words

// Adds a number to a list with commas.
fn add_with_comma(alloc: Global, list: &mut Vec<u8>, number: u16) -> Result<(), AllocError>
    ensures { OnOk result (list.new.items ≡ with_comma list.old.items (decimal number)) }
{
    let digits = number.to_string(alloc)?;
    if list.is_empty() {
        return list.extend_from_slice(digits.as_bytes());
    }
    list.push(b',')?;
    list.extend_from_slice(digits.as_bytes())
}

// Adds a site to a list with commas, where it is in a set.
fn add_site(alloc: Global, list: &mut Vec<u8>, set: SiteSet, site: u16) -> Result<(), AllocError>
    ensures { OnOk result (list.new.items
        ≡ (if bit set.bits site then with_comma list.old.items (decimal site) else list.old.items)) }
{
    if !set.has(site) {
        return Ok(());
    }
    add_with_comma(alloc, list, site)
}

// The numbers of a set's sites, with commas between them.
fn sites_word(alloc: Global, set: SiteSet) -> Result<Vec<u8>, AllocError>
    ensures { IfOk result (λ word. word.items ≡ sites_text set) }
{
    let mut word = Vec::new(alloc);
    for site in 0..64u16 {
        add_site(alloc, &mut word, set, site)?;
    }
    Ok(word)
}

fn parent_word(alloc: Global, parent: Option<u16>) -> Result<Vec<u8>, AllocError>
    ensures { IfOk result (λ word. word.items ≡ parent_text parent) }
{
    match parent {
        None => b"-".as_slice().to_vec(alloc),
        Some(number) => {
            let digits = number.to_string(alloc)?;
            digits.as_bytes().to_vec(alloc)
        }
    }
}

// Adds a node to a line.
fn add_node(alloc: Global, line: &mut Vec<u8>, node: NodeId) -> Result<(), AllocError>
    ensures { OnOk result (line.new.items ≡ line.old.items ++ 32 ∷ node_text node) }
{
    let text = node.text(alloc)?;
    add(line, text.as_bytes())
}

fn client_name(d: &Deployment, client: u16) -> &[u8]
    ensures { result.now ≡ client_name d.now client }
{
    match d.clients().get(client as usize) {
        Some(line) => line.name.bytes(),
        None => b"".as_slice(),
    }
}

fn item_name(d: &Deployment, item: u16) -> &[u8]
    ensures { result.now ≡ item_name d.now item }
{
    match d.items().get(item as usize) {
        Some(item) => item.name.bytes(),
        None => b"".as_slice(),
    }
}

// ---- lines of the header

/// The line of an item.
#[tactic(auto, using(std::proofs::lemmas::List::append_assoc))]
pub fn item_line(alloc: Global, item: &Item) -> Result<Vec<u8>, AllocError>
    ensures { IfOk result (λ line. line.items ≡ line_text (item_words item.now)) }
{
    let mut line = b"item".as_slice().to_vec(alloc)?;
    add(&mut line, item.name.bytes())?;
    let sites = sites_word(alloc, item.replicas)?;
    add(&mut line, sites.as_slice())?;
    Ok(line)
}

/// The line of a client.
#[tactic(auto, using(std::proofs::lemmas::List::append_assoc))]
pub fn client_line(alloc: Global, client: &ClientLine) -> Result<Vec<u8>, AllocError>
    ensures { IfOk result (λ line. line.items ≡ line_text (client_words client.now)) }
{
    let mut line = b"client".as_slice().to_vec(alloc)?;
    add(&mut line, client.name.bytes())?;
    add_number(alloc, &mut line, u64::from(client.site))?;
    Ok(line)
}

// Adds the parents of a tree's serializers.
fn add_parents(alloc: Global, line: &mut Vec<u8>, tree: &Tree) -> Result<(), AllocError>
    ensures { OnOk result (line.new.items ≡ line.old.items ++ spaced (map parent_text tree.now.parents)) }
{
    for z in 0..tree.serializers() {
        let word = parent_word(alloc, tree.parent(z))?;
        add(line, word.as_slice())?;
    }
    Ok(())
}

// Adds the seats of a tree's sites.
fn add_seats(alloc: Global, line: &mut Vec<u8>, tree: &Tree) -> Result<(), AllocError>
    ensures { OnOk result (line.new.items ≡ line.old.items ++ spaced (map decimal tree.now.seats)) }
{
    for site in 0..tree.sites() {
        add_number(alloc, line, u64::from(tree.seat(site)))?;
    }
    Ok(())
}

/// The line of a plan.
pub fn plan_line(alloc: Global, plan: &Plan) -> Result<Vec<u8>, AllocError>
    ensures { IfOk result (λ line. line.items ≡ line_text (plan_words plan.now)) }
{
    match plan {
        Plan::Stamp => b"plan stamp".as_slice().to_vec(alloc),
        Plan::Tree(tree) => {
            let mut line = b"plan tree".as_slice().to_vec(alloc)?;
            add_parents(alloc, &mut line, tree)?;
            add(&mut line, b"/".as_slice())?;
            add_seats(alloc, &mut line, tree)?;
            Ok(line)
        }
    }
}

// ---- lines of acts

// Adds what a word of a kind says.
fn add_said(
    alloc: Global,
    line: &mut Vec<u8>,
    d: &Deployment,
    kind: Kind,
    said: Said,
) -> Result<(), AllocError>
    ensures { OnOk result (line.new.items ≡ line.old.items ++ 32 ∷ text d.now kind (said_of said.entry)) }
{
    match said {
        Said::Place(place) => match kind {
            Kind::Client => add(line, client_name(d, place)),
            Kind::Item => add(line, item_name(d, place)),
            Kind::Serializer => add_node(alloc, line, NodeId::Serializer(place)),
            _ => add_number(alloc, line, u64::from(place)),
        },
        Said::Number(number) => add_number(alloc, line, number),
        Said::Bytes(bytes) => add(line, bytes),
        Said::Node(node) => add_node(alloc, line, node),
    }
}

// Adds what the words say, each by its kind.
fn add_texts(
    alloc: Global,
    line: &mut Vec<u8>,
    d: &Deployment,
    kinds: &[Kind],
    said: &[Said],
) -> Result<(), AllocError>
    ensures { OnOk result (line.new.items ≡ line.old.items ++ spaced (texts d.now kinds.now (map said_of said.now))) }
{
    let Some((kind, kinds)) = kinds.split_first() else {
        return Ok(());
    };
    let Some((one, said)) = said.split_first() else {
        return Ok(());
    };
    add_said(alloc, line, d, *kind, *one)?;
    add_texts(alloc, line, d, kinds, said)
}

/// The line of an act, without its byte 10. A client or an item that the deployment doesn't have is written with an
/// empty name.
#[tactic(auto, unfolding(crate::specs::Table::act_words))]
pub fn act_line(alloc: Global, d: &Deployment, act: &Act) -> Result<Vec<u8>, AllocError>
    ensures { IfOk result (λ line. line.items ≡ act_text d.now act.now) }
{
    let (form, said) = parts_of(act);
    let mut line = word_of(form).to_vec(alloc)?;
    add_texts(alloc, &mut line, d, kinds_of(form), said.as_slice())?;
    Ok(line)
}
