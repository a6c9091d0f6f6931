//! The text of a tree that was built.
ghost use Rattle.std.specs.Prelude.{◌≡◌, ◌<◌, ◌++◌, ◌∷◌, [], nat_lt, if◌then◌else◌, length, map, slice_index, IfOk};
ghost use Rattle.std.specs.Prelude.{OnOk, OnErr, string_bytes};
ghost use Rattle.std.specs.Fmt.{decimal};
ghost use Rattle.sat_plan.specs.Config.{config_of, edges, edge_at};
ghost use Rattle.sat_tree.specs.PlanLine.{spaced, parent_text, tree_line};
ghost use Rattle.sat_plan.specs.Texts.{place_line, place_lines, edge_line, delay_line, delay_lines, mismatch_line};
ghost use Rattle.sat_plan.specs.Texts.{config_text};

use crate::building::Built;
use crate::edges::{Edge, edges};
use sat_tree::Tree;
use std::alloc::{AllocError, Global};

fn add(text: &mut Vec<u8>, word: &[u8]) -> Result<(), AllocError>
    ensures { OnOk result (text.new.items ≡ text.old.items ++ word.now) }
{
    text.extend_from_slice(word)?;
    Ok(())
}

// Adds a blank and a word.
fn add_word(text: &mut Vec<u8>, word: &str) -> Result<(), AllocError>
    ensures { OnOk result (text.new.items ≡ text.old.items ++ 32 ∷ word.now) }
{
    text.push(b' ')?;
    text.extend_from_slice(word.as_bytes())?;
    Ok(())
}

fn parent_text(alloc: Global, parent: Option<u16>) -> Result<String, AllocError>
    ensures { IfOk result (λ text. string_bytes text ≡ parent_text parent) }
{
    match parent {
        None => String::from_str(alloc, "-"),
        Some(number) => number.to_string(alloc),
    }
}

fn parents_text(alloc: Global, tree: &Tree) -> Result<Vec<u8>, AllocError>
    ensures { IfOk result (λ text. text.items ≡ spaced (map parent_text tree.now.parents)) }
{
    let mut text = Vec::new(alloc);
    for z in 0..tree.serializers() {
        let word = parent_text(alloc, tree.parent(z))?;
        add_word(&mut text, &word)?;
    }
    Ok(text)
}

fn seats_text(alloc: Global, tree: &Tree) -> Result<Vec<u8>, AllocError>
    ensures { IfOk result (λ text. text.items ≡ spaced (map decimal tree.now.seats)) }
{
    let mut text = Vec::new(alloc);
    for site in 0..tree.sites() {
        let word = tree.seat(site).to_string(alloc)?;
        add_word(&mut text, &word)?;
    }
    Ok(text)
}

/// The line of a tree as a plan of a script, `plan tree PARENTS / SEATS`.
#[tactic(auto, unfolding(sat_tree::specs::PlanLine::tree_line))]
pub fn tree_line(alloc: Global, tree: &Tree) -> Result<Vec<u8>, AllocError>
    ensures { IfOk result (λ text. text.items ≡ tree_line tree.now) }
{
    let mut text = b"plan tree".as_slice().to_vec(alloc)?;
    let parents = parents_text(alloc, tree)?;
    add(&mut text, &parents)?;
    add(&mut text, b" /")?;
    let seats = seats_text(alloc, tree)?;
    add(&mut text, &seats)?;
    add(&mut text, b"\n")?;
    Ok(text)
}

// `place zK P`
#[tactic(auto, unfolding(crate::specs::Texts::place_line))]
fn place_line(alloc: Global, places: &[u64], z: u16) -> Result<String, AllocError>
    requires { z < length places.now }
    ensures { IfOk result (λ text. string_bytes text ≡ place_line places.now z) }
{
    let place = places[z as usize];
    format!(in alloc; "place z{z} {place}\n")
}

/// A line `place zK P` for each serializer. It asks for one place for each.
#[tactic(auto, using(crate::proofs::Texts::places_start, crate::proofs::Texts::places_more))]
pub fn place_lines(alloc: Global, tree: &Tree, places: &[u64]) -> Result<Vec<u8>, AllocError>
    requires { length places.now ≡ length tree.now.parents }
    ensures { IfOk result (λ text. text.items ≡ place_lines places.now (length tree.now.parents)) }
{
    let mut text = Vec::new(alloc);
    for z in 0..tree.serializers() {
        let line = place_line(alloc, places, z)?;
        add(&mut text, line.as_bytes())?;
    }
    Ok(text)
}

// `delay zK NODE D`
fn edge_line(alloc: Global, edge: Edge, delay: u64) -> Result<String, AllocError>
    ensures { IfOk result (λ text. string_bytes text ≡ edge_line edge delay) }
{
    let from = edge.from;
    let to = edge.to.text(alloc)?;
    format!(in alloc; "delay z{from} {to} {delay}\n")
}

// The line of a delay above 0, and else nothing.
fn delay_line(alloc: Global, edge: Edge, delay: u64) -> Result<String, AllocError>
    ensures { IfOk result (λ text. string_bytes text ≡ (if nat_lt 0 delay then edge_line edge delay else [])) }
{
    if delay > 0 {
        edge_line(alloc, edge, delay)
    } else {
        Ok(String::new(alloc))
    }
}

#[tactic(auto, using(crate::proofs::Texts::delays_start, crate::proofs::Texts::delays_more, crate::proofs::Legs::edge_read), unfolding(crate::specs::Texts::delay_line))]
fn delay_lines(alloc: Global, tree: &Tree, delays: &[u64]) -> Result<Vec<u8>, AllocError>
    requires { length delays.now ≡ length (edges tree.now) }
    ensures { IfOk result (λ text. text.items ≡ delay_lines tree.now delays.now (length (edges tree.now))) }
{
    let edges = edges(alloc, tree)?;
    let mut text = Vec::new(alloc);
    for e in 0..edges.len() {
        let line = delay_line(alloc, edges[e], delays[e])?;
        add(&mut text, line.as_bytes())?;
    }
    Ok(text)
}

/// The line `mismatch M`.
#[tactic(auto, unfolding(crate::specs::Texts::mismatch_line))]
pub fn mismatch_line(alloc: Global, mismatch: u64) -> Result<String, AllocError>
    ensures { IfOk result (λ text. string_bytes text ≡ mismatch_line mismatch) }
{
    format!(in alloc; "mismatch {mismatch}\n")
}

/// Appends the text of a tree that was built: its line as a plan of a script, a line `place zK P` for each serializer,
/// a line
/// `delay zK NODE D` for each directed edge with a delay above 0, in order, and the line `mismatch M`. It asks for one
/// place for each serializer and one delay for each edge. For want of memory `out` is as before.
#[tactic(auto, unfolding(crate::specs::Texts::config_text))]
pub fn write_built(b: &Built, out: &mut Vec<u8>) -> Result<(), AllocError>
    requires places { length b.now.places ≡ length b.now.tree.parents }
    requires delays { length b.now.delays ≡ length (edges b.now.tree) }
    ensures ok { OnOk result (out.new.items ≡ out.old.items
        ++ config_text (config_of b.now.tree b.now.places b.now.delays) b.now.mismatch) }
    ensures err { OnErr result (out.new.items ≡ out.old.items) }
{
    let alloc = *out.allocator();
    let mut text = tree_line(alloc, &b.tree)?;
    let places = place_lines(alloc, &b.tree, b.places.as_slice())?;
    add(&mut text, &places)?;
    let delays = delay_lines(alloc, &b.tree, b.delays.as_slice())?;
    add(&mut text, &delays)?;
    let mismatch = mismatch_line(alloc, b.mismatch)?;
    add(&mut text, mismatch.as_bytes())?;
    out.extend_from_slice(&text)?;
    Ok(())
}
