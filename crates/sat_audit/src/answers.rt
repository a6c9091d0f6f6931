//! What the text of an answer tells, by its words.
ghost use Rattle.std.specs.Prelude.{◌≡◌, ◌≤◌, ◌∷◌, [], map, codes, IfOk};
ghost use Rattle.std.specs.Option.{option_map};
ghost use Rattle.std.specs.List.{starts_with};
ghost use Rattle.sat_script.specs.Words.{number_below};
ghost use Rattle.sat_audit.specs.Told.{answered, are_written, begins, is_move, is_read, is_show, is_some_text};
ghost use Rattle.sat_audit.specs.Told.{is_write, name_items, point_in, point_of, pointed, read_words, shown_words};
ghost use Rattle.sat_audit.specs.Told.{told_in};
ghost use Rattle.sat_audit.specs.declared.told.Told.TheVariants as told;

use crate::Told;
use crate::words::{names_of, numbers_of};
use sat_act::{Act, Deployment};
use sat_label::{Point, TS_END, limits_of, spells_value};
use sat_script::{Reader, number_up_to};
use std::alloc::{AllocError, Global};

// ---- points

// The number that a word stands for, where it is below a limit.
#[tactic(auto, unfolding(sat_script::specs::Words::number_below, sat_script::specs::Words::number_up_to))]
fn number_below(limit: u16, word: &[u8]) -> Option<u16>
    ensures { result ≡ number_below limit word.now }
{
    match number_up_to(u64::MAX, word) {
        Some(number) => {
            if number < u64::from(limit) {
                Some(number as u16)
            } else {
                None
            }
        }
        None => None,
    }
}

// The point of three words.
#[tactic(auto, unfolding(crate::specs::Told::point_of))]
fn point_of(d: &Deployment, words: &[&[u8]]) -> Option<Point>
    ensures { result ≡ point_of d.now (map (λ word. word.now) words.now) }
{
    match words {
        [ts, site, gear] => {
            let ts = number_up_to(TS_END, ts)?;
            let site = number_below(d.sites(), site)?;
            let gear = number_below(d.gears(), gear)?;
            Some(Point { ts, site, gear })
        }
        _ => None,
    }
}

// The point that a word spells.
fn point_in(alloc: Global, d: &Deployment, word: &[u8]) -> Result<Option<Point>, AllocError>
    ensures { IfOk result (λ point. point ≡ point_in d.now word.now) }
{
    let numbers = numbers_of(alloc, word)?;
    Ok(point_of(d, numbers.as_slice()))
}

// ---- names of items

// Whether each name is an item's, and the items ascend from this number on.
#[tactic(auto, unfolding(crate::specs::Told::name_items))]
fn name_items(reader: &Reader, least: u32, names: &[&[u8]]) -> bool
    requires { least ≤ 65536 }
    ensures { result ≡ name_items reader.now.state.header least (map (λ name. name.now) names.now) }
{
    let Some((name, names)) = names.split_first() else {
        return true;
    };
    match reader.item(name) {
        Some(item) => {
            let item = u32::from(item);
            least <= item && name_items(reader, item + 1, names)
        }
        None => false,
    }
}

// Whether the names are those of different items in header order, no more than the format writes under one label.
#[tactic(auto, unfolding(crate::specs::Told::are_written))]
fn are_written(reader: &Reader, d: &Deployment, names: &[&[u8]]) -> bool
    requires { reader.now.state.header ≡ d.now }
    ensures { result ≡ are_written d.now (map (λ name. name.now) names.now) }
{
    names.len() <= limits_of(d.format()).written && name_items(reader, 0, names)
}

// ---- the answers that are read

// The point behind a keyword.
#[tactic(auto, unfolding(crate::specs::Told::pointed))]
fn pointed(
    alloc: Global,
    d: &Deployment,
    keyword: &[u8],
    words: &[&[u8]],
) -> Result<Option<Point>, AllocError>
    ensures { IfOk result (λ point. point ≡ pointed d.now keyword.now (map (λ word. word.now) words.now)) }
{
    match words {
        [word, point] => {
            if *word == keyword {
                point_in(alloc, d, point)
            } else {
                Ok(None)
            }
        }
        _ => Ok(None),
    }
}

// `read L V`
#[tactic(auto, unfolding(crate::specs::Told::read_words))]
fn read_some(
    alloc: Global,
    d: &Deployment,
    word: &[u8],
    point: &[u8],
    value: &[u8],
) -> Result<Option<Told>, AllocError>
    ensures { IfOk result (λ says. says ≡ read_words d.now (word.now ∷ point.now ∷ value.now ∷ [])) }
{
    if word != b"read".as_slice() {
        return Ok(None);
    }
    if !spells_value(value) {
        return Ok(None);
    }
    match point_in(alloc, d, point)? {
        Some(point) => Ok(Some(Told::ReadSome(point))),
        None => Ok(None),
    }
}

// `read none`
#[tactic(auto, unfolding(crate::specs::Told::read_words))]
fn read_none(d: &Deployment, word: &[u8], none: &[u8]) -> Option<Told>
    ensures { result ≡ read_words d.now (word.now ∷ none.now ∷ []) }
{
    if word == b"read".as_slice() && none == b"none".as_slice() {
        Some(Told::ReadNone)
    } else {
        None
    }
}

// What the words of a read's answer tell.
#[tactic(auto, unfolding(crate::specs::Told::read_words))]
fn read_words(alloc: Global, d: &Deployment, words: &[&[u8]]) -> Result<Option<Told>, AllocError>
    ensures { IfOk result (λ says. says ≡ read_words d.now (map (λ word. word.now) words.now)) }
{
    match words {
        [word, none] => Ok(read_none(d, word, none)),
        [word, point, value] => read_some(alloc, d, word, point, value),
        _ => Ok(None),
    }
}

// What the words of a showing's answer tell.
#[tactic(auto, unfolding(crate::specs::Told::shown_words))]
fn shown_words(
    alloc: Global,
    reader: &Reader,
    d: &Deployment,
    words: &[&[u8]],
) -> Result<Option<Told>, AllocError>
    requires { reader.now.state.header ≡ d.now }
    ensures { IfOk result (λ says. says ≡ shown_words d.now (map (λ word. word.now) words.now)) }
{
    match words {
        [word, names, point] => {
            if *word != b"shown".as_slice() {
                return Ok(None);
            }
            let names = names_of(alloc, names)?;
            if !are_written(reader, d, names.as_slice()) {
                return Ok(None);
            }
            match point_in(alloc, d, point)? {
                Some(point) => Ok(Some(Told::Shown(point))),
                None => Ok(None),
            }
        }
        _ => Ok(None),
    }
}

// What the words of a write's answer tell.
fn wrote_words(alloc: Global, d: &Deployment, words: &[&[u8]]) -> Result<Option<Told>, AllocError>
    ensures { IfOk result (λ says. says
        ≡ option_map told.Wrote (pointed d.now (codes "wrote") (map (λ word. word.now) words.now))) }
{
    match pointed(alloc, d, b"wrote", words)? {
        Some(point) => Ok(Some(Told::Wrote(point))),
        None => Ok(None),
    }
}

// What the words of a move's answer tell.
fn moved_words(alloc: Global, d: &Deployment, words: &[&[u8]]) -> Result<Option<Told>, AllocError>
    ensures { IfOk result (λ says. says
        ≡ option_map told.Moved (pointed d.now (codes "moved") (map (λ word. word.now) words.now))) }
{
    match pointed(alloc, d, b"moved", words)? {
        Some(point) => Ok(Some(Told::Moved(point))),
        None => Ok(None),
    }
}

// ---- the acts that have such an answer

fn is_write(act: &Act) -> bool
    ensures { result ≡ is_write act.now }
{
    match act {
        Act::Write { .. } => true,
        Act::Writes { .. } => true,
        _ => false,
    }
}

fn is_read(act: &Act) -> bool
    ensures { result ≡ is_read act.now }
{
    match act {
        Act::Read { .. } => true,
        _ => false,
    }
}

fn is_move(act: &Act) -> bool
    ensures { result ≡ is_move act.now }
{
    match act {
        Act::Move { .. } => true,
        _ => false,
    }
}

fn is_show(act: &Act) -> bool
    ensures { result ≡ is_show act.now }
{
    match act {
        Act::Turn { .. } => true,
        Act::Stamp { .. } => true,
        _ => false,
    }
}

// ---- a text

// Whether a text begins with bytes that have no blank.
fn begins(front: &[u8], words: &[&[u8]]) -> bool
    ensures { result ≡ begins front.now (map (λ word. word.now) words.now) }
{
    match words.split_first() {
        Some((word, _)) => word.starts_with(front),
        None => false,
    }
}

// What the text behind an act tells, None for one that the act has not.
#[tactic(auto, unfolding(crate::specs::Told::told_in))]
fn told_in(
    alloc: Global,
    reader: &Reader,
    d: &Deployment,
    act: &Act,
    words: &[&[u8]],
) -> Result<Option<Told>, AllocError>
    requires { reader.now.state.header ≡ d.now }
    ensures { IfOk result (λ says. says ≡ told_in d.now act.now (map (λ word. word.now) words.now)) }
{
    if begins(b"wrote", words) {
        if !is_write(act) {
            return Ok(None);
        }
        return wrote_words(alloc, d, words);
    }
    if begins(b"read", words) {
        if !is_read(act) {
            return Ok(None);
        }
        return read_words(alloc, d, words);
    }
    if begins(b"moved", words) {
        if !is_move(act) {
            return Ok(None);
        }
        return moved_words(alloc, d, words);
    }
    if begins(b"shown", words) {
        if !is_show(act) {
            return Ok(None);
        }
        return shown_words(alloc, reader, d, words);
    }
    Ok(Some(Told::Other))
}

// Whether a text of these words is not empty.
fn is_some_text(words: &[&[u8]]) -> bool
    ensures { result ≡ is_some_text (map (λ word. word.now) words.now) }
{
    match words {
        [] => false,
        [word] => 0 < word.len(),
        _ => true,
    }
}

/// What the words behind those of an act tell: an arrow, and a text that the act has. The header of the reader is this
/// deployment.
#[tactic(auto, using(crate::proofs::Texting::answered_none, crate::proofs::Texting::answered_other, crate::proofs::Texting::answered_empty, crate::proofs::Texting::answered_text))]
pub fn answered(
    alloc: Global,
    reader: &Reader,
    d: &Deployment,
    act: &Act,
    words: &[&[u8]],
) -> Result<Option<Told>, AllocError>
    requires { reader.now.state.header ≡ d.now }
    ensures { IfOk result (λ says. says ≡ answered d.now act.now (map (λ word. word.now) words.now)) }
{
    let Some((arrow, words)) = words.split_first() else {
        return Ok(None);
    };
    if *arrow != b"->".as_slice() {
        return Ok(None);
    }
    if !is_some_text(words) {
        return Ok(None);
    }
    told_in(alloc, reader, d, act, words)
}
