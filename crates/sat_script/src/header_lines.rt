//! The lines of the header, by their words.
ghost use Rattle.std.specs.Prelude.{◌≡◌, ◌<◌, ◌≤◌, ◌∷◌, take, drop, map, true, None, Some, length, position, IfOk};
ghost use Rattle.std.specs.Prelude.{IfSome};
ghost use Rattle.std.specs.List.{list_all};
ghost use Rattle.sat_script.specs.Words.{are_rising, is_number, sites_among, words_of};
ghost use Rattle.sat_script.specs.Grammar.{format_line, counted, sites_line, gears_line, item_line, client_line};
ghost use Rattle.sat_script.specs.Grammar.{begin_line, is_slash, are_parents, tree_on, tree_in, tree_line, parted_line};
ghost use Rattle.sat_script.specs.Grammar.{stamp_line, plan_line, named_line, header_form, header_line};
ghost use Rattle.sat_script.specs.Lines.{Gives, IsTreeOf};

use crate::Cause;
use crate::form::Form;
use crate::header::Header;
use crate::limits::{LAST_FORMAT, MOST_GEARS, MOST_SITES};
use crate::line::Parsed;
use crate::list::{is_rising, numbers_below, parts_of, set_of};
use crate::number::{is_number, number_below, number_to};
use crate::place::Place;
use crate::words::{are_numbers, words_of};
use sat_act::{ClientLine, Item, Plan};
use sat_label::{Name, SiteSet, spells_name};
use sat_tree::{Tree, TreeFault};
use std::alloc::{AllocError, Global};

/// `saturn F`
#[tactic(auto, unfolding(crate::specs::Grammar::format_line))]
#[inline(never)]
pub fn format_line(words: &[&[u8]]) -> Result<Parsed, Cause>
    ensures { Gives result (format_line (map (λ word. word.now) words.now)) }
{
    match words {
        [word, number] => {
            if *word != b"saturn".as_slice() {
                return Err(Cause::BadHeader);
            }
            let format = number_to(LAST_FORMAT, number).ok_or(Cause::BadHeader)?;
            Ok(Parsed::Format(format))
        }
        _ => Err(Cause::BadHeader),
    }
}

// The number, from 1 to a limit, after a keyword.
#[tactic(auto, unfolding(crate::specs::Grammar::counted))]
fn counted(keyword: &[u8], limit: u16, word: &[u8], number: &[u8]) -> Result<u16, Cause>
    ensures { result ≡ counted keyword.now limit word.now number.now }
{
    if !(word == keyword && is_number(number)) {
        return Err(Cause::BadHeader);
    }
    match number_to(limit, number) {
        Some(number) => Ok(number),
        None => Err(Cause::OutOfRange),
    }
}

/// `sites N`
#[tactic(auto, unfolding(crate::specs::Grammar::sites_line))]
#[inline(never)]
pub fn sites_line(place: &Place, words: &[&[u8]]) -> Result<Parsed, Cause>
    ensures { Gives result (sites_line place.now (map (λ word. word.now) words.now)) }
{
    match words {
        [word, number] => {
            let sites = counted(b"sites", place.limits().sites, word, number)?;
            Ok(Parsed::Sites(sites))
        }
        _ => Err(Cause::BadHeader),
    }
}

/// `gears N`
#[tactic(auto, unfolding(crate::specs::Grammar::gears_line))]
#[inline(never)]
pub fn gears_line(words: &[&[u8]]) -> Result<Parsed, Cause>
    ensures { Gives result (gears_line (map (λ word. word.now) words.now)) }
{
    match words {
        [word, number] => {
            let gears = counted(b"gears", MOST_GEARS, word, number)?;
            Ok(Parsed::Gears(gears))
        }
        _ => Err(Cause::BadHeader),
    }
}

// Whether the words between commas are numbers, each above the one before it.
#[tactic(auto, unfolding(crate::specs::Words::are_rising))]
fn is_list(parts: &[&[u8]]) -> bool
    ensures { result ≡ are_rising (map (λ part. part.now) parts.now) }
{
    if !are_numbers(parts) {
        return false;
    }
    is_rising(parts)
}

// The set of sites that the words of a list name, where all are below a limit.
#[tactic(auto, unfolding(crate::specs::Words::sites_among))]
fn sites_in(alloc: Global, limit: u16, parts: &[&[u8]]) -> Result<Option<SiteSet>, AllocError>
    requires numbers { list_all is_number (map (λ part. part.now) parts.now) ≡ true }
    requires few { limit ≤ MOST_SITES }
    ensures { IfOk result (λ found. found ≡ sites_among limit (map (λ part. part.now) parts.now)) }
{
    match numbers_below(alloc, limit, parts)? {
        Some(sites) => Ok(Some(set_of(sites.as_slice()))),
        None => Ok(None),
    }
}

#[tactic(auto, unfolding(crate::specs::Grammar::item_line))]
fn item_line(alloc: Global, place: &Place, name: &[u8], sites: &[u8]) -> Result<Parsed, Cause>
    ensures { Gives result (item_line place.now name.now sites.now) }
{
    let header = place.header();
    if header.clients() != 0 || header.plans() != 0 {
        return Err(Cause::BadHeader);
    }
    let Ok(parts) = parts_of(alloc, sites) else {
        return Err(Cause::Memory);
    };
    if !(spells_name(name) && is_list(parts.as_slice())) {
        return Err(Cause::BadHeader);
    }
    place.admit(Form::Item)?;
    if header.has_item(name) {
        return Err(Cause::SameName);
    }
    let replicas = match sites_in(alloc, place.sites(), parts.as_slice()) {
        Ok(Some(set)) => set,
        Ok(None) => return Err(Cause::OutOfRange),
        Err(_) => return Err(Cause::Memory),
    };
    match Name::of(alloc, name) {
        Ok(Some(name)) => Ok(Parsed::Item(Item { name, replicas })),
        Ok(None) => unreachable!(),
        Err(_) => Err(Cause::Memory),
    }
}

#[tactic(auto, unfolding(crate::specs::Grammar::client_line))]
fn client_line(alloc: Global, place: &Place, name: &[u8], site: &[u8]) -> Result<Parsed, Cause>
    ensures { Gives result (client_line place.now name.now site.now) }
{
    let header = place.header();
    if header.plans() != 0 {
        return Err(Cause::BadHeader);
    }
    if !(spells_name(name) && is_number(site)) {
        return Err(Cause::BadHeader);
    }
    place.admit(Form::Client)?;
    if header.has_client(name) {
        return Err(Cause::SameName);
    }
    let site = number_below(header.sites(), site).ok_or(Cause::OutOfRange)?;
    match Name::of(alloc, name) {
        Ok(Some(name)) => Ok(Parsed::Client(ClientLine { name, site })),
        Ok(None) => unreachable!(),
        Err(_) => Err(Cause::Memory),
    }
}

#[tactic(auto, unfolding(crate::specs::Grammar::begin_line))]
fn begin_line(header: &Header) -> Result<Parsed, Cause>
    ensures { Gives result (begin_line header.now.said) }
{
    if header.plans() == 0 {
        Err(Cause::BadHeader)
    } else {
        Ok(Parsed::Begin)
    }
}

// `-`, and then numbers.
#[tactic(auto, unfolding(crate::specs::Grammar::are_parents))]
fn are_parents(words: &[&[u8]]) -> bool
    ensures { result ≡ are_parents (map (λ word. word.now) words.now) }
{
    match words {
        [] => true,
        [root, words @ ..] => *root == b"-".as_slice() && are_numbers(words),
    }
}

// The root, and then the serializers that the others hang on.
fn with_root(alloc: Global, numbers: &[u16]) -> Result<Vec<Option<u16>>, AllocError>
    ensures { IfOk result (λ parents. parents.items ≡ None ∷ map Some numbers.now) }
{
    let mut parents = Vec::new(alloc);
    parents.push(None)?;
    for number in numbers {
        parents.push(Some(*number))?;
    }
    Ok(parents)
}

// The tree of these parents and seats, where it is one for so many sites.
fn new_tree(
    alloc: Global,
    sites: u16,
    parents: &[Option<u16>],
    seats: &[u16],
) -> Result<Option<Tree>, AllocError>
    requires { sites ≤ MOST_SITES }
    ensures { IfOk result (λ found. IsTreeOf sites (record { parents = parents.now; seats = seats.now }) found) }
{
    if seats.len() != usize::from(sites) {
        return Ok(None);
    }
    match Tree::new(alloc, parents, seats) {
        Ok(tree) => Ok(Some(tree)),
        Err(TreeFault::Memory) => Err(AllocError),
        Err(_) => Ok(None),
    }
}

// The tree of serializer 0, those that hang on others, and the seats, where it is one for so many sites. Its numbers
// are below the number of its serializers.
fn tree_on(
    alloc: Global,
    sites: u16,
    words: &[&[u8]],
    seats: &[&[u8]],
) -> Result<Option<Tree>, AllocError>
    requires words { list_all is_number (map (λ word. word.now) words.now) ≡ true }
    requires seats { list_all is_number (map (λ word. word.now) seats.now) ≡ true }
    requires few { sites ≤ MOST_SITES }
    requires short { length words.now < 15 }
    ensures { IfOk result (λ found.
        IsTreeOf sites (tree_on (map (λ word. word.now) words.now) (map (λ word. word.now) seats.now)) found) }
{
    let serializers = words.len() as u16 + 1;
    let Some(numbers) = numbers_below(alloc, serializers, words)? else {
        return Ok(None);
    };
    let Some(seats) = numbers_below(alloc, serializers, seats)? else {
        return Ok(None);
    };
    let parents = with_root(alloc, numbers.as_slice())?;
    let tree = new_tree(alloc, sites, parents.as_slice(), seats.as_slice())?;
    Ok(tree)
}

// The tree that the words of a plan name, where it is one for so many sites.
#[tactic(auto, unfolding(crate::specs::Grammar::tree_in))]
fn tree_in(
    alloc: Global,
    sites: u16,
    parents: &[&[u8]],
    seats: &[&[u8]],
) -> Result<Option<Tree>, AllocError>
    requires parents { are_parents (map (λ word. word.now) parents.now) ≡ true }
    requires seats { list_all is_number (map (λ word. word.now) seats.now) ≡ true }
    requires few { sites ≤ MOST_SITES }
    ensures { IfOk result (λ found.
        IsTreeOf sites (tree_in (map (λ word. word.now) parents.now) (map (λ word. word.now) seats.now)) found) }
{
    if parents.len() > 15 {
        return Ok(None);
    }
    match parents.split_first() {
        Some((_, words)) => tree_on(alloc, sites, words, seats),
        None => Ok(None),
    }
}

#[tactic(auto, unfolding(crate::specs::Grammar::tree_line))]
fn tree_line(
    alloc: Global,
    place: &Place,
    parents: &[&[u8]],
    seats: &[&[u8]],
) -> Result<Parsed, Cause>
    ensures { Gives result
        (tree_line place.now (map (λ word. word.now) parents.now) (map (λ word. word.now) seats.now)) }
{
    if !(are_parents(parents) && are_numbers(seats)) {
        return Err(Cause::BadHeader);
    }
    place.admit(Form::PlanTree)?;
    match tree_in(alloc, place.sites(), parents, seats) {
        Ok(Some(tree)) => Ok(Parsed::Plan(Plan::Tree(tree))),
        Ok(None) => Err(Cause::BadTree),
        Err(_) => Err(Cause::Memory),
    }
}

// The place of the first `/`.
fn slash_of(words: &[&[u8]]) -> Option<usize>
    ensures place { result ≡ position (λ word. is_slash word.now) words.now }
    ensures inside { IfSome result (λ place. place < length words.now) }
{
    words.iter().position(|word| *word == b"/".as_slice())
}

// The words of a tree, parted at the first `/`.
#[tactic(auto, unfolding(crate::specs::Grammar::parted_line))]
fn parted_line(alloc: Global, place: &Place, words: &[&[u8]]) -> Result<Parsed, Cause>
    ensures { Gives result (parted_line place.now (map (λ word. word.now) words.now)
        (position is_slash (map (λ word. word.now) words.now))) }
{
    match slash_of(words) {
        Some(slash) => tree_line(alloc, place, &words[..slash], &words[slash + 1..]),
        None => Err(Cause::BadHeader),
    }
}

#[tactic(auto, unfolding(crate::specs::Grammar::stamp_line))]
fn stamp_line(place: &Place) -> Result<Parsed, Cause>
    ensures { Gives result (stamp_line place.now) }
{
    place.admit(Form::PlanStamp)?;
    Ok(Parsed::Plan(Plan::Stamp))
}

#[tactic(auto, unfolding(crate::specs::Grammar::plan_line))]
fn plan_form(alloc: Global, place: &Place, words: &[&[u8]]) -> Result<Parsed, Cause>
    ensures { Gives result (plan_line place.now (map (λ word. word.now) words.now)) }
{
    match words {
        [] => Err(Cause::BadHeader),
        [word, words @ ..] => {
            if *word == b"tree".as_slice() {
                parted_line(alloc, place, words)
            } else if *word == b"stamp".as_slice() && words.is_empty() {
                stamp_line(place)
            } else {
                Err(Cause::BadHeader)
            }
        }
    }
}

// A plan, which may have more words than the other lines.
#[tactic(auto, unfolding(crate::specs::Grammar::plan_line))]
fn plan_line(alloc: Global, place: &Place, line: &[u8]) -> Result<Parsed, Cause>
    ensures { Gives result (plan_line place.now (drop 1 (words_of line.now))) }
{
    let Ok(words) = words_of(alloc, line) else {
        return Err(Cause::Memory);
    };
    match words.as_slice() {
        [] => Err(Cause::BadHeader),
        [_, words @ ..] => plan_form(alloc, place, words),
    }
}

#[tactic(auto, unfolding(crate::specs::Grammar::named_line))]
fn named_line(
    alloc: Global,
    place: &Place,
    word: &[u8],
    name: &[u8],
    rest: &[u8],
) -> Result<Parsed, Cause>
    ensures { Gives result (named_line place.now word.now name.now rest.now) }
{
    if word == b"item".as_slice() {
        return item_line(alloc, place, name, rest);
    }
    if word == b"client".as_slice() {
        return client_line(alloc, place, name, rest);
    }
    Err(Cause::BadHeader)
}

#[tactic(auto, unfolding(crate::specs::Grammar::header_form))]
fn header_form(alloc: Global, place: &Place, word: &[u8], words: &[&[u8]]) -> Result<Parsed, Cause>
    ensures { Gives result (header_form place.now word.now (map (λ word. word.now) words.now)) }
{
    match words {
        [] => {
            if word == b"begin".as_slice() {
                begin_line(place.header())
            } else {
                Err(Cause::BadHeader)
            }
        }
        [name, rest] => named_line(alloc, place, word, name, rest),
        _ => Err(Cause::BadHeader),
    }
}

/// An item, a client, a plan, or `begin`.
#[tactic(auto, using(crate::proofs::First::form_first), unfolding(crate::specs::Grammar::header_line))]
#[inline(never)]
pub fn header_line(
    alloc: Global,
    place: &Place,
    line: &[u8],
    words: &[&[u8]],
) -> Result<Parsed, Cause>
    requires { map (λ word. word.now) words.now ≡ take 11 (words_of line.now) }
    ensures { Gives result (header_line place.now (words_of line.now)) }
{
    let Some((word, more)) = words.split_first() else {
        return Err(Cause::BadHeader);
    };
    if *word == b"plan".as_slice() {
        plan_line(alloc, place, line)
    } else {
        header_form(alloc, place, word, more)
    }
}
