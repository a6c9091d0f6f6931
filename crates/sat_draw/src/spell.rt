//! How elements are spelled.
ghost use Rattle.std.specs.Prelude.{◌≡◌, ◌++◌, OnOk, OnErr, IfOk, codes};
ghost use Rattle.sat_draw.specs.Elements.{ink_word, escape, escaped, line_text, group_text, way_word, lost_class};
ghost use Rattle.sat_draw.specs.Elements.{small_class};
ghost use Rattle.sat_draw.specs.Elements.{label_title, number_title, way_title};
ghost use Rattle.sat_draw.specs.Elements.{way_class, way_start, way_ends, way_text, under_pointer, are_thick};
ghost use Rattle.sat_draw.specs.Elements.{glow_text, dot_start, dot_text, room};
ghost use Rattle.sat_draw.specs.Elements.{whole_of, front_of, word_start, word_text, spell, spelled};
ghost use Rattle.sat_report.specs.Fronts.{Keeps};

use crate::element::{Element, Ink, Spot, Text};
use crate::trail::{BEAT_RANK, Trail};
use std::alloc::{AllocError, Global};

#[tactic(auto, unfolding(crate::specs::Elements::ink_word))]
fn ink_word(ink: Ink) -> &'static str
    ensures { result.now ≡ ink_word ink }
{
    match ink {
        Ink::Lane => "lane",
        Ink::Rule => "rule",
        Ink::Edge => "edge",
        Ink::Node => "node",
        Ink::Label => "label",
        Ink::Move => "label move",
        Ink::Pulse => "label pulse",
        Ink::Close => "label close",
        Ink::Sink => "sink",
        Ink::Payload => "payload",
        Ink::Store => "store",
        Ink::Beat => "beat",
        Ink::Seat => "seat",
        Ink::Away => "seat away",
        Ink::Switch => "switch",
        Ink::View => "view",
        Ink::Dead => "dead",
        Ink::Done => "done",
        Ink::Refused => "refused",
        Ink::Title => "title",
        Ink::Name => "name",
        Ink::Client => "client",
        Ink::Epoch => "epoch",
        Ink::Act => "act",
        Ink::Said => "said",
        Ink::Denied => "denied",
    }
}

fn append_byte(byte: u8, out: &mut Vec<u8>) -> Result<(), AllocError>
    ensures ok { OnOk result (out.new.items ≡ out.old.items ++ escape byte) }
    ensures err { OnErr result (Keeps out.old.items out.new.items) }
{
    if byte == b'&' {
        out.extend_from_slice(b"&amp;")
    } else if byte == b'<' {
        out.extend_from_slice(b"&lt;")
    } else if byte == b'>' {
        out.extend_from_slice(b"&gt;")
    } else if byte == b'"' {
        out.extend_from_slice(b"&quot;")
    } else if byte == b'\'' {
        out.extend_from_slice(b"&#39;")
    } else {
        out.push(byte)?;
        Ok(())
    }
}

fn append_escaped(text: &[u8], out: &mut Vec<u8>) -> Result<(), AllocError>
    ensures ok { OnOk result (out.new.items ≡ out.old.items ++ escaped text.now) }
    ensures err { OnErr result (Keeps out.old.items out.new.items) }
{
    for byte in text {
        append_byte(*byte, out)?;
    }
    Ok(())
}

fn append_line(class: &str, from: Spot, to: Spot, out: &mut Vec<u8>) -> Result<(), AllocError>
    ensures ok { OnOk result (out.new.items ≡ out.old.items ++ line_text class.now from to) }
    ensures err { OnErr result (Keeps out.old.items out.new.items) }
{
    let (x1, y1, x2, y2) = (from.x, from.y, to.x, to.y);
    let text = format!(in *out.allocator();
        "<line class='{class}' x1='{x1}' y1='{y1}' x2='{x2}' y2='{y2}'/>\n"
    )?;
    out.extend_from_slice(text.as_bytes())
}

// The class of all ways of a label.
fn group_of(alloc: Global, trail: Trail) -> Result<Text, AllocError>
    ensures { IfOk result (λ text. text ≡ group_text trail) }
{
    let (ts, site, gear, rank) = (trail.ts, trail.site, trail.gear, trail.rank);
    let text = format!(in alloc; "w{ts}-{site}-{gear}-{rank}")?;
    Ok(Text::of(text.into_bytes()))
}

#[tactic(auto, unfolding(crate::specs::Elements::way_word))]
fn way_word(ink: Ink) -> &'static str
    ensures { result.now ≡ way_word ink }
{
    match ink {
        Ink::Label => "update",
        Ink::Move => "move",
        Ink::Pulse => "pulse",
        Ink::Close => "close",
        Ink::Sink => "in its sink:",
        Ink::Payload => "payload of",
        Ink::Store => "waits:",
        Ink::Beat => "beat",
        Ink::Seat => "client",
        Ink::Away => "on its way: client",
        Ink::Switch => "closed, not yet advanced: site",
        Ink::View => "in a later view: site",
        _ => "",
    }
}

fn append_way_class(class: &str, out: &mut Vec<u8>) -> Result<(), AllocError>
    ensures ok { OnOk result (out.new.items ≡ out.old.items ++ way_class class.now) }
    ensures err { OnErr result (Keeps out.old.items out.new.items) }
{
    let text = format!(in *out.allocator(); "<line class='{class} ")?;
    out.extend_from_slice(text.as_bytes())
}

fn append_way_start(class: &str, group: &[u8], out: &mut Vec<u8>) -> Result<(), AllocError>
    ensures ok { OnOk result (out.new.items ≡ out.old.items ++ way_start class.now group.now) }
    ensures err { OnErr result (Keeps out.old.items out.new.items) }
{
    append_way_class(class, out)?;
    out.extend_from_slice(group)?;
    Ok(())
}

fn append_way_ends(from: Spot, to: Spot, out: &mut Vec<u8>) -> Result<(), AllocError>
    ensures ok { OnOk result (out.new.items ≡ out.old.items ++ way_ends from to) }
    ensures err { OnErr result (Keeps out.old.items out.new.items) }
{
    let (x1, y1, x2, y2) = (from.x, from.y, to.x, to.y);
    let text = format!(in *out.allocator(); "' x1='{x1}' y1='{y1}' x2='{x2}' y2='{y2}'><title>")?;
    out.extend_from_slice(text.as_bytes())
}

fn append_label_title(word: &str, trail: Trail, out: &mut Vec<u8>) -> Result<(), AllocError>
    ensures ok { OnOk result (out.new.items ≡ out.old.items ++ label_title word.now trail) }
    ensures err { OnErr result (Keeps out.old.items out.new.items) }
{
    let (ts, site, gear) = (trail.ts, trail.site, trail.gear);
    let text = format!(in *out.allocator(); "{word} {ts}.{site}.{gear}</title></line>\n")?;
    out.extend_from_slice(text.as_bytes())
}

fn append_number_title(word: &str, number: u64, out: &mut Vec<u8>) -> Result<(), AllocError>
    ensures ok { OnOk result (out.new.items ≡ out.old.items ++ number_title word.now number) }
    ensures err { OnErr result (Keeps out.old.items out.new.items) }
{
    let text = format!(in *out.allocator(); "{word} {number}</title></line>\n")?;
    out.extend_from_slice(text.as_bytes())
}

fn append_way_title(word: &str, trail: Trail, out: &mut Vec<u8>) -> Result<(), AllocError>
    ensures ok { OnOk result (out.new.items ≡ out.old.items ++ way_title word.now trail) }
    ensures err { OnErr result (Keeps out.old.items out.new.items) }
{
    if trail.rank < BEAT_RANK {
        return append_label_title(word, trail, out);
    }
    append_number_title(word, trail.ts, out)
}

fn append_way(
    class: &str,
    word: &str,
    trail: Trail,
    from: Spot,
    to: Spot,
    out: &mut Vec<u8>,
) -> Result<(), AllocError>
    ensures ok { OnOk result (out.new.items ≡ out.old.items ++ way_text class.now word.now trail from to) }
    ensures err { OnErr result (Keeps out.old.items out.new.items) }
{
    let group = group_of(*out.allocator(), trail)?;
    append_way_start(class, group.bytes(), out)?;
    append_way_ends(from, to, out)?;
    append_way_title(word, trail, out)
}

fn append_under_pointer(group: &[u8], out: &mut Vec<u8>) -> Result<(), AllocError>
    ensures ok { OnOk result (out.new.items ≡ out.old.items ++ under_pointer group.now) }
    ensures err { OnErr result (Keeps out.old.items out.new.items) }
{
    out.extend_from_slice(b"<style>svg:has(.")?;
    out.extend_from_slice(group)?;
    out.extend_from_slice(b":hover) .")?;
    Ok(())
}

fn append_are_thick(group: &[u8], out: &mut Vec<u8>) -> Result<(), AllocError>
    ensures ok { OnOk result (out.new.items ≡ out.old.items ++ are_thick group.now) }
    ensures err { OnErr result (Keeps out.old.items out.new.items) }
{
    out.extend_from_slice(group)?;
    out.extend_from_slice(b"{stroke-width:4}</style>\n")
}

fn append_hover(group: &[u8], out: &mut Vec<u8>) -> Result<(), AllocError>
    ensures ok { OnOk result (out.new.items ≡ out.old.items ++ glow_text group.now) }
    ensures err { OnErr result (Keeps out.old.items out.new.items) }
{
    append_under_pointer(group, out)?;
    append_are_thick(group, out)
}

fn append_glow(trail: Trail, out: &mut Vec<u8>) -> Result<(), AllocError>
    ensures ok { OnOk result (out.new.items ≡ out.old.items ++ glow_text (group_text trail)) }
    ensures err { OnErr result (Keeps out.old.items out.new.items) }
{
    let group = group_of(*out.allocator(), trail)?;
    append_hover(group.bytes(), out)
}

fn append_dot_start(class: &str, at: Spot, out: &mut Vec<u8>) -> Result<(), AllocError>
    ensures ok { OnOk result (out.new.items ≡ out.old.items ++ dot_start class.now at) }
    ensures err { OnErr result (Keeps out.old.items out.new.items) }
{
    let (x, y) = (at.x, at.y);
    let text = format!(in *out.allocator();
        "<circle class='{class}' cx='{x}' cy='{y}' r='4'><title>"
    )?;
    out.extend_from_slice(text.as_bytes())
}

fn append_dot(class: &str, at: Spot, text: &[u8], out: &mut Vec<u8>) -> Result<(), AllocError>
    ensures ok { OnOk result (out.new.items ≡ out.old.items ++ dot_text class.now at text.now) }
    ensures err { OnErr result (Keeps out.old.items out.new.items) }
{
    append_dot_start(class, at, out)?;
    append_escaped(text, out)?;
    out.extend_from_slice(b"</title></circle>\n")
}

// How many bytes of a text there is room for.
fn room(ink: Ink) -> usize
    ensures { result ≡ room ink }
{
    match ink {
        Ink::Act => 27,
        Ink::Said => 41,
        Ink::Denied => 41,
        Ink::Client => 16,
        _ => 400,
    }
}

fn append_whole(most: usize, text: &[u8], out: &mut Vec<u8>) -> Result<(), AllocError>
    ensures ok { OnOk result (out.new.items ≡ out.old.items ++ whole_of most text.now) }
    ensures err { OnErr result (Keeps out.old.items out.new.items) }
{
    if text.len() <= most {
        return Ok(());
    }
    out.extend_from_slice(b"<title>")?;
    append_escaped(text, out)?;
    out.extend_from_slice(b"</title>")
}

fn append_front(most: usize, text: &[u8], out: &mut Vec<u8>) -> Result<(), AllocError>
    ensures ok { OnOk result (out.new.items ≡ out.old.items ++ front_of most text.now) }
    ensures err { OnErr result (Keeps out.old.items out.new.items) }
{
    if text.len() <= most {
        return append_escaped(text, out);
    }
    append_escaped(&text[..most], out)?;
    out.extend_from_slice(b"\xe2\x80\xa6")
}

fn append_word_start(class: &str, at: Spot, out: &mut Vec<u8>) -> Result<(), AllocError>
    ensures ok { OnOk result (out.new.items ≡ out.old.items ++ word_start class.now at) }
    ensures err { OnErr result (Keeps out.old.items out.new.items) }
{
    let (x, y) = (at.x, at.y);
    let text = format!(in *out.allocator(); "<text class='{class}' x='{x}' y='{y}'>")?;
    out.extend_from_slice(text.as_bytes())
}

fn append_word(
    class: &str,
    at: Spot,
    most: usize,
    text: &[u8],
    out: &mut Vec<u8>,
) -> Result<(), AllocError>
    ensures ok { OnOk result (out.new.items ≡ out.old.items ++ word_text class.now at most text.now) }
    ensures err { OnErr result (Keeps out.old.items out.new.items) }
{
    append_word_start(class, at, out)?;
    append_whole(most, text, out)?;
    append_front(most, text, out)?;
    out.extend_from_slice(b"</text>\n")
}

// The class of a label that was lost.
#[tactic(auto, unfolding(crate::specs::Elements::lost_class))]
fn lost_class(rank: u16) -> &'static str
    ensures { result.now ≡ lost_class rank }
{
    if rank == 1 {
        "label move lost"
    } else if rank == 3 {
        "label close lost"
    } else {
        "label lost"
    }
}

// The class of what a settle moved.
#[tactic(auto, unfolding(crate::specs::Elements::small_class))]
fn small_class(ink: Ink) -> &'static str
    ensures { result.now ≡ small_class ink }
{
    match ink {
        Ink::Payload => "payload small",
        Ink::Move => "label move small",
        Ink::Close => "label close small",
        _ => "label small",
    }
}

#[tactic(auto, unfolding(crate::specs::Elements::spell))]
fn append_element(element: &Element, out: &mut Vec<u8>) -> Result<(), AllocError>
    ensures ok { OnOk result (out.new.items ≡ out.old.items ++ spell element.now) }
    ensures err { OnErr result (Keeps out.old.items out.new.items) }
{
    match element {
        Element::Line { ink, from, to } => append_line(ink_word(*ink), *from, *to, out),
        Element::Way {
            ink,
            trail,
            from,
            to,
        } => { append_way(ink_word(*ink), way_word(*ink), *trail, *from, *to, out) }
        Element::Lost { trail, from, to } => {
            append_way(
                lost_class(trail.rank),
                "never taken:",
                *trail,
                *from,
                *to,
                out,
            )
        }
        Element::Rest {
            ink,
            trail,
            from,
            to,
        } => { append_way(ink_word(*ink), way_word(*ink), *trail, *from, *to, out) }
        Element::Small {
            ink,
            trail,
            from,
            to,
        } => { append_way(small_class(*ink), way_word(*ink), *trail, *from, *to, out) }
        Element::Glow { trail } => append_glow(*trail, out),
        Element::Dot { ink, at, text } => append_dot(ink_word(*ink), *at, text.bytes(), out),
        Element::Word { ink, at, text } => append_word(
            ink_word(*ink),
            *at,
            room(*ink),
            text.bytes(),
            out,
        ),
    }
}

/// Appends the lines of elements, in order.
pub(crate) fn append_elements(elements: &[Element], out: &mut Vec<u8>) -> Result<(), AllocError>
    ensures ok { OnOk result (out.new.items ≡ out.old.items ++ spelled elements.now) }
    ensures err { OnErr result (Keeps out.old.items out.new.items) }
{
    for element in elements {
        append_element(element, out)?;
    }
    Ok(())
}
