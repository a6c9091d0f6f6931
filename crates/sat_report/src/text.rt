//! Numbers, points, nodes and the names of items, appended to a text.
ghost use Rattle.std.specs.Prelude.{◌≡◌, ◌++◌, ◌∷◌, ◌≤◌, OnOk, OnErr, length};
ghost use Rattle.std.specs.Fmt.{decimal};
ghost use Rattle.sat_label.specs.Text.{node_text, point_text};
ghost use Rattle.sat_report.specs.Texts.{item_name};
ghost use Rattle.sat_report.specs.Fronts.{Keeps};
ghost use Rattle.sat_report.specs.Frames.{commas};

use crate::line::{LINE_BYTES, write_byte, write_node, write_number, write_point};
use sat_act::Deployment;
use sat_label::{Name, NodeId, Point};
use std::alloc::AllocError;

/// Appends the digits of a number.
pub(crate) fn append_number(number: u64, out: &mut Vec<u8>) -> Result<(), AllocError>
    ensures ok { OnOk result (out.new.items ≡ out.old.items ++ decimal number) }
    ensures err { OnErr result (out.new.items ≡ out.old.items) }
{
    let mut text = [0; LINE_BYTES];
    let at = write_number(number, &mut text, LINE_BYTES);
    out.extend_from_slice(&text[at..])
}

/// Appends a word and the digits of a number.
pub(crate) fn append_with_number(
    word: &[u8],
    number: u64,
    out: &mut Vec<u8>,
) -> Result<(), AllocError>
    ensures ok { OnOk result (out.new.items ≡ out.old.items ++ (word.now ++ decimal number)) }
    ensures err { OnErr result (Keeps out.old.items out.new.items) }
{
    out.extend_from_slice(word)?;
    append_number(number, out)
}

/// Appends the text of a point, `ts.site.gear`.
pub(crate) fn append_point(point: &Point, out: &mut Vec<u8>) -> Result<(), AllocError>
    ensures ok { OnOk result (out.new.items ≡ out.old.items ++ point_text point.now) }
    ensures err { OnErr result (out.new.items ≡ out.old.items) }
{
    let mut text = [0; LINE_BYTES];
    let at = write_point(point, &mut text, LINE_BYTES);
    out.extend_from_slice(&text[at..])
}

// Appends a comma and a node.
fn append_next_node(node: NodeId, out: &mut Vec<u8>) -> Result<(), AllocError>
    ensures ok { OnOk result (out.new.items ≡ out.old.items ++ 44 ∷ node_text node) }
    ensures err { OnErr result (Keeps out.old.items out.new.items) }
{
    let mut text = [0; LINE_BYTES];
    let at = write_node(node, &mut text, LINE_BYTES);
    let at = write_byte(b',', &mut text, at);
    out.extend_from_slice(&text[at..])
}

/// Appends nodes, with a comma before each.
#[tactic(auto, using(crate::proofs::Commas::no_commas))]
pub(crate) fn append_next_nodes(nodes: &[NodeId], out: &mut Vec<u8>) -> Result<(), AllocError>
    ensures ok { OnOk result (out.new.items ≡ out.old.items ++ commas nodes.now) }
    ensures err { OnErr result (Keeps out.old.items out.new.items) }
{
    for node in nodes {
        append_next_node(*node, out)?;
    }
    Ok(())
}

#[tactic(auto, using(crate::proofs::Names::short_of))]
pub(crate) fn short_name(name: &Name) -> &[u8]
    ensures name { result.now ≡ name.now }
    ensures short { length result.now ≤ 32 }
{
    name.bytes()
}

/// The name of the item with a number, or nothing where no item has it.
#[tactic(auto, unfolding(crate::specs::Texts::item_name))]
pub(crate) fn item_name(d: &Deployment, item: u16) -> &[u8]
    ensures name { result.now ≡ item_name d.now item }
    ensures short { length result.now ≤ 32 }
{
    match d.items().get(item as usize) {
        Some(item) => short_name(&item.name),
        None => &[],
    }
}
