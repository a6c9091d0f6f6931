//! Nodes of a tree, by their words.
ghost use Rattle.std.specs.Prelude.{◌≡◌, IfSome, ◌<◌, length, if◌then◌else◌};
ghost use Rattle.std.specs.Option.{option_map};
ghost use Rattle.sat_label.specs.declared.node.NodeId.TheVariants.{Site, Serializer};
ghost use Rattle.sat_tree.specs.Cut.{IsNode};
ghost use Rattle.sat_script.specs.Words.{number_below, serializer_in, node_in};

use crate::number::number_below;
use sat_label::NodeId;
use sat_tree::Tree;

/// The serializer of a tree that a word names, which is `z` and a number.
#[tactic(auto, unfolding(crate::specs::Words::serializer_in))]
pub fn serializer_in(tree: &Tree, word: &[u8]) -> Option<u16>
    ensures serializer { result ≡ serializer_in tree.now word.now }
    ensures inside { IfSome result (λ z. z < length tree.now.parents) }
{
    match word {
        [] => None,
        [_, number @ ..] => number_below(tree.serializers(), number),
    }
}

// The site, or else the serializer, of a tree that has a number.
fn node_of(tree: &Tree, is_site: bool, number: &[u8]) -> Option<NodeId>
    ensures node { result ≡ (if is_site then option_map Site (number_below (length tree.now.seats) number.now)
        else option_map Serializer (number_below (length tree.now.parents) number.now)) }
    ensures inside { IfSome result (IsNode tree.now) }
{
    if is_site {
        Some(NodeId::Site(number_below(tree.sites(), number)?))
    } else {
        Some(NodeId::Serializer(number_below(tree.serializers(), number)?))
    }
}

/// The node of a tree that a word names, which is `s` or `z` and a number.
#[tactic(auto, unfolding(crate::specs::Words::node_in))]
pub fn node_in(tree: &Tree, word: &[u8]) -> Option<NodeId>
    ensures node { result ≡ node_in tree.now word.now }
    ensures inside { IfSome result (IsNode tree.now) }
{
    match word {
        [] => None,
        [byte, number @ ..] => node_of(tree, *byte == b's', number),
    }
}
