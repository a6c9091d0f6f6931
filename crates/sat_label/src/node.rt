//! Nodes of a tree, and of a deployment.
ghost use Rattle.std.specs.Prelude.{◌≡◌, IfOk, string_bytes};
ghost use Rattle.sat_label.specs.Order.{name_eq, node_eq};
ghost use Rattle.sat_label.specs.Text.{node_text};

use std::alloc::{AllocError, Global};

/// A node of one tree: a site, which is a leaf, or a serializer.
#[derive(Clone, Copy, Debug, PartialEq, Eq)]
pub enum NodeId {
    Site(u16),
    Serializer(u16),
}

/// A node of a deployment: a site or, where its parts have locks of their own, its hub; a gear of a site; or a
/// serializer of an epoch's tree.
#[derive(Clone, Copy, Debug, PartialEq, Eq)]
pub enum NodeName {
    Site(u16),
    Serializer { epoch: u16, number: u16 },
    Gear { site: u16, gear: u16 },
}

impl NodeId {
    /// Whether the two are one node.
    pub fn is_same(&self, other: &NodeId) -> bool
        ensures { result ≡ node_eq self.now other.now }
    {
        self == other
    }

    /// Its text: `s` and the site's number, or `z` and the serializer's.
    #[tactic(auto, unfolding(crate::specs::Text::node_text))]
    pub fn text(self, alloc: Global) -> Result<String, AllocError>
        ensures { IfOk result (λ text. string_bytes text ≡ node_text self) }
    {
        match self {
            NodeId::Site(site) => format!(in alloc; "s{site}"),
            NodeId::Serializer(serializer) => format!(in alloc; "z{serializer}"),
        }
    }
}

impl NodeName {
    /// Whether the two are one node.
    pub fn is_same(&self, other: &NodeName) -> bool
        ensures { result ≡ name_eq self.now other.now }
    {
        *self == *other
    }
}
