//! What a link is for.
ghost use Rattle.std.specs.Prelude.{◌≡◌};
ghost use Rattle.sat_machines.specs.Layout.{link_eq, turned};
ghost use Rattle.sat_wires.specs.declared.way.Way.TheVariants.{Bulk, Edge};
ghost use Rattle.sat_wires.specs.Ways.{link_of};

use sat_label::NodeId;

/// The way of a link: from a site to another for payloads and beats, or along an edge of an epoch's tree for labels.
#[derive(Clone, Copy)]
pub enum Way {
    Bulk {
        from: u16,
        to: u16,
    },
    Edge {
        epoch: u16,
        from: NodeId,
        to: NodeId,
    },
}

impl Way {
    /// Whether the two are one way.
    pub fn is_same(&self, other: &Way) -> bool
        ensures { result ≡ link_eq (link_of self.now) (link_of other.now) }
    {
        match self {
            Way::Bulk { from, to } => other.is_bulk(*from, *to),
            Way::Edge { epoch, from, to } => other.is_edge(*epoch, from, to),
        }
    }

    fn is_bulk(&self, i: u16, j: u16) -> bool
        ensures { result ≡ link_eq (link_of (Bulk i j)) (link_of self.now) }
    {
        match self {
            Way::Bulk { from, to } => i == *from && j == *to,
            Way::Edge { .. } => false,
        }
    }

    fn is_edge(&self, e: u16, u: &NodeId, v: &NodeId) -> bool
        ensures { result ≡ link_eq (link_of (Edge e u.now v.now)) (link_of self.now) }
    {
        match self {
            Way::Bulk { .. } => false,
            Way::Edge { epoch, from, to } => e == *epoch && (u.is_same(from) && v.is_same(to)),
        }
    }

    /// The way back.
    pub fn turned(&self) -> Way
        ensures { link_of result ≡ turned (link_of self.now) }
    {
        match self {
            Way::Bulk { from, to } => Way::Bulk {
                from: *to,
                to: *from,
            },
            Way::Edge { epoch, from, to } => Way::Edge {
                epoch: *epoch,
                from: *to,
                to: *from,
            },
        }
    }
}
