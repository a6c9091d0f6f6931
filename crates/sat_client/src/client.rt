//! What a client keeps, and what its acts make of it.
ghost use Rattle.std.specs.Prelude.{◌≡◌, true};
ghost use Rattle.sat_label.specs.Order.{point_lt};
ghost use Rattle.sat_client.specs.Clients.{after_join, after_leave, after_move, after_observe, destination, first_seat};
ghost use Rattle.sat_client.specs.Clients.{is_move};

use sat_label::{Carried, Kind, Label, Point};

/// A client carries one point instead of its whole past: the greatest that it wrote, read or moved with (Saturn,
/// EuroSys
/// 2017). It sits at a site, or at none while it moves and after it left.
#[derive(Clone, Copy, Debug, PartialEq, Eq)]
pub struct Client {
    pub carried: Carried,
    pub seat: Option<u16>,
}

// The site that a label names as a client's next one.
fn destination(kind: Kind) -> Option<u16>
    ensures { result ≡ destination kind }
{
    match kind {
        Kind::Update(_) => None,
        Kind::Move(site) => Some(site),
        Kind::Pulse => None,
        Kind::Close(_) => None,
    }
}

impl Client {
    /// A client that has done nothing yet, seated at a site.
    pub fn new(site: u16) -> Client
        ensures { result ≡ first_seat site }
    {
        Client {
            carried: Carried {
                point: Point::zero(),
                moving: None,
            },
            seat: Some(site),
        }
    }

    /// Notes the point of a label that the client wrote, or of a version that it read. A lower one changes nothing.
    pub fn observe(&mut self, point: Point)
        ensures { self.new ≡ after_observe self.old point }
    {
        self.carried.point = self.carried.point.greater(point);
    }

    /// Notes the label of the client's move, which is above all that it saw. It has no seat until it joins the next
    /// site.
    pub fn moved(&mut self, label: Label)
        requires kind { is_move label.kind ≡ true }
        requires above { point_lt self.old.carried.point label.point ≡ true }
        ensures { self.new ≡ after_move self.old label }
    {
        *self = Client {
            carried: Carried {
                point: label.point,
                moving: destination(label.kind),
            },
            seat: None,
        };
    }

    /// Takes the seat away. The client still carries its point.
    pub fn left(&mut self)
        ensures { self.new ≡ after_leave self.old }
    {
        self.carried.moving = None;
        self.seat = None;
    }

    /// Seats the client at a site that let it attach.
    pub fn joined(&mut self, site: u16)
        ensures { self.new ≡ after_join self.old site }
    {
        self.carried.moving = None;
        self.seat = Some(site);
    }
}
