//! What a client carries from site to site.
use crate::Point;

/// The one label that a client carries: the greatest point that it wrote, read or moved with, and the site that it is
/// moving to, if any.
#[derive(Clone, Copy, Debug, PartialEq, Eq)]
pub struct Carried {
    pub point: Point,
    pub moving: Option<u16>,
}
