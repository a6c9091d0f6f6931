//! What the parts of one site are made from.
ghost use Rattle.std.specs.Prelude.{◌≡◌, IfOk};

use crate::Interest;
use std::alloc::AllocError;

/// The number of sites and of gears of each, one site of them, and which sites keep which items. The interest is one of
/// as many sites, the site is below that number, and there is at least one gear, where a call that takes a shape asks
/// for it.
#[derive(Drop)]
pub struct Shape {
    pub sites: u16,
    pub gears: u16,
    pub site: u16,
    pub interest: Interest,
}

impl Shape {
    /// The same shape again.
    pub fn copy(&self) -> Result<Shape, AllocError>
        ensures { IfOk result (λ shape. shape ≡ self.now) }
    {
        let interest = self.interest.copy()?;
        Ok(Shape {
            sites: self.sites,
            gears: self.gears,
            site: self.site,
            interest,
        })
    }
}
