//! A site whose inputs can be journalled.
ghost use Rattle.std.specs.Prelude.{◌≡◌, ◌<◌, ◌^◌, ◌++◌, true, length, Some, IfOk, OnOk};
ghost use Rattle.sat_bodies.specs.Bodies.{input_allows};
ghost use Rattle.sat_lasting.specs.Sites.{fresh_kept, site_meaning};

use sat_act::Deployment;
use sat_bodies::{body_of, input_of, is_allowed, size, write};
use sat_durable::Machine;
use sat_site::{Site, SiteInput, SiteOutput};
use std::alloc::{AllocError, Global};

/// A site as a machine of a journal: its inputs are written as their bodies, and it does what the site does.
#[derive(Drop)]
pub struct KeptSite {
    pub(crate) site: Site,
}

impl KeptSite {
    ghost use Rattle.sat_lasting.specs.Sites.{site_of};

    /// The site with this number of a deployment, at which nothing has happened.
    pub fn new(alloc: Global, d: &Deployment, site: u16) -> Result<KeptSite, AllocError>
        requires { site < d.now.sites }
        ensures { IfOk result (λ kept. kept ≡ fresh_kept d.now site) }
    {
        let site = Site::new(alloc, d, site)?;
        Ok(KeptSite { site })
    }

    /// The site.
    pub fn site(&self) -> &Site
        ensures { result.now ≡ site_of self.now }
    {
        &self.site
    }
}

/// Puts the body of an input behind other bytes, as `encode` of the machine gives it. For want of memory they are as
/// before.
pub(crate) fn put_body(input: &SiteInput, out: &mut Vec<u8>) -> Result<(), AllocError>
    requires { input_allows input.now ≡ true }
    ensures body { OnOk result (out.new.items ≡ out.old.items ++ site_meaning.body input.now) }
    ensures again { site_meaning.input_of (site_meaning.body input.now) ≡ Some input.now }
    ensures short { length (site_meaning.body input.now) < 2 ^ 32 }
{
    let bytes = size(input);
    out.reserve(bytes)?;
    write(input, out);
    Ok(())
}

impl Machine for KeptSite {
    ghost use Rattle.sat_bodies.specs.Bodies.{body_exact};

    type Input = SiteInput;

    type Output = SiteOutput;

    ghost meaning = { site_meaning };

    ghost exact = { body_exact };

    fn fits(&self, input: &SiteInput) -> bool {
        self.site.fits(input) && is_allowed(input)
    }

    fn step(&mut self, input: SiteInput) -> Result<SiteOutput, AllocError> {
        self.site.step(input)
    }

    fn encode(&self, alloc: Global, input: &SiteInput) -> Result<Vec<u8>, AllocError> {
        body_of(alloc, input)
    }

    fn decode(alloc: Global, body: &[u8]) -> Result<Option<SiteInput>, AllocError> {
        input_of(alloc, body)
    }
}
