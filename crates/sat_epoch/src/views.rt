//! The view, the emission epoch and the mode of one site.
ghost use Rattle.std.specs.Prelude.{◌≡◌, ◌≢◌, ◌<◌, ◌≤◌, ◌+◌, ◌-◌, ◌==◌, ◌||◌, true, false, length, get_or, Some, None};
ghost use Rattle.std.specs.Prelude.{IfOk, OnOk, OnErr, MatchResult};
ghost use Rattle.sat_label.specs.declared.limits.TheConstants.{MOST_EPOCHS};
ghost use Rattle.sat_epoch.specs.Epochs.{advance_fault, after_advance, after_close, after_fall, after_hear, all_heard};
ghost use Rattle.sat_epoch.specs.Epochs.{close_fault, fall_fault, first_epochs, in_stamp, is_stamp, was_heard};
ghost use Rattle.sat_epoch.specs.Epochs.{IsEpochs};

use sat_label::Point;
use std::alloc::{AllocError, Global};
use std::marker::Model;

/// Why an epoch was not closed.
#[derive(Clone, Copy, Debug, PartialEq, Eq, Drop)]
pub enum CloseFault {
    /// The site emits in the last epoch.
    NoNextEpoch,
    /// The site closed its view already, and has to advance first.
    Behind,
}

/// Why a site did not fall back to stamp order.
#[derive(Clone, Copy, Debug, PartialEq, Eq, Drop)]
pub enum FallFault {
    /// The site is in stamp mode.
    StampOrder,
    /// The site has not closed its view.
    NotClosed,
}

/// Why a site did not advance.
#[derive(Clone, Copy, Debug, PartialEq, Eq, Drop)]
pub enum AdvanceFault {
    /// The site has not closed its view.
    NotClosed,
    /// Labels of the view may still come.
    NotYet,
}

/// The epochs of one site. Each has a flag that says whether its plan is stamp order. The site views one epoch and
/// emits in it or in the next. All memory is taken when it is made.
#[derive(Drop)]
pub struct Views {
    site: u16,
    stamp: Vec<bool>,
    view: u16,
    emission: u16,
    fallen: bool,
    closes: Vec<Point>,
    heard: Vec<bool>,
}

impl Model for Views {
    ghost use Rattle.std.specs.Prelude.{vec_capacity};
    ghost use Rattle.sat_epoch.specs.Epochs.{Epochs, HasRoom};

    ghost Value = { Epochs };

    ghost view = { λ a. record {
      site = a.site;
      stamp = a.stamp.items;
      view = a.view;
      emission = a.emission;
      fallen = a.fallen;
      closes = a.closes.items;
      heard = a.heard.items;
    } };

    ghost invariant = { λ a.
        HasRoom
        (record {
          site = a.site;
          stamp = a.stamp.items;
          view = a.view;
          emission = a.emission;
          fallen = a.fallen;
          closes = a.closes.items;
          heard = a.heard.items;
        }) (vec_capacity a.closes) };
}

impl Views {
    /// A site in its first epoch, by one flag for each epoch, true where its plan is stamp order.
    pub fn new(alloc: Global, sites: u16, site: u16, stamp: &[bool]) -> Result<Views, AllocError>
        requires own { site < sites }
        requires some { 0 < length stamp.now }
        requires few { length stamp.now ≤ MOST_EPOCHS }
        ensures { IfOk result (λ views. views ≡ first_epochs sites site stamp.now) }
    {
        let closes = Vec::with_capacity(alloc, stamp.len())?;
        let stamp = stamp.to_vec(alloc)?;
        let heard = vec![in alloc; false; sites as usize]?;
        Ok(Views {
            site,
            stamp,
            view: 1,
            emission: 1,
            fallen: false,
            closes,
            heard,
        })
    }

    /// The epoch whose labels the site takes.
    pub fn view(&self) -> u16
        ensures view { result ≡ self.now.view }
        ensures limits { IsEpochs self.now }
    {
        self.view
    }

    /// The epoch in which the site emits: the view, or the one after it.
    pub fn emission(&self) -> u16
        ensures emission { result ≡ self.now.emission }
        ensures limits { IsEpochs self.now }
    {
        self.emission
    }

    /// Whether the plan of an epoch is stamp order.
    pub fn is_stamp(&self, epoch: u16) -> bool
        requires first { 0 < epoch }
        requires last { epoch ≤ length self.now.stamp }
        ensures { result ≡ is_stamp self.now epoch }
    {
        self.stamp[epoch as usize - 1]
    }

    /// Whether the site orders by timestamp: by the plan of its view, or since it fell in it.
    pub fn in_stamp_mode(&self) -> bool
        ensures { result ≡ in_stamp self.now }
    {
        self.is_stamp(self.view) || self.fallen
    }

    /// The close cuts of the site, of the epochs 1, 2 and so on.
    pub fn closes(&self) -> &[Point]
        ensures closes { result.now ≡ self.now.closes }
        ensures limits { IsEpochs self.now }
    {
        self.closes.as_slice()
    }

    /// How many epochs there are.
    pub fn epochs(&self) -> u16
        ensures { result ≡ length self.now.stamp }
    {
        self.stamp.len() as u16
    }

    /// Why the emission epoch can't be closed, None where it can.
    pub fn close_fault(&self) -> Option<CloseFault>
        ensures fault { result ≡ close_fault self.now }
        ensures limits { IsEpochs self.now }
    {
        if self.emission as usize == self.stamp.len() {
            return Some(CloseFault::NoNextEpoch);
        }
        if self.emission == self.view + 1 {
            return Some(CloseFault::Behind);
        }
        None
    }

    /// Closes the emission epoch at a cut, and answers its number.
    pub fn close(&mut self, cut: Point) -> Result<u16, CloseFault>
        ensures fault { MatchResult result (λ _. close_fault self.old ≡ None)
            (λ fault. close_fault self.old ≡ Some fault) }
        ensures epoch { IfOk result (λ epoch. epoch ≡ self.old.emission) }
        ensures ok { OnOk result (self.new ≡ after_close self.old cut) }
        ensures err { OnErr result (self.new ≡ self.old) }
    {
        if let Some(fault) = self.close_fault() {
            return Err(fault);
        }
        let epoch = self.emission;
        self.closes.push_reserved(cut);
        self.emission = epoch + 1;
        Ok(epoch)
    }

    /// Falls back to stamp order until the next epoch.
    pub fn fall(&mut self) -> Result<(), FallFault>
        ensures fault { MatchResult result (λ _. fall_fault self.old ≡ None)
            (λ fault. fall_fault self.old ≡ Some fault) }
        ensures ok { OnOk result (self.new ≡ after_fall self.old) }
        ensures err { OnErr result (self.new ≡ self.old) }
    {
        if self.in_stamp_mode() {
            return Err(FallFault::StampOrder);
        }
        if self.emission == self.view {
            return Err(FallFault::NotClosed);
        }
        self.fallen = true;
        Ok(())
    }

    /// Notes that the site took another site's close of the view.
    pub fn hear_close(&mut self, from: u16, epoch: u16)
        requires from { from < length self.old.heard }
        requires other { from ≢ self.old.site }
        requires view { epoch ≡ self.old.view }
        ensures { self.new ≡ after_hear self.old from }
    {
        let _ = epoch;
        self.heard[from as usize] = true;
    }

    // Whether a site's labels of the view all came by tree, its own among them.
    fn was_heard(&self, site: usize) -> bool
        requires { site < length self.now.heard }
        ensures { result ≡ was_heard self.now site }
    {
        site == self.site as usize || self.heard[site]
    }

    /// Whether each other site's close of the view was heard.
    #[tactic(auto, using(crate::proofs::AllBelow::all_start, crate::proofs::AllBelow::all_more, crate::proofs::AllBelow::all_stops))]
    pub fn all_heard(&self) -> bool
        ensures { result ≡ all_heard self.now }
    {
        for site in 0..self.heard.len() {
            if !self.was_heard(site) {
                return false;
            }
        }
        true
    }

    // Goes on to the next epoch, where the view is closed and its labels all came.
    fn advance(&mut self, came: bool) -> Result<u16, AdvanceFault>
        ensures fault { MatchResult result (λ _. advance_fault self.old came ≡ None)
            (λ fault. advance_fault self.old came ≡ Some fault) }
        ensures view { IfOk result (λ view. view ≡ self.old.view + 1) }
        ensures ok { OnOk result (self.new ≡ after_advance self.old) }
        ensures err { OnErr result (self.new ≡ self.old) }
    {
        if self.emission == self.view {
            return Err(AdvanceFault::NotClosed);
        }
        if !came {
            return Err(AdvanceFault::NotYet);
        }
        self.view += 1;
        self.fallen = false;
        self.heard.fill(false);
        Ok(self.view)
    }

    /// Goes on to the next epoch, by the closes that came through the tree, and answers the new view.
    pub fn advance_by_tree(&mut self) -> Result<u16, AdvanceFault>
        requires { in_stamp self.old ≡ false }
        ensures fault { MatchResult result (λ _. advance_fault self.old (all_heard self.old) ≡ None)
            (λ fault. advance_fault self.old (all_heard self.old) ≡ Some fault) }
        ensures view { IfOk result (λ view. view ≡ self.old.view + 1) }
        ensures ok { OnOk result (self.new ≡ after_advance self.old) }
        ensures err { OnErr result (self.new ≡ self.old) }
    {
        let came = self.all_heard();
        self.advance(came)
    }

    /// Goes on to the next epoch, where all labels of the view were shown by their stamps, and answers the new view.
    pub fn advance_by_stamps(&mut self, drained: bool) -> Result<u16, AdvanceFault>
        requires { in_stamp self.old ≡ true }
        ensures fault { MatchResult result (λ _. advance_fault self.old drained ≡ None)
            (λ fault. advance_fault self.old drained ≡ Some fault) }
        ensures view { IfOk result (λ view. view ≡ self.old.view + 1) }
        ensures ok { OnOk result (self.new ≡ after_advance self.old) }
        ensures err { OnErr result (self.new ≡ self.old) }
    {
        self.advance(drained)
    }
}
