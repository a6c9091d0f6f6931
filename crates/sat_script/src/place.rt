//! What the lines so far say: where the next line stands, and what may stand there.
ghost use Rattle.std.specs.Prelude.{◌≡◌, ◌≤◌, ◌↔◌, ◌++◌, [], ◌∷◌, IsTrue, IfOk, OnOk, OnErr, MatchResult, Some, None};
ghost use Rattle.std.specs.Prelude.{length};
ghost use Rattle.sat_script.specs.State.{start, limits_at, number_of, deployment_of, with_one_act};
ghost use Rattle.sat_script.specs.Causes.{has_room, bar, full};
ghost use Rattle.sat_script.specs.Dialect.{has_form};
ghost use Rattle.sat_script.specs.Grammar.{after, told_line};
ghost use Rattle.sat_script.specs.Kept.{IsFit, Suits};
ghost use Rattle.sat_script.specs.Said.{TakesActs};
ghost use Rattle.sat_script.specs.Spelled.{HaveNames};
ghost use Rattle.sat_script.specs.declared.line.Parsed.TheVariants as parsed;

use crate::form::Form;
use crate::header::Header;
use crate::limits::{MOST_PLANS, MOST_SITES};
use crate::line::{Line, Parsed, Stage};
use crate::{Cause, Dialect, Limits};
use sat_act::{Act, Acts, Deployment};
use sat_label::limits_of as format_limits;
use std::alloc::{AllocError, Global};
use std::marker::Model;

/// What the lines so far say.
#[derive(Drop)]
pub struct Place {
    dialect: Dialect,
    stage: Stage,
    header: Header,
    acts: u32,
    settles: u32,
}

impl Model for Place {
    ghost use Rattle.sat_script.specs.State.{State};
    ghost use Rattle.sat_script.specs.Kept.{IsKept};

    ghost Value = { State };

    ghost view = { λ a. record {
      dialect = a.dialect;
      stage = a.stage;
      header = a.header.said;
      acts = a.acts;
      settles = a.settles;
    } };

    ghost invariant = { λ a.
        IsKept
        (record { dialect = a.dialect; stage = a.stage; header = a.header.said; acts = a.acts; settles = a.settles })
        a.header.whole };
}

impl Place {
    /// Before the first line.
    pub fn new(alloc: Global, dialect: Dialect) -> Place
        ensures { result ≡ start dialect }
    {
        Place {
            dialect,
            stage: Stage::Start,
            header: Header::new(alloc),
            acts: 0,
            settles: 0,
        }
    }

    /// The part of the script that the next line stands in.
    pub fn stage(&self) -> Stage
        ensures { result ≡ self.now.stage }
    {
        self.stage
    }

    /// The header as far as it has come.
    #[tactic(auto, using(crate::proofs::Fits::fit_names))]
    pub fn header(&self) -> &Header
        ensures header { result.now.said ≡ self.now.header }
        ensures names { HaveNames result.now.said }
    {
        &self.header
    }

    /// The deployment that the header says, once the line `begin` has come.
    pub fn deployment(&self) -> &Option<Deployment>
        ensures { result.now ≡ deployment_of self.now }
    {
        self.header.deployment()
    }

    /// The same, given away.
    pub fn into_deployment(self) -> Option<Deployment>
        ensures { result ≡ deployment_of self }
    {
        let Place { header, .. } = self;
        header.into_deployment()
    }

    /// The number of sites.
    pub fn sites(&self) -> u16
        ensures sites { result ≡ self.now.header.sites }
        ensures few { result ≤ MOST_SITES }
    {
        self.header.sites()
    }

    /// The limits of the script.
    #[inline(always)]
    pub fn limits(&self) -> Limits
        ensures { result ≡ limits_at self.now }
    {
        self.dialect.limits(self.header.format())
    }

    /// The number of the next line, from 1.
    #[tactic(auto, unfolding(crate::specs::State::number_of))]
    pub fn number(&self) -> u64
        ensures { result ≡ number_of self.now }
    {
        let first = match self.stage {
            Stage::Start => 1,
            Stage::Sites => 2,
            Stage::Gears => 3,
            Stage::Header => 4,
            Stage::Body => 5,
            Stage::Ended => 6,
        };
        first + self.header.lines() + u64::from(self.acts)
    }

    /// Whether the next line may be an act of any form that most lines are, but a hop perhaps. Where it says no, it
    /// still may be.
    #[inline(always)]
    pub fn takes_acts(&self) -> bool
        ensures { IsTrue result → TakesActs self.now }
    {
        if self.stage != Stage::Body {
            return false;
        }
        if !self.dialect.is_quick() {
            return false;
        }
        self.acts < format_limits(self.header.format()).acts
    }

    /// Whether it may be a hop as well.
    #[inline(always)]
    pub fn has_hops(&self) -> bool
        ensures { result ≡ has_form self.now.dialect Form.Hop }
    {
        self.dialect.has_hops()
    }

    #[tactic(auto, unfolding(crate::specs::Causes::has_room))]
    #[inline(always)]
    fn has_room(&self, form: Form) -> bool
        ensures { result ≡ has_room self.now form }
    {
        let limits = self.limits();
        match form {
            Form::Item => self.header.items() < limits.items,
            Form::Client => usize::from(self.header.clients()) < limits.clients,
            Form::PlanStamp => usize::from(self.header.plans()) < MOST_PLANS,
            Form::PlanTree => usize::from(self.header.plans()) < MOST_PLANS,
            Form::Settle => self.acts < limits.acts && self.settles < limits.settles,
            _ => self.acts < limits.acts,
        }
    }

    /// Whether a line of a form may stand here, whatever its words say, and if not, why.
    #[tactic(auto, unfolding(crate::specs::Causes::bar))]
    #[inline(always)]
    pub fn admit(&self, form: Form) -> Result<(), Cause>
        ensures { MatchResult result (λ _. bar self.now form ≡ None) (λ cause. bar self.now form ≡ Some cause) }
    {
        if !self.dialect.has(form) {
            return Err(self.dialect.lacking());
        }
        if !self.has_room(form) {
            return Err(Cause::TooMany);
        }
        Ok(())
    }

    /// Why no further act may come.
    #[tactic(auto, unfolding(crate::specs::Causes::full))]
    pub fn full(&self) -> Option<Cause>
        ensures { result ≡ full self.now }
    {
        if self.acts < self.limits().acts {
            None
        } else {
            Some(Cause::TooMany)
        }
    }

    /// Counts an act that another reader has read.
    #[tactic(auto, unfolding(crate::specs::Causes::full))]
    pub fn count_act(&mut self)
        requires body { self.old.stage ≡ Stage.Body }
        requires room { full self.old ≡ None }
        ensures counted { self.new ≡ with_one_act self.old }
        ensures fit { IsFit self.new }
    {
        self.acts += 1;
    }

    /// Takes an act, and adds it to others. For want of memory all is as before.
    pub fn keep_act(&mut self, act: Act, acts: &mut Acts) -> Result<(), AllocError>
        requires fits { IsFit (after self.old (parsed.Act act)) }
        ensures ok { OnOk result ((self.new ≡ after self.old (parsed.Act act)) × (acts.new ≡ acts.old ++ act ∷ [])) }
        ensures err { OnErr result ((self.new ≡ self.old) × (acts.new ≡ acts.old)) }
    {
        let settles = matches!(act, Act::Settle);
        acts.push(act)?;
        if settles {
            self.settles += 1;
        }
        self.acts += 1;
        Ok(())
    }

    /// Takes what a good line says. For want of memory all is as before.
    pub fn keep(&mut self, alloc: Global, parsed: Parsed) -> Result<Line, AllocError>
        requires fits { IsFit (after self.old parsed) }
        requires suits { Suits self.old parsed }
        ensures ok { IfOk result (λ line. (line ≡ told_line parsed) × (self.new ≡ after self.old parsed)) }
        ensures err { OnErr result (self.new ≡ self.old) }
        ensures fit { IsFit self.new }
    {
        match parsed {
            Parsed::Format(format) => {
                self.header.set_format(format);
                self.stage = Stage::Sites;
                Ok(Line::Header)
            }
            Parsed::Sites(sites) => {
                self.header.set_sites(sites);
                self.stage = Stage::Gears;
                Ok(Line::Header)
            }
            Parsed::Gears(gears) => {
                self.header.set_gears(gears);
                self.stage = Stage::Header;
                Ok(Line::Header)
            }
            Parsed::Item(item) => {
                self.header.add_item(alloc, item)?;
                Ok(Line::Header)
            }
            Parsed::Client(client) => {
                self.header.add_client(alloc, client)?;
                Ok(Line::Header)
            }
            Parsed::Plan(plan) => {
                self.header.add_plan(plan)?;
                Ok(Line::Header)
            }
            Parsed::Begin => {
                self.header.begin(alloc);
                self.stage = Stage::Body;
                Ok(Line::Begin)
            }
            Parsed::Act(act) => {
                if matches!(act, Act::Settle) {
                    self.settles += 1;
                }
                self.acts += 1;
                Ok(Line::Act(act))
            }
            Parsed::End => {
                self.stage = Stage::Ended;
                Ok(Line::End)
            }
        }
    }
}
