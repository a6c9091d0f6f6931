//! The whole lines of a script, one after another.
ghost use Rattle.std.specs.Prelude.{false, ◌≡◌, ◌≤◌, ◌↔◌, ℕ, List, IsTrue, length, [], None, Some, IfSome, MatchResult};
ghost use Rattle.sat_act.specs.Limits.{IsDeployment};
ghost use Rattle.sat_script.specs.Kept.{IsFit};
ghost use Rattle.sat_script.specs.Lines.{running};
ghost use Rattle.sat_script.specs.Spelled.{AreActsOf, HaveNames};
ghost use Rattle.sat_script.specs.Dialect.{dialect_of};
ghost use Rattle.sat_script.specs.State.{start, fault_at};
ghost use Rattle.sat_act.specs.Deployed.{Deployed};
ghost use Rattle.sat_stream.specs.Stream.{means, stopped_at, without_acts, GoesOn, StopsAt};
ghost use Rattle.sat_script.specs.declared.line.Stage.TheVariants as stage;

use crate::Reading;
use sat_act::{Acts, Deployment};
use sat_script::{Cause, MOST_ACTS, Reader, ScriptFault};
use std::alloc::Global;
use std::marker::Model;
use std::mem;

/// The whole lines of a script so far, and what they said.
#[derive(Drop)]
pub struct Lines {
    reader: Reader,
    acts: Acts,
}

impl Model for Lines {
    ghost use Rattle.sat_stream.specs.Stream.{WholeLines, lines_seen};
    ghost use Rattle.sat_stream.specs.Coming.{AreWhole};

    ghost Value = { WholeLines };

    ghost view = { λ l. lines_seen l.reader l.acts };

    ghost invariant = { λ l. AreWhole (lines_seen l.reader l.acts) };
}

impl Lines {
    /// No lines.
    pub fn new(alloc: Global, live: bool) -> Lines
        ensures new { result ≡ record { seen = running (start (dialect_of live)); deployment = None; acts = [] } }
        ensures fit { IsFit result.seen.state }
    {
        Lines {
            reader: Reader::new(alloc, live),
            acts: Acts::new(alloc),
        }
    }

    /// Whether the line `end` has come.
    pub fn have_ended(&self) -> bool
        ensures { IsTrue result ↔ (self.now.seen.state.stage ≡ stage.Ended) }
    {
        self.reader.has_ended()
    }

    /// Fails at the next line.
    pub fn fail(&mut self, cause: Cause) -> ScriptFault
        ensures fault { result ≡ fault_at self.old.seen.state cause }
        ensures stays { self.new ≡ stopped_at self.old result }
    {
        self.reader.fail(cause)
    }

    /// Takes a line, without its byte 10. Want of memory comes after every other cause, and is told at the line for
    /// which it ran out.
    #[inline(always)]
    pub fn line(&mut self, line: &[u8]) -> Result<(), ScriptFault>
        requires fresh { self.old.seen.fault ≡ None }
        ensures takes { MatchResult result (λ _. GoesOn self.old self.new line.now)
            (λ fault. StopsAt self.old self.new line.now fault) }
        ensures fit { IsFit self.new.seen.state }
    {
        if self.takes_act(line) {
            return Ok(());
        }
        self.any_line(line)
    }

    // Takes a line, where it is quickly found to be a good act, and there is memory for it. Whether it did; else
    // nothing changes.
    #[inline(always)]
    fn takes_act(&mut self, line: &[u8]) -> bool
        requires fresh { self.old.seen.fault ≡ None }
        ensures yes { IsTrue result → GoesOn self.old self.new line.now }
        ensures no { result ≡ false → self.new ≡ self.old }
        ensures fit { IsFit self.new.seen.state }
    {
        match self.reader.good_act(line) {
            Some(act) => self.reader.takes_act(act, &mut self.acts),
            None => false,
        }
    }

    /// The same; the line may be no act, or a bad one.
    #[inline(never)]
    pub fn any_line(&mut self, line: &[u8]) -> Result<(), ScriptFault>
        requires fresh { self.old.seen.fault ≡ None }
        ensures takes { MatchResult result (λ _. GoesOn self.old self.new line.now)
            (λ fault. StopsAt self.old self.new line.now fault) }
        ensures fit { IsFit self.new.seen.state }
    {
        let parsed = match self.reader.parse(line) {
            Ok(parsed) => parsed,
            Err(cause) => return Err(self.reader.fail(cause)),
        };
        self.reader.keep_in(parsed, &mut self.acts)
    }

    /// The deployment, once the line `begin` has come.
    pub fn deployment(&self) -> &Option<Deployment>
        ensures { result.now ≡ self.now.deployment }
    {
        self.reader.deployment()
    }

    /// Hands out the acts that came since the last call. It takes no memory.
    pub fn drain(&mut self) -> Acts
        ensures acts { result ≡ self.old.acts }
        ensures rest { self.new ≡ without_acts self.old }
        ensures sound { IfSome self.old.deployment (λ d. IsDeployment d × HaveNames d × AreActsOf d result) }
        ensures none { self.old.deployment ≡ None → result ≡ [] }
        // A deployment that is known stays, whatever comes.
        ensures stays { (d : Deployed) (begun more : List ℕ) → self.old.deployment ≡ Some d
            → (means self.new begun more).deployment ≡ Some d }
    {
        let none = Acts::new(self.reader.allocator());
        mem::replace(&mut self.acts, none)
    }

    /// Takes the memory of a list that it handed out for the acts to come, where none has come since.
    pub fn reuse(&mut self, mut spent: Acts)
        ensures { self.new ≡ self.old }
    {
        if self.acts.as_slice().is_empty() {
            spent.clear();
            self.acts = spent;
        }
    }

    /// What the text is that came, where these bytes, none of them 10, stood after the last line. It takes no memory.
    pub fn finish(self, rest: &[u8]) -> Reading
        ensures means { result ≡ means self rest.now [] }
        ensures sound { IfSome result.deployment (λ d. IsDeployment d × HaveNames d × AreActsOf d result.acts) }
        ensures none { result.deployment ≡ None → result.acts ≡ [] }
        ensures few { length result.acts ≤ MOST_ACTS }
    {
        let Lines { mut reader, acts } = self;
        let _ = reader.close(rest);
        let fault = reader.fault();
        Reading {
            deployment: reader.into_deployment(),
            acts,
            fault,
        }
    }
}
