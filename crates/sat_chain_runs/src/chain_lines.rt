//! A follower of scripts with chains.
ghost use Rattle.std.specs.Prelude.{◌≡◌, ◌≢◌, ◌≤◌, ◌++◌, true, false, [], Some, None, Ok, IsSome, OnOk};
ghost use Rattle.sat_follow.specs.ByLines.{Begins, GoodLine};
ghost use Rattle.sat_script.specs.Causes.{full};
ghost use Rattle.sat_script.specs.State.{deployment_of, fault_at};
ghost use Rattle.sat_script.specs.declared.line.Stage.TheVariants as stage;
ghost use Rattle.sat_report.specs.Faults.{fault_line};
ghost use Rattle.sat_chain_laws.specs.Ranges.{IsChainActOf};
ghost use Rattle.sat_chain_script.specs.ChainLines.{chain_line, saying};
ghost use Rattle.sat_chain_rules.specs.Steps.{chain_rules, act_in};
ghost use Rattle.sat_chain_runs.specs.ChainTexts.{texts_of, chain_meaning};
ghost use Rattle.sat_chain_runs.specs.Held.{HeldSeen, StandsAt, StaysKnown, KeepsHistories, HasAnswer, GoesBy};
ghost use Rattle.sat_chain_runs.specs.Held.{KeepsLine, HasHoldings};

use sat_chain::{ChainAct, Chains};
use sat_chain_rules::chain_lines_make_texts;
use sat_chain_script::{ChainParsed, chain_line, good_chain_act};
use sat_chain_texts::write_chain_numbered;
use sat_follow::{Follower, LineFollower, Lines};
use sat_report::{LineFront, write_fault, write_holdings};
use sat_script::{Cause, Dialect, LONGEST_LINE, Parsed, Reader};
use std::alloc::{AllocError, Global};
use std::marker::Model;

/// Takes the lines of a script with chains, does their acts, and answers them. It keeps the chains and the world, and
/// of the script its header alone.
#[derive(Drop)]
pub struct ChainLines {
    alloc: Global,
    reader: Reader,
    chains: Option<Chains>,
    replicas: u16,
    number: LineFront,
}

impl Model for ChainLines {
    ghost use Rattle.sat_chain_runs.specs.Held.{HeldSeen, IsHeld};

    ghost Value = { HeldSeen };

    ghost view = { λ v. record { reader = v.reader; chains = v.chains; replicas = v.replicas; number = v.number } };

    ghost invariant = { λ v.
        IsHeld (record { reader = v.reader; chains = v.chains; replicas = v.replicas; number = v.number }) };
}

impl ChainLines {
    // Before the first line.
    fn new(alloc: Global, replicas: u16) -> ChainLines
        requires some { 1 ≤ replicas }
        requires few { replicas ≤ 5 }
        ensures replicas { result.replicas ≡ replicas }
        ensures begins { Begins (chain_rules (texts_of replicas) replicas) (StandsAt result) }
    {
        ChainLines {
            alloc,
            reader: Reader::of(alloc, Dialect::Chain),
            chains: None,
            replicas,
            number: LineFront::of(0),
        }
    }
}

impl LineFollower for ChainLines {
    ghost use Rattle.sat_chain_rules.specs.Steps.{ChainState, chain_rules};
    ghost use Rattle.sat_chain_runs.specs.ChainTexts.{texts_of};
    ghost use Rattle.sat_chain_runs.specs.Held.{StandsAt};

    ghost State = { ChainState };

    ghost rules = { λ v. chain_rules (texts_of v.replicas) v.replicas };

    ghost stands_for = { λ v s. StandsAt v s };

    fn line(&mut self, line: &[u8], text: &mut Vec<u8>) -> Result<bool, AllocError> {
        if let Some(act) = good_chain_act(&self.reader, self.replicas, line) {
            self.answer_good(&act, line, text)?;
            return Ok(true);
        }
        match chain_line(&self.reader, self.replicas, line) {
            Ok(parsed) => {
                self.take(parsed, line, text)?;
                Ok(true)
            }
            Err(cause) => {
                self.refuse(cause, text)?;
                Ok(false)
            }
        }
    }

    fn is_stuck(&self, count: usize) -> bool {
        if self.reader.has_ended() {
            return true;
        }
        if count > LONGEST_LINE {
            return true;
        }
        false
    }

    fn finish(&mut self, rest: &[u8], text: &mut Vec<u8>) -> Result<u8, AllocError> {
        if let Err(fault) = self.reader.close(rest) {
            write_fault(&fault, text)?;
            return Ok(1);
        }
        self.make_chains()?;
        self.write_end(text)?;
        Ok(0)
    }
}

/// A follower of scripts with chains, before the first line, where each serializer has 1 to 5 replicas. What it makes
/// of a text is what the whole text says: the answers of the acts before the first bad line, in their one history, and
/// then what the sites hold, or that line's fault.
pub fn chain_follower(alloc: Global, replicas: u16) -> Lines<ChainLines>
    requires some { 1 ≤ replicas }
    requires few { replicas ≤ 5 }
    ensures meaning { ⟦<Lines<ChainLines> as Follower>⟧.meaning result ≡ chain_meaning replicas }
    ensures fresh { ⟦<Lines<ChainLines> as Follower>⟧.follows result [] }
{
    // Brings this law into the proof; it does nothing when it runs.
    chain_lines_make_texts();
    Lines::new(alloc, ChainLines::new(alloc, replicas))
}

// The act that a line says, if it says one.
fn act_of(parsed: ChainParsed) -> Option<ChainAct>
    ensures { result ≡ act_in parsed }
{
    match parsed {
        ChainParsed::Step(act) => Some(act),
        ChainParsed::Plain(Parsed::Act(act)) => Some(ChainAct::Plain(act)),
        ChainParsed::Plain(_) => None,
    }
}

// Does an act, and appends the line of its answer.
fn answer_act(
    chains: &mut Chains,
    number: &mut LineFront,
    act: &ChainAct,
    text: &mut Vec<u8>,
) -> Result<(), AllocError>
    requires act { IsChainActOf chains.old.world.deployment chains.old.replicas act.now }
    ensures deployment { chains.new.world.deployment ≡ chains.old.world.deployment }
    ensures replicas { chains.new.replicas ≡ chains.old.replicas }
    ensures known { StaysKnown (Some chains.old) (Some chains.new) }
    ensures ok { OnOk result
        (HasAnswer chains.old number.old act.now chains.new number.new text.old.items text.new.items) }
{
    let answer = chains.apply(act)?;
    number.advance();
    write_chain_numbered(chains.world().deployment(), number, act, &answer, text)
}

impl ChainLines {
    // Takes what the next line says.
    fn take(
        &mut self,
        parsed: ChainParsed,
        line: &[u8],
        text: &mut Vec<u8>,
    ) -> Result<(), AllocError>
        requires says { chain_line self.old.replicas self.old.reader.state line.now ≡ Ok parsed }
        ensures replicas { self.new.replicas ≡ self.old.replicas }
        ensures ok { OnOk result (GoodLine (chain_rules (texts_of self.old.replicas) self.old.replicas)
            (StandsAt self.old) (StandsAt self.new) line.now text.old.items text.new.items) }
    {
        let _ = &self.replicas;
        match act_of(parsed) {
            Some(act) => self.answer(&act, text),
            None => self.keep(line),
        }
    }

    // Does the act that the next line says, which was found quickly.
    fn answer_good(
        &mut self,
        act: &ChainAct,
        line: &[u8],
        text: &mut Vec<u8>,
    ) -> Result<(), AllocError>
        requires says { chain_line self.old.replicas self.old.reader.state line.now ≡ Ok (saying act.now) }
        ensures replicas { self.new.replicas ≡ self.old.replicas }
        ensures ok { OnOk result (GoodLine (chain_rules (texts_of self.old.replicas) self.old.replicas)
            (StandsAt self.old) (StandsAt self.new) line.now text.old.items text.new.items) }
    {
        let _ = &self.replicas;
        let _ = line;
        self.answer(act, text)
    }

    // Says why the next line is refused.
    fn refuse(&mut self, cause: Cause, text: &mut Vec<u8>) -> Result<(), AllocError>
        ensures replicas { self.new.replicas ≡ self.old.replicas }
        ensures cause { OnOk result (cause ≢ Cause.Memory) }
        ensures ok { OnOk result (text.new.items ≡ text.old.items
            ++ fault_line (fault_at self.old.reader.state cause)) }
    {
        if cause == Cause::Memory {
            return Err(AllocError);
        }
        let fault = self.reader.fail(cause);
        write_fault(&fault, text)
    }

    // Does the act that the next line says.
    fn answer(&mut self, act: &ChainAct, text: &mut Vec<u8>) -> Result<(), AllocError>
        requires body { self.old.reader.state.stage ≡ stage.Body }
        requires room { full self.old.reader.state ≡ None }
        requires act { IsChainActOf self.old.reader.state.header self.old.replicas act.now }
        ensures replicas { self.new.replicas ≡ self.old.replicas }
        ensures ok { OnOk result (GoesBy self.old act.now self.new text.old.items text.new.items) }
    {
        self.make_chains()?;
        let Some(chains) = &mut self.chains else {
            unreachable!()
        };
        self.reader.count_act();
        answer_act(chains, &mut self.number, act, text)
    }

    // Takes the next line, which says no act: one of the header, `begin` or `end`.
    fn keep(&mut self, line: &[u8]) -> Result<(), AllocError>
        ensures replicas { self.new.replicas ≡ self.old.replicas }
        ensures ok { OnOk result (KeepsLine self.old line.now self.new) }
    {
        match self.reader.line(line) {
            Ok(_) => Ok(()),
            Err(_) => Err(AllocError),
        }
    }

    // Sees to it that there are chains. They are made by the first act, or by the end.
    #[inline(always)]
    fn make_chains(&mut self) -> Result<(), AllocError>
        requires begun { IsSome (deployment_of self.old.reader.state) }
        ensures reader { self.new.reader ≡ self.old.reader }
        ensures replicas { self.new.replicas ≡ self.old.replicas }
        ensures number { self.new.number ≡ self.old.number }
        ensures keeps { KeepsHistories self.old.chains self.new.chains }
        ensures some { OnOk result (IsSome self.new.chains) }
    {
        if self.chains.is_some() {
            return Ok(());
        }
        self.begin_chains()
    }

    // Makes chains to which nothing has happened, of the deployment that was read.
    #[inline(never)]
    fn begin_chains(&mut self) -> Result<(), AllocError>
        requires begun { IsSome (deployment_of self.old.reader.state) }
        requires none { self.old.chains ≡ None }
        ensures reader { self.new.reader ≡ self.old.reader }
        ensures replicas { self.new.replicas ≡ self.old.replicas }
        ensures number { self.new.number ≡ self.old.number }
        ensures keeps { KeepsHistories self.old.chains self.new.chains }
        ensures some { OnOk result (IsSome self.new.chains) }
    {
        let Some(deployment) = self.reader.deployment() else {
            unreachable!()
        };
        let chains = Chains::new(self.alloc, deployment.copy()?, self.replicas)?;
        self.chains = Some(chains);
        Ok(())
    }

    // Appends what the sites hold.
    fn write_end(&self, text: &mut Vec<u8>) -> Result<(), AllocError>
        requires { IsSome self.now.chains }
        ensures ok { OnOk result (HasHoldings self.now text.old.items text.new.items) }
    {
        let Some(chains) = &self.chains else {
            unreachable!()
        };
        write_holdings(chains.world(), text)
    }
}
