//! A follower of scripts for sites that last.
ghost use Rattle.std.specs.Prelude.{◌≡◌, ◌≢◌, ◌++◌, [], None, Ok, IsSome, OnErr, OnOk};
ghost use Rattle.sat_lasting.specs.Lasts.{IsSound};
ghost use Rattle.sat_follow.specs.ByLines.{Begins, GoodLine};
ghost use Rattle.sat_script.specs.Causes.{full};
ghost use Rattle.sat_script.specs.State.{deployment_of, fault_at};
ghost use Rattle.sat_script.specs.declared.line.Stage.TheVariants as stage;
ghost use Rattle.sat_report.specs.Faults.{fault_line};
ghost use Rattle.sat_lasting_laws.specs.Ranges.{IsLastingActOf};
ghost use Rattle.sat_lasting_script.specs.Forms.{lasting_acts};
ghost use Rattle.sat_own_acts.specs.Lines.{own_line};
ghost use Rattle.sat_own_acts.specs.Steps.{own_rules, act_in};
ghost use Rattle.sat_lasting_runs.specs.LastingTexts.{lasting_telling, lasting_meaning};
ghost use Rattle.sat_lasting_runs.specs.Held.{AsksAct, EntersIn, LastingStands, LastingStarted, LastingEnters};
ghost use Rattle.sat_lasting_runs.specs.Held.{LastingGoes, LastingKeeps};

use sat_follow::{Follower, LineFollower, Lines};
use sat_lasting::Lasting;
use sat_lasting_laws::LastingAct;
use sat_lasting_script::{OwnParsed, lasting_line, lasting_lines_make_texts};
use sat_lasting_texts::write_lasting_line;
use sat_report::{write_fault, write_holdings};
use sat_script::{Cause, Dialect, LONGEST_LINE, Parsed, Reader};
use std::alloc::{AllocError, Global};
use std::marker::Model;

/// Takes the lines of a script for sites that last, does their acts, and answers them. It keeps the sites, their disks
/// and the world, and of the script its header alone.
#[derive(Drop)]
pub struct LastingLines {
    alloc: Global,
    reader: Reader,
    lasting: Option<Lasting>,
    answered: u64,
}

impl Model for LastingLines {
    ghost use Rattle.sat_lasting_runs.specs.Held.{LastingHeld, IsLastingHeld};

    ghost Value = { LastingHeld };

    ghost view = { λ v. record { reader = v.reader; machine = v.lasting; answered = v.answered } };

    ghost invariant = { λ v. IsLastingHeld (record { reader = v.reader; machine = v.lasting; answered = v.answered }) };
}

impl LastingLines {
    // Before the first line.
    fn new(alloc: Global) -> LastingLines
        ensures { Begins (own_rules lasting_acts lasting_telling) (LastingStands result) }
    {
        LastingLines {
            alloc,
            reader: Reader::of(alloc, Dialect::Lasting),
            lasting: None,
            answered: 0,
        }
    }
}

impl LineFollower for LastingLines {
    ghost use Rattle.sat_lasting_script.specs.Forms.{lasting_acts};
    ghost use Rattle.sat_own_acts.specs.Steps.{own_rules};
    ghost use Rattle.sat_lasting_runs.specs.LastingTexts.{lasting_telling};
    ghost use Rattle.sat_lasting_runs.specs.Held.{LastingState, LastingStands};

    ghost State = { LastingState };

    ghost rules = { λ v. own_rules lasting_acts lasting_telling };

    ghost stands_for = { λ v s. LastingStands v s };

    fn line(&mut self, line: &[u8], text: &mut Vec<u8>) -> Result<bool, AllocError> {
        match lasting_line(&self.reader, line) {
            Ok(parsed) => {
                self.take(parsed, line, text)?;
                Ok(true)
            }
            Err(cause) => {
                self.refuse(cause, text)?;
                Ok(false)
            }
        }
    }

    fn is_stuck(&self, count: usize) -> bool {
        if self.reader.has_ended() {
            return true;
        }
        if count > LONGEST_LINE {
            return true;
        }
        false
    }

    fn finish(&mut self, rest: &[u8], text: &mut Vec<u8>) -> Result<u8, AllocError> {
        if let Err(fault) = self.reader.close(rest) {
            write_fault(&fault, text)?;
            return Ok(1);
        }
        self.start()?;
        let Some(lasting) = &self.lasting else {
            unreachable!()
        };
        write_holdings(lasting.world(), text)?;
        Ok(0)
    }
}

/// A follower of scripts for sites that last, before the first line. What it makes of a text is what the whole text
/// says: the answers of the acts before the first bad line, in their one history, and then what the sites hold, or that
/// line's fault.
pub fn lasting_follower(alloc: Global) -> Lines<LastingLines>
    ensures meaning { ⟦<Lines<LastingLines> as Follower>⟧.meaning result ≡ lasting_meaning }
    ensures fresh { ⟦<Lines<LastingLines> as Follower>⟧.follows result [] }
{
    // Brings this law into the proof; it does nothing when it runs.
    lasting_lines_make_texts();
    Lines::new(alloc, LastingLines::new(alloc))
}

// The act that a line says, if it says one.
fn act_of(parsed: OwnParsed<LastingAct>) -> Option<LastingAct>
    ensures { result ≡ act_in lasting_acts parsed }
{
    match parsed {
        OwnParsed::Own(act) => Some(act),
        OwnParsed::Plain(Parsed::Act(act)) => Some(LastingAct::Plain(act)),
        OwnParsed::Plain(_) => None,
    }
}

// Does an act, and appends the line of its answer, with this number.
fn answer_act(
    lasting: &mut Lasting,
    number: u64,
    act: &LastingAct,
    text: &mut Vec<u8>,
) -> Result<(), AllocError>
    requires act { IsLastingActOf lasting.old.world.deployment act.now }
    requires sound { IsSound lasting.old }
    ensures ok { OnOk result (LastingEnters lasting.old act.now lasting.new number text.old.items text.new.items) }
{
    let answer = lasting.apply(act)?;
    write_lasting_line(lasting.world().deployment(), number, act, &answer, text)
}

// The same by sites that are there. For want of memory they are given up.
fn answer_in(
    held: &mut Option<Lasting>,
    number: u64,
    act: &LastingAct,
    text: &mut Vec<u8>,
) -> Result<(), AllocError>
    requires { AsksAct held.old act.now }
    ensures ok { OnOk result (EntersIn held.old act.now held.new number text.old.items text.new.items) }
    ensures err { OnErr result (held.new ≡ None) }
{
    let Some(lasting) = held else { unreachable!() };
    if let Err(fault) = answer_act(lasting, number, act, text) {
        *held = None;
        return Err(fault);
    }
    Ok(())
}

impl LastingLines {
    // Takes what the next line says.
    fn take(
        &mut self,
        parsed: OwnParsed<LastingAct>,
        line: &[u8],
        text: &mut Vec<u8>,
    ) -> Result<(), AllocError>
        requires says { own_line lasting_acts self.old.reader.state line.now ≡ Ok parsed }
        ensures ok { OnOk result (GoodLine (own_rules lasting_acts lasting_telling) (LastingStands self.old)
            (LastingStands self.new) line.now text.old.items text.new.items) }
    {
        let _ = &self.alloc;
        match act_of(parsed) {
            Some(act) => self.answer(&act, text),
            None => self.keep(line),
        }
    }

    // Says why the next line is refused.
    fn refuse(&mut self, cause: Cause, text: &mut Vec<u8>) -> Result<(), AllocError>
        ensures cause { OnOk result (cause ≢ Cause.Memory) }
        ensures ok { OnOk result (text.new.items ≡ text.old.items
            ++ fault_line (fault_at self.old.reader.state cause)) }
    {
        if cause == Cause::Memory {
            return Err(AllocError);
        }
        let fault = self.reader.fail(cause);
        write_fault(&fault, text)
    }

    // Does the act that the next line says. For want of memory the sites are given up.
    fn answer(&mut self, act: &LastingAct, text: &mut Vec<u8>) -> Result<(), AllocError>
        requires body { self.old.reader.state.stage ≡ stage.Body }
        requires room { full self.old.reader.state ≡ None }
        requires act { IsLastingActOf self.old.reader.state.header act.now }
        ensures ok { OnOk result (LastingGoes self.old act.now self.new text.old.items text.new.items) }
    {
        let _ = &self.alloc;
        self.start()?;
        self.reader.count_act();
        let number = self.answered.saturating_add(1);
        answer_in(&mut self.lasting, number, act, text)?;
        self.answered = number;
        Ok(())
    }

    // Takes the next line, which says no act: one of the header, `begin` or `end`.
    fn keep(&mut self, line: &[u8]) -> Result<(), AllocError>
        ensures ok { OnOk result (LastingKeeps self.old line.now self.new) }
    {
        match self.reader.line(line) {
            Ok(_) => Ok(()),
            Err(_) => Err(AllocError),
        }
    }

    // Makes the sites of the deployment that was read, to which nothing has happened, where there are none yet.
    #[inline(always)]
    fn start(&mut self) -> Result<(), AllocError>
        requires begun { IsSome (deployment_of self.old.reader.state) }
        ensures reader { self.new.reader ≡ self.old.reader }
        ensures answered { self.new.answered ≡ self.old.answered }
        ensures started { OnOk result (LastingStarted self.old self.new.machine) }
    {
        if self.lasting.is_some() {
            return Ok(());
        }
        self.make()
    }

    // Makes them.
    fn make(&mut self) -> Result<(), AllocError>
        requires begun { IsSome (deployment_of self.old.reader.state) }
        requires none { self.old.machine ≡ None }
        ensures reader { self.new.reader ≡ self.old.reader }
        ensures answered { self.new.answered ≡ self.old.answered }
        ensures started { OnOk result (LastingStarted self.old self.new.machine) }
    {
        let Some(deployment) = self.reader.deployment() else {
            unreachable!()
        };
        let lasting = Lasting::new(self.alloc, deployment.copy()?)?;
        self.lasting = Some(lasting);
        Ok(())
    }
}
