//! A reader of lines.
ghost use Rattle.std.specs.Prelude.{false, ◌≡◌, ◌≤◌, ◌↔◌, ◌++◌, [], ◌∷◌, IsTrue, IfErr, IfSome, OnOk, MatchResult};
ghost use Rattle.std.specs.Prelude.{None, Some, Ok, Err, length, map, take};
ghost use Rattle.sat_act.specs.Parts.{tree_of};
ghost use Rattle.sat_script.specs.Causes.{full, item_of};
ghost use Rattle.sat_script.specs.Said.{said_of, AreRead, TakesActs};
ghost use Rattle.sat_script.specs.Table.{at, edge_cause, kinds_say, num, place};
ghost use Rattle.sat_script.specs.Dialect.{dialect_of};
ghost use Rattle.sat_script.specs.State.{start, number_of, fault_at, deployment_of, with_one_act};
ghost use Rattle.sat_script.specs.Grammar.{words_line, line_at, close_in, after, told_line};
ghost use Rattle.sat_script.specs.Kept.{IsFit, Suits};
ghost use Rattle.sat_script.specs.Lines.{Gives, Takes, Closes, running, failed, acts_with};
ghost use Rattle.sat_script.specs.Words.{blanks_from, words_of};
ghost use Rattle.sat_script.specs.declared.line.Parsed.TheVariants as parsed;

use crate::act_lines::{
    act_of_five, act_of_four, act_of_three, act_of_two, body_line, edge_cause, kinds_say,
    long_write_of, said_edge, said_part, said_serializer,
};
use crate::header_lines::{format_line, gears_line, header_line, sites_line};
use crate::limits::LONGEST_LINE;
use crate::line::{Line, Parsed, Stage};
use crate::place::Place;
use crate::words::{
    SHORT_LINE, blanks, cut_line, first_words, five_words, four_words, three_words, two_words,
};
use crate::{Args, Cause, Dialect, Kind, ScriptFault};
use arrayvec::ArrayVec;
use sat_act::{Act, Acts, Deployment};
use sat_label::NodeId;
use std::alloc::Global;
use std::marker::Model;

// What the words of a line say, by the stage in which it stands.
#[tactic(auto, using(crate::proofs::First::format_first, crate::proofs::First::sites_first, crate::proofs::First::gears_first, crate::proofs::First::body_first), unfolding(crate::specs::Grammar::words_line))]
fn words_line(alloc: Global, place: &Place, line: &[u8], words: &[&[u8]]) -> Result<Parsed, Cause>
    requires { map (λ word. word.now) words.now ≡ take 11 (words_of line.now) }
    ensures { Gives result (words_line place.now.stage place.now (words_of line.now)) }
{
    match place.stage() {
        Stage::Start => format_line(words),
        Stage::Sites => sites_line(place, words),
        Stage::Gears => gears_line(words),
        Stage::Header => header_line(alloc, place, line, words),
        Stage::Body => body_line(alloc, place, words),
        Stage::Ended => Err(Cause::AfterEnd),
    }
}

// The act that a long line says, where it is a good one: of such acts few are no writes.
#[inline(never)]
fn long_act(alloc: Global, place: &Place, line: &[u8]) -> Option<Act>
    ensures { IfSome result (λ act. line_at place.now line.now ≡ Ok (parsed.Act act)) }
{
    if !place.takes_acts() || line.len() > LONGEST_LINE {
        return None;
    }
    let (word, client, item, value) = cut_line(line)?;
    if word != b"write".as_slice() {
        return None;
    }
    long_write_of(alloc, place.header(), client, item, value)
}

// What a line says.
#[tactic(auto, unfolding(crate::specs::Grammar::line_at))]
fn line_at(alloc: Global, place: &Place, line: &[u8]) -> Result<Parsed, Cause>
    ensures { Gives result (line_at place.now line.now) }
{
    if line.len() > SHORT_LINE
        && let Some(act) = long_act(alloc, place, line)
    {
        return Ok(Parsed::Act(act));
    }
    if place.stage() == Stage::Ended {
        return Err(Cause::AfterEnd);
    }
    if line.len() > LONGEST_LINE {
        return Err(Cause::LongLine);
    }
    let mut words = ArrayVec::new();
    if !first_words(line, &mut words) {
        return Err(Cause::NotText);
    }
    words_line(alloc, place, line, words.as_slice())
}

#[tactic(auto, unfolding(crate::specs::Grammar::close_in))]
fn close_in(stage: Stage, rest: &[u8]) -> Option<Cause>
    ensures { result ≡ close_in stage rest.now }
{
    match stage {
        Stage::Ended => {
            if rest.is_empty() {
                None
            } else {
                Some(Cause::AfterEnd)
            }
        }
        _ => {
            if rest.len() > LONGEST_LINE {
                Some(Cause::LongLine)
            } else {
                Some(Cause::NoEnd)
            }
        }
    }
}

/// Takes the lines of a script, one after another. After a fault it answers that fault again.
#[derive(Drop)]
pub struct Reader {
    alloc: Global,
    place: Place,
    fault: Option<ScriptFault>,
}

impl Model for Reader {
    ghost use Rattle.sat_script.specs.State.{Seen};
    ghost use Rattle.sat_script.specs.Kept.{IsFit};

    ghost Value = { Seen };

    ghost view = { λ r. record { state = r.place; fault = r.fault } };

    ghost invariant = { λ r. IsFit r.place };
}

impl Reader {
    /// A reader at the first line. With `live` the script is one for nodes on threads.
    pub fn new(alloc: Global, live: bool) -> Reader
        ensures { result ≡ running (start (dialect_of live)) }
    {
        Reader::of(alloc, Dialect::of(live))
    }

    /// A reader at the first line of what is read for this.
    pub fn of(alloc: Global, dialect: Dialect) -> Reader
        ensures { result ≡ running (start dialect) }
    {
        Reader {
            alloc,
            place: Place::new(alloc, dialect),
            fault: None,
        }
    }

    /// Fails at the next line.
    pub fn fail(&mut self, cause: Cause) -> ScriptFault
        ensures fault { result ≡ record { line = number_of self.old.state; cause = cause } }
        ensures new { self.new ≡ record { state = self.old.state; fault = Some result } }
    {
        let fault = ScriptFault {
            line: self.place.number(),
            cause,
        };
        self.fault = Some(fault);
        fault
    }

    /// The fault that it answered, if it answered one.
    pub fn fault(&self) -> Option<ScriptFault>
        ensures { result ≡ self.now.fault }
    {
        self.fault
    }

    /// The allocator that it keeps.
    pub fn allocator(&self) -> Global {
        self.alloc
    }

    /// The deployment that the header says, once the line `begin` has come.
    pub fn deployment(&self) -> &Option<Deployment>
        ensures { result.now ≡ deployment_of self.now.state }
    {
        self.place.deployment()
    }

    /// The same, given away.
    pub fn into_deployment(self) -> Option<Deployment>
        ensures { result ≡ deployment_of self.state }
    {
        let Reader { place, .. } = self;
        place.into_deployment()
    }

    /// The number of the item with a name.
    pub fn item(&self, name: &[u8]) -> Option<u16>
        ensures { result ≡ item_of self.now.state.header name.now }
    {
        self.place.header().item_of(name)
    }

    /// Whether the line `end` has come.
    pub fn has_ended(&self) -> bool
        ensures { IsTrue result ↔ (self.now.state.stage ≡ Stage.Ended) }
    {
        self.place.stage() == Stage::Ended
    }

    /// Why the next line may be no act, if so many have come as there may be.
    pub fn full(&self) -> Option<Cause>
        ensures { result ≡ full self.now.state }
    {
        self.place.full()
    }

    /// What words say that stand behind the first word of an act which the reader has not, by their kinds: the causes
    /// are those of an act with such words, in their order.
    pub fn said<'a>(&self, kinds: &[Kind], words: &[&'a [u8]]) -> Result<Args<'a>, Cause>
        requires { length kinds.now ≤ 9 }
        ensures { MatchResult result
            (λ args. kinds_say (full self.now.state) self.now.state.header kinds.now (map (λ word. word.now) words.now)
            ≡ Ok (map said_of args.items))
            (λ cause. kinds_say (full self.now.state) self.now.state.header kinds.now (map (λ word. word.now) words.now)
            ≡ Err cause) }
    {
        kinds_say(&self.place, kinds, words)
    }

    /// Why a label may not go from a node to a serializer, if they are no neighbours in the tree of an epoch.
    pub fn edge_cause(&self, epoch: u16, from: NodeId, to: u16) -> Option<Cause>
        ensures { result ≡ edge_cause (tree_of self.now.state.header epoch) from to }
    {
        edge_cause(self.place.header().tree(epoch), from, to)
    }

    /// Counts the next line as an act, which another reader has read.
    pub fn count_act(&mut self)
        requires body { self.old.state.stage ≡ Stage.Body }
        requires room { full self.old.state ≡ None }
        ensures { self.new ≡ record { state = with_one_act self.old.state; fault = self.old.fault } }
    {
        self.place.count_act();
    }

    /// What the next line says.
    pub fn parse(&self, bytes: &[u8]) -> Result<Parsed, Cause>
        ensures { Gives result (line_at self.now.state bytes.now) }
    {
        line_at(self.alloc, &self.place, bytes)
    }

    /// Whether the next line may be one of the acts that most lines are. Where it says no, it still may be.
    #[inline(always)]
    pub fn takes_acts(&self) -> bool
        ensures { IsTrue result → TakesActs self.now.state }
    {
        self.place.takes_acts()
    }

    /// The act that the next line says, where it is found quickly: a line without an answer may be good too. Words that
    /// say an act are text, so no byte is asked for that before.
    #[inline(always)]
    pub fn good_act(&self, line: &[u8]) -> Option<Act>
        ensures { IfSome result (λ act. line_at self.now.state line.now ≡ Ok (parsed.Act act)) }
    {
        if !self.takes_acts() || line.len() > SHORT_LINE {
            return None;
        }
        let mut places = [0u8; 64];
        let count = blanks(line, &mut places);
        self.act_at(line, &places, count)
    }

    /// The same of a line whose blanks are known.
    #[inline(always)]
    pub fn act_at(&self, line: &[u8], places: &[u8; 64], count: usize) -> Option<Act>
        requires takes { TakesActs self.now.state }
        requires short { length line.now ≤ 64 }
        requires blanks { take count places.now ≡ blanks_from 0 line.now }
        ensures { IfSome result (λ act. line_at self.now.state line.now ≡ Ok (parsed.Act act)) }
    {
        let header = self.place.header();
        match count {
            1 => {
                let (word, one) = two_words(line, places);
                act_of_two(header, word, one)
            }
            2 => {
                let (word, one, two) = three_words(line, places);
                act_of_three(header, word, one, two)
            }
            3 => {
                let (word, one, two, three) = four_words(line, places);
                act_of_four(
                    self.alloc,
                    header,
                    self.place.has_hops(),
                    word,
                    one,
                    two,
                    three,
                )
            }
            4 => {
                let (word, one, two, three, four) = five_words(line, places);
                act_of_five(header, word, one, two, three, four)
            }
            _ => None,
        }
    }

    /// What an epoch, a node and a serializer say behind the word of an act that the reader has not, where it is found
    /// quickly that they say something, and that the two are neighbours in that epoch's tree.
    #[inline(always)]
    pub fn said_edge(&self, epoch: &[u8], from: &[u8], to: &[u8]) -> Option<(u16, NodeId, u16)>
        ensures { IfSome result (λ said. AreRead self.now.state.header
            (Kind.Epoch ∷ Kind.Node ∷ Kind.Serializer ∷ []) (epoch.now ∷ from.now ∷ to.now ∷ [])
            (place said.0 ∷ at said.1 ∷ place said.2 ∷ [])
            × (edge_cause (tree_of self.now.state.header said.0) said.1 said.2 ≡ None)) }
    {
        said_edge(self.place.header(), epoch, from, to)
    }

    /// The same of an epoch and a serializer.
    #[inline(always)]
    pub fn said_serializer(&self, epoch: &[u8], serializer: &[u8]) -> Option<(u16, u16)>
        ensures { IfSome result (λ said. AreRead self.now.state.header (Kind.Epoch ∷ Kind.Serializer ∷ [])
            (epoch.now ∷ serializer.now ∷ []) (place said.0 ∷ place said.1 ∷ [])) }
    {
        said_serializer(self.place.header(), epoch, serializer)
    }

    /// The same of an epoch, a serializer and a number.
    #[inline(always)]
    pub fn said_part(
        &self,
        epoch: &[u8],
        serializer: &[u8],
        number: &[u8],
    ) -> Option<(u16, u16, u64)>
        ensures { IfSome result (λ said. AreRead self.now.state.header
            (Kind.Epoch ∷ Kind.Serializer ∷ Kind.Count ∷ []) (epoch.now ∷ serializer.now ∷ number.now ∷ [])
            (place said.0 ∷ place said.1 ∷ num said.2 ∷ [])) }
    {
        said_part(self.place.header(), epoch, serializer, number)
    }

    /// Keeps the act of a good line, where there is memory for it. Whether it did; else nothing changes.
    #[inline(always)]
    pub fn takes_act(&mut self, act: Act, acts: &mut Acts) -> bool
        requires fits { IsFit (after self.old.state (parsed.Act act)) }
        ensures yes { IsTrue result
            → (self.new ≡ record { state = after self.old.state (parsed.Act act); fault = self.old.fault })
            × (acts.new ≡ acts.old ++ act ∷ []) }
        ensures no { result ≡ false → (self.new ≡ self.old) × (acts.new ≡ acts.old) }
    {
        self.place.keep_act(act, acts).is_ok()
    }

    // Keeps the act of a good line. For want of memory it fails at that line.
    #[inline(always)]
    fn keep_act(&mut self, act: Act, acts: &mut Acts) -> Result<(), ScriptFault>
        requires fits { IsFit (after self.old.state (parsed.Act act)) }
        ensures ok { OnOk result
            ((self.new ≡ record { state = after self.old.state (parsed.Act act); fault = self.old.fault })
            × (acts.new ≡ acts.old ++ act ∷ [])) }
        ensures err { IfErr result (λ fault. (fault ≡ fault_at self.old.state Cause.Memory)
            × (self.new ≡ failed self.old.state fault) × (acts.new ≡ acts.old)) }
    {
        match self.place.keep_act(act, acts) {
            Ok(()) => Ok(()),
            Err(_) => Err(self.fail(Cause::Memory)),
        }
    }

    /// Takes what a good line says, and adds an act to others. For want of memory it fails at that line.
    pub fn keep_in(&mut self, parsed: Parsed, acts: &mut Acts) -> Result<(), ScriptFault>
        requires fits { IsFit (after self.old.state parsed) }
        requires suits { Suits self.old.state parsed }
        ensures ok { OnOk result ((self.new ≡ record { state = after self.old.state parsed; fault = self.old.fault })
            × (acts.new ≡ acts_with acts.old (told_line parsed))) }
        ensures err { IfErr result (λ fault. (fault ≡ fault_at self.old.state Cause.Memory)
            × (self.new ≡ failed self.old.state fault) × (acts.new ≡ acts.old)) }
    {
        if let Parsed::Act(act) = parsed {
            return self.keep_act(act, acts);
        }
        match self.place.keep(self.alloc, parsed) {
            Ok(Line::Act(_)) => unreachable!(),
            Ok(Line::Header) => Ok(()),
            Ok(Line::Begin) => Ok(()),
            Ok(Line::End) => Ok(()),
            Err(_) => Err(self.fail(Cause::Memory)),
        }
    }

    /// Takes the next line, without its byte 10. After `end` every line is refused with `AfterEnd`. After a fault every
    /// call answers that fault; a fault for want of memory is one.
    pub fn line(&mut self, bytes: &[u8]) -> Result<Line, ScriptFault>
        ensures { Takes self.old.fault self.old.state self.new result bytes.now }
    {
        if let Some(fault) = self.fault {
            return Err(fault);
        }
        let parsed = match self.parse(bytes) {
            Ok(parsed) => parsed,
            Err(cause) => return Err(self.fail(cause)),
        };
        match self.place.keep(self.alloc, parsed) {
            Ok(line) => Ok(line),
            Err(_) => Err(self.fail(Cause::Memory)),
        }
    }

    /// Says that the input ended, and that these bytes, none of them 10, stood after the last line. It takes no memory.
    pub fn close(&mut self, rest: &[u8]) -> Result<(), ScriptFault>
        ensures { Closes self.old.fault self.old.state self.new result rest.now }
    {
        if let Some(fault) = self.fault {
            return Err(fault);
        }
        match close_in(self.place.stage(), rest) {
            Some(cause) => Err(self.fail(cause)),
            None => Ok(()),
        }
    }
}
