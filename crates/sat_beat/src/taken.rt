//! The beats that were taken of one site.
ghost use Rattle.std.specs.Prelude.{◌≡◌, ℕ, get_or, is_none, length, false, true, if◌then◌else◌, option_map};
ghost use Rattle.std.specs.Prelude.{option_copied, Some, None, IfOk, IfErr, OnOk, OnErr};
ghost use Rattle.sat_beat.specs.Beats.{after_take, are_reached, has_beat, is_complete, is_old, is_old_by, moved};
ghost use Rattle.sat_beat.specs.Beats.{newest, next_number, none_taken, passed, placed, refreshed, starts_to};
ghost use Rattle.sat_beat.specs.Beats.{take_answer, RisesFrom};
ghost use Rattle.sat_beat.specs.Rising.{last_before, starts_complete, AreBelow, CountsRise, EndsTo, RisesOn, RisesTo};

use crate::{Beat, BeatTake};
use std::alloc::Global;
use std::collections::BTreeMap;
use std::marker::Model;

/// The best beat, with its number, and those of greater numbers, by number. A mark says that their counts rise with
/// their numbers, as those of one sender do in whatever order they come; then the complete ones come first, and no
/// other is looked at.
#[derive(Drop)]
pub struct Taken {
    best: Option<(u64, Beat)>,
    later: BTreeMap<u64, Beat>,
    rising: bool,
}

impl Model for Taken {
    ghost use Rattle.sat_beat.specs.Beats.{TakenBeats};
    ghost use Rattle.sat_beat.specs.Rising.{IsKept};

    ghost Value = { TakenBeats };

    ghost view = { λ a. record { best = a.best; later = a.later.entries } };

    ghost invariant = { λ a. IsKept (record { best = a.best; later = a.later.entries }) a.rising };
}

// The front of a gear, 0 where none is given.
fn front_of(fronts: &[u64], gear: usize) -> u64
    ensures { result ≡ get_or fronts.now gear 0 }
{
    match fronts.get(gear) {
        None => 0,
        Some(front) => *front,
    }
}

// Whether the count of each gear is at or below its front.
#[tactic(auto, using(crate::proofs::Complete::none_yet, crate::proofs::Complete::one_more, crate::proofs::Complete::reached_short))]
fn are_reached(counts: &[u64], fronts: &[u64]) -> bool
    ensures { result ≡ are_reached counts.now fronts.now }
{
    for (gear, count) in counts.iter().enumerate() {
        if *count > front_of(fronts, gear) {
            return false;
        }
    }
    true
}

// The number of the last complete one of some beats. It looks at the last ones first.
#[tactic(auto, using(crate::proofs::Newest::newest_last, crate::proofs::Newest::newest_before))]
fn newest_of_all(later: &BTreeMap<u64, Beat>, fronts: &[u64]) -> Option<u64>
    ensures { result ≡ option_map (λ b. b.0) (newest fronts.now later.now.entries) }
{
    let mut beats = later.iter();
    while let Some((number, beat)) = beats.next_back() {
        if are_reached(beat.counts.as_slice(), fronts) {
            return Some(*number);
        }
    }
    None
}

// The number of the last beat before the first that is not complete.
#[tactic(auto, using(crate::proofs::Rising::last_more, crate::proofs::Rising::last_stops, crate::proofs::Rising::last_ends))]
fn last_before(later: &BTreeMap<u64, Beat>, fronts: &[u64]) -> Option<u64>
    ensures { result ≡ last_before fronts.now None later.now.entries }
{
    let mut beats = later.iter();
    let mut last = None;
    while let Some((number, beat)) = beats.next() {
        if !are_reached(beat.counts.as_slice(), fronts) {
            return last;
        }
        last = Some(*number);
    }
    last
}

// Whether the first of some beats is complete. It walks no beats, so it is asked first: mostly none is.
fn starts_complete(later: &BTreeMap<u64, Beat>, fronts: &[u64]) -> bool
    ensures { result ≡ starts_complete fronts.now later.now.entries }
{
    match later.first_key_value() {
        None => false,
        Some((_, beat)) => are_reached(beat.counts.as_slice(), fronts),
    }
}

// The number of the newest complete one of some beats whose counts rise.
#[tactic(auto, using(crate::proofs::Rising::last_newest, crate::proofs::Rising::none_starts))]
fn newest_rising(later: &BTreeMap<u64, Beat>, fronts: &[u64]) -> Option<u64>
    requires { CountsRise later.now.entries }
    ensures { result ≡ option_map (λ b. b.0) (newest fronts.now later.now.entries) }
{
    if starts_complete(later, fronts) {
        last_before(later, fronts)
    } else {
        None
    }
}

// The number of the newest complete one of some beats.
fn newest(later: &BTreeMap<u64, Beat>, rising: bool, fronts: &[u64]) -> Option<u64>
    requires { rising ≡ true → CountsRise later.now.entries }
    ensures { result ≡ option_map (λ b. b.0) (newest fronts.now later.now.entries) }
{
    if rising {
        newest_rising(later, fronts)
    } else {
        newest_of_all(later, fronts)
    }
}

// Whether the first of some beats has a number up to this one.
fn starts_to(later: &BTreeMap<u64, Beat>, number: u64) -> bool
    ensures { result ≡ starts_to later.now.entries number }
{
    match later.first_key_value() {
        None => false,
        Some((first, _)) => *first <= number,
    }
}

// Takes the beats up to a number out; the last of them becomes the best.
#[tactic(auto, using(crate::proofs::Passed::passed_more, crate::proofs::Passed::passed_stops))]
fn pass(best: &mut Option<(u64, Beat)>, later: &mut BTreeMap<u64, Beat>, number: u64)
    ensures { record { best = best.new; later = later.new.entries } ≡ passed number best.old later.old.entries }
{
    'beats: while starts_to(later, number) {
        *best = later.pop_first();
    }
}

// Fewer beats than these are taken out one by one: a map that is emptied at once gives its memory back, and asks for it
// anew.
const MANY: usize = 16;

// Whether there are many beats, and the last of them has a number up to this one.
fn ends_to(later: &BTreeMap<u64, Beat>, number: u64) -> bool
    ensures { result ≡ true → EndsTo later.now.entries number }
{
    if later.len() < MANY {
        return false;
    }
    match later.last_key_value() {
        None => false,
        Some((last, _)) => *last <= number,
    }
}

// Takes all beats out; the last of them becomes the best.
fn pass_all(best: &mut Option<(u64, Beat)>, later: &mut BTreeMap<u64, Beat>, number: u64)
    requires rises { RisesFrom (next_number best.old) later.old.entries }
    requires ends { EndsTo later.old.entries number }
    ensures { record { best = best.new; later = later.new.entries } ≡ passed number best.old later.old.entries }
{
    *best = later.pop_last();
    later.clear();
}

// Takes the beats up to a number, if any, out; the last of them becomes the best.
fn move_forward(best: &mut Option<(u64, Beat)>, later: &mut BTreeMap<u64, Beat>, to: Option<u64>)
    requires { RisesFrom (next_number best.old) later.old.entries }
    ensures { record { best = best.new; later = later.new.entries }
        ≡ moved to (record { best = best.old; later = later.old.entries }) }
{
    let Some(number) = to else {
        return;
    };
    if ends_to(later, number) {
        pass_all(best, later, number);
    } else {
        pass(best, later, number);
    }
}

// Whether the counts of the next beat below a number are at or below those of a beat. Where counts rise, those of all
// below are.
#[tactic(auto, using(crate::proofs::Rising::none_below, crate::proofs::Rising::rises_from_last))]
fn rises_among(later: &BTreeMap<u64, Beat>, number: u64, beat: &Beat) -> bool
    requires { CountsRise later.now.entries }
    ensures { result ≡ true → RisesTo later.now.entries number beat.now }
{
    match later.range(..number).next_back() {
        None => true,
        Some((_, below)) => are_reached(below.counts.as_slice(), beat.counts.as_slice()),
    }
}

// The same, which mostly the last of all beats tells: beats come in the order of their numbers.
fn rises_to(later: &BTreeMap<u64, Beat>, number: u64, beat: &Beat) -> bool
    requires { CountsRise later.now.entries }
    ensures { result ≡ true → RisesTo later.now.entries number beat.now }
{
    match later.last_key_value() {
        None => true,
        Some((last, below)) => {
            if *last < number {
                are_reached(below.counts.as_slice(), beat.counts.as_slice())
            } else {
                rises_among(later, number, beat)
            }
        }
    }
}

// Whether the counts of some beats, which rise or not, rise with one more, where those above it are known to be at or
// above its own or not. It looks at the one that it would stand behind.
fn goes_on(rising: bool, on: bool, later: &BTreeMap<u64, Beat>, number: u64, beat: &Beat) -> bool
    requires { rising ≡ true → CountsRise later.now.entries }
    ensures rising { result ≡ true → rising ≡ true }
    ensures below { result ≡ true → RisesTo later.now.entries number beat.now }
    ensures above { result ≡ true → on ≡ true }
{
    rising && on && rises_to(later, number, beat)
}

// The number of the newest complete beat once one comes which is newer than the newest one before.
fn newest_with(newest: Option<u64>, number: u64, beat: &Beat, fronts: &[u64]) -> Option<u64>
    ensures { result ≡ (if is_complete fronts.now beat.now then Some number else newest) }
{
    if are_reached(beat.counts.as_slice(), fronts) {
        Some(number)
    } else {
        newest
    }
}

// Puts a beat at its place by its number. For want of memory it comes back, and all is as before.
#[tactic(auto, using(crate::proofs::Passed::map_placed))]
fn insert(later: &mut BTreeMap<u64, Beat>, number: u64, beat: Beat) -> Result<(), Beat>
    ensures ok { OnOk result (later.new.entries ≡ placed later.old.entries number beat) }
    ensures back { IfErr result (λ back. back ≡ beat) }
    ensures err { OnErr result (later.new.entries ≡ later.old.entries) }
{
    match later.insert(number, beat) {
        Ok(_) => Ok(()),
        Err(failed) => Err(failed.value.1),
    }
}

impl Taken {
    /// No beat was taken. It takes no memory.
    pub fn new(alloc: Global) -> Taken
        ensures { result ≡ none_taken }
    {
        Taken {
            best: None,
            later: BTreeMap::new(alloc),
            rising: true,
        }
    }

    /// The best beat.
    pub fn best(&self) -> Option<&Beat>
        ensures { option_copied result ≡ option_map (λ b. b.1) self.now.best }
    {
        match &self.best {
            None => None,
            Some((_, beat)) => Some(beat),
        }
    }

    // The number of the newest complete one of the later beats, up to which the best is to go forward.
    #[tactic(auto, using(crate::proofs::Passed::refreshed_moved, crate::proofs::Passed::old_by))]
    fn newest(&self, fronts: &[u64]) -> Option<u64>
        ensures number { result ≡ option_map (λ b. b.0) (newest fronts.now self.now.later) }
        ensures forward { moved result self.now ≡ refreshed fronts.now self.now }
        ensures old { (k : ℕ) → is_old_by result self.now.best k ≡ is_old (refreshed fronts.now self.now).best k }
    {
        newest(&self.later, self.rising, fronts)
    }

    // Moves the best forward up to a number, if any.
    fn forward(&mut self, to: Option<u64>)
        ensures { self.new ≡ moved to self.old }
    {
        move_forward(&mut self.best, &mut self.later, to);
        self.rising = self.rising || self.later.is_empty();
    }

    /// Moves the best forward, by the front of each gear. It takes no memory.
    pub fn refresh(&mut self, fronts: &[u64])
        ensures { self.new ≡ refreshed fronts.now self.old }
    {
        // Mostly none waits, and this is asked for each payload.
        if self.later.is_empty() {
            return;
        }
        let newest = self.newest(fronts);
        match newest {
            None => {}
            Some(_) => self.forward(newest),
        }
    }

    // Whether the best beat, once it has gone forward up to a number, if any, has this number or a greater one.
    fn is_old(&self, newest: Option<u64>, number: u64) -> bool
        ensures { result ≡ is_old_by newest self.now.best number }
    {
        match newest {
            Some(newest) => number <= newest,
            None => match &self.best {
                None => false,
                Some((best, _)) => number <= *best,
            },
        }
    }

    // Whether the later beats, if any, have numbers below one, as mostly they have: the last of them tells.
    fn are_below(&self, number: u64) -> bool
        ensures { result ≡ true → AreBelow self.now.later number }
    {
        match self.later.last_key_value() {
            None => true,
            Some((last, _)) => *last < number,
        }
    }

    // None where a beat of this number is among the later ones, else whether the counts of the next one above it are at
    // or above those of a beat. Where counts rise, those of all above are.
    #[tactic(auto, using(crate::proofs::Rising::none_above, crate::proofs::Rising::rises_to_first, crate::proofs::Rising::none_from, crate::proofs::Rising::first_from, crate::proofs::Last::none_has, crate::proofs::Last::none_on))]
    fn rises_on(&self, number: u64, beat: &Beat) -> Option<bool>
        ensures has { is_none result ≡ has_beat self.now.later number }
        ensures above { CountsRise self.now.later → result ≡ Some true → RisesOn self.now.later number beat.now }
    {
        if self.are_below(number) {
            return Some(true);
        }
        match self.later.range(number..).next() {
            None => Some(true),
            Some((found, above)) => {
                if *found == number {
                    None
                } else {
                    Some(are_reached(beat.counts.as_slice(), above.counts.as_slice()))
                }
            }
        }
    }

    // Whether a beat that is newer than the best one is complete, and none waits: then it is the best at once.
    fn is_at_once(&self, number: u64, beat: &Beat, fronts: &[u64]) -> bool
        ensures none { result ≡ true → length self.now.later ≡ 0 }
        ensures young { result ≡ true → is_old self.now.best number ≡ false }
        ensures complete { result ≡ true → is_complete fronts.now beat.now ≡ true }
    {
        self.later.is_empty()
            && !self.is_old(None, number)
            && are_reached(beat.counts.as_slice(), fronts)
    }

    /// Takes a beat, and moves the best forward. For want of memory the beat comes back, and all is as before.
    #[tactic(auto, using(crate::proofs::Passed::take_old, crate::proofs::Passed::take_again, crate::proofs::Passed::take_new, crate::proofs::Last::take_at_once))]
    pub fn take(&mut self, number: u64, beat: Beat, fronts: &[u64]) -> Result<BeatTake, Beat>
        ensures answer { IfOk result (λ took. took ≡ take_answer fronts.now self.old number) }
        ensures new { OnOk result (self.new ≡ after_take fronts.now self.old number beat) }
        ensures back { IfErr result (λ back. back ≡ beat) }
        ensures err { OnErr result (self.new ≡ self.old) }
    {
        if self.is_at_once(number, &beat, fronts) {
            self.best = Some((number, beat));
            return Ok(BeatTake::New);
        }
        let newest = self.newest(fronts);
        if self.is_old(newest, number) {
            self.forward(newest);
            return Ok(BeatTake::Old);
        }
        let Some(on) = self.rises_on(number, &beat) else {
            self.forward(newest);
            return Ok(BeatTake::Again);
        };
        let newest = newest_with(newest, number, &beat, fronts);
        let rising = goes_on(self.rising, on, &self.later, number, &beat);
        insert(&mut self.later, number, beat)?;
        self.rising = rising;
        self.forward(newest);
        Ok(BeatTake::New)
    }
}
