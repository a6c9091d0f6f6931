//! The remote proxy of a site (Bravo, Rodrigues and Van Roy, EuroSys 2017): it takes what the other sites send, in any
//! order, and tells what the site may show next.
ghost use Rattle.std.specs.Prelude.{ℕ, ◌≡◌, ◌≢◌, ◌<◌, ◌≤◌, ◌^◌, ◌+◌, ◌*◌, ◌&&◌, ◌||◌, false, true, None, Option, Some};
ghost use Rattle.std.specs.Prelude.{is_none, is_some, length, option_copied, option_map, replicate, MatchResult, IfErr};
ghost use Rattle.std.specs.Prelude.{take, IfOk, OnErr, OnOk};
ghost use Rattle.sat_label.specs.declared.label.Kind.TheVariants.{Close as CloseKind};
ghost use Rattle.sat_label.specs.declared.label.Label.{Label as LabelSeen};
ghost use Rattle.sat_label.specs.Members.{In};
ghost use Rattle.sat_bulk.specs.Payloads.{Payload as PayloadSeen};
ghost use Rattle.sat_bulk.specs.Windows.{after_take, has_number};
ghost use Rattle.sat_beat.specs.Beats.{IsBeats};
ghost use Rattle.sat_pool.specs.Pool.{after_add, all_waiting, labels_waiting, waiting_at, IsPool};
ghost use Rattle.sat_epoch.specs.Epochs.{advance_fault, after_advance, close_cut, in_stamp};
ghost use Rattle.sat_act.specs.Parts.{best_passes, passed_label, passed_ts};
ghost use Rattle.sat_act.specs.Answers.{is_drained};
ghost use Rattle.sat_proxy.specs.Proxy.{fresh_proxy, front_at, lane_place, last_of, no_numbers, outlook_here};
ghost use Rattle.sat_proxy.specs.Proxy.{window_of, AreViewsOf, IsProxy};
ghost use Rattle.sat_proxy.specs.Asks.{may_come_at, others};
ghost use Rattle.sat_proxy.specs.Helps.{comes_here, is_known_here, is_reached_here, lane_after, lane_afters};
ghost use Rattle.sat_proxy.specs.Helps.{lane_fronts, told_by, ComeInLane, StaysHere};
ghost use Rattle.sat_proxy.specs.Steps.{advance_after, after_beat, after_bulk, after_bulks, beat_take, brought};
ghost use Rattle.sat_proxy.specs.Steps.{bulk_take, front_after, front_fault, front_gives, front_shows, front_views};
ghost use Rattle.sat_proxy.specs.Steps.{has_come, knowing, missing, shown_after, stamp_after, stamp_fault, stamp_label};
ghost use Rattle.sat_proxy.specs.Steps.{stamp_shows, turn_after, turn_fault, turn_gives, turn_shows, turn_views};
ghost use Rattle.sat_proxy.specs.Steps.{waiting_of, ComeNext};

use crate::asks::{are_drained, are_known, are_passed, are_reached, candidate, own_passed};
use crate::known::{fresh_last, know, raise_all};
use crate::tells::is_up_to;
use sat_beat::{Beat, BeatTake, Beats};
use sat_bulk::{Payload, Take, Window};
use sat_epoch::{AdvanceFault, Views};
use sat_label::{Carried, Kind, Label, Point};
use sat_pool::Pool;
use std::alloc::{AllocError, Global};
use std::marker::Model;

/// What a turn did with the front of its link.
#[derive(Drop)]
pub enum Turned {
    /// The update of the label, whose payload waited, is to be shown.
    Show(Payload),
    /// The label, which is of no update, was taken.
    Took(Label),
}

/// Why a turn did nothing.
#[derive(Clone, Copy, Debug, PartialEq, Eq, Drop)]
pub enum TurnFault {
    /// The site goes by timestamp order.
    StampOrder,
    /// Nothing stands on the link.
    Empty,
    /// The payload of the label does not wait.
    NoPayload(Label),
}

/// Why nothing is shown by timestamp order.
#[derive(Clone, Copy, Debug, PartialEq, Eq, Drop)]
pub enum StampFault {
    /// The site goes by its tree.
    TreeOrder,
    /// No update is sure to be the next.
    NotYet,
}

/// What a site has of the others: the numbers of each lane that came, the updates that wait, the best beat of each
/// site, and the point up to which each site is known.
#[derive(Drop)]
pub struct Proxy {
    sites: u16,
    gears: u16,
    site: u16,
    windows: Vec<Window>,
    fronts: Vec<u64>,
    pool: Pool,
    beats: Beats,
    last: Vec<Point>,
}

impl Model for Proxy {
    ghost use Rattle.std.specs.Prelude.{◌≡◌, map};
    ghost use Rattle.sat_proxy.specs.Proxy.{IsProxy, ProxySeen, front_in};

    ghost Value = { ProxySeen };

    ghost view = { λ a. record {
      sites = a.sites;
      gears = a.gears;
      site = a.site;
      windows = a.windows.items;
      pool = a.pool;
      beats = a.beats;
      last = a.last.items;
    } };

    ghost invariant = { λ a. (a.fronts.items ≡ map front_in a.windows.items)
        × IsProxy
        (record {
          sites = a.sites;
          gears = a.gears;
          site = a.site;
          windows = a.windows.items;
          pool = a.pool;
          beats = a.beats;
          last = a.last.items;
        }) };
}

// So many lanes of which no payload was taken.
fn fresh_windows(alloc: Global, lanes: usize) -> Result<Vec<Window>, AllocError>
    ensures { IfOk result (λ windows. windows.items ≡ replicate lanes no_numbers) }
{
    let mut windows = Vec::with_capacity(alloc, lanes)?;
    for _ in 0..lanes {
        windows.push(Window::new(alloc))?;
    }
    Ok(windows)
}

// The fronts of so many lanes of which no payload was taken.
fn fresh_fronts(alloc: Global, lanes: usize) -> Result<Vec<u64>, AllocError>
    ensures { IfOk result (λ fronts. fronts.items ≡ replicate lanes 0) }
{
    let fronts = vec![in alloc; 0; lanes]?;
    Ok(fronts)
}

// The fronts of a site's lanes.
fn fronts_from(fronts: &[u64], sites: u16, from: u16, gears: u16) -> &[u64]
    requires from { from < sites }
    requires lanes { length fronts.now ≡ sites * gears }
    ensures { result.now ≡ lane_fronts fronts.now from gears }
{
    let start = from as usize * gears as usize;
    let rest = &fronts[start..];
    &rest[..gears as usize]
}

// A number of a lane is taken, and its update waits. For want of memory the payload comes back, and both are as before.
fn take_both(
    pool: &mut Pool,
    window: &mut Window,
    number: u64,
    payload: Payload,
) -> Result<(), Payload>
    requires site { payload.label.point.site < length pool.old.rows }
    requires small { number < 2 ^ 63 }
    requires new { has_number window.old number ≡ false }
    requires alone { waiting_at pool.old payload.label.point ≡ None }
    ensures waits { OnOk result (pool.new ≡ after_add pool.old payload) }
    ensures number { OnOk result (window.new ≡ after_take window.old number) }
    ensures back { IfErr result (λ back. back ≡ payload) }
    ensures pool { OnErr result (pool.new ≡ pool.old) }
    ensures window { OnErr result (window.new ≡ window.old) }
{
    let point = payload.label().point;
    pool.add(payload)?;
    if window.take_new(number).is_ok() {
        return Ok(());
    }
    match pool.take(&point) {
        None => Ok(()),
        Some(payload) => Err(payload),
    }
}

// Takes a payload where its number is the next of its lane, and answers whether it was taken: for want of memory it is
// not. What waits is added first, since the front goes on without memory.
#[tactic(auto, using(crate::proofs::Bulks::next_comes))]
fn bring_next(pool: &mut Pool, window: &mut Window, number: u64, payload: Payload) -> bool
    requires site { payload.label.point.site < length pool.old.rows }
    requires small { number < 2 ^ 63 }
    ensures taken { result ≡ true → record { waits = pool.new; numbers = window.new }
        ≡ lane_after (record { waits = pool.old; numbers = window.old }) number payload }
    ensures next { result ≡ true → number ≡ window.old.front }
    ensures pool { result ≡ false → pool.new ≡ pool.old }
    ensures window { result ≡ false → window.new ≡ window.old }
{
    if number != window.front() {
        return false;
    }
    if let Err(_) = pool.add(payload) {
        return false;
    }
    window.advance();
    true
}

// Takes payloads of a lane, with the numbers from `first` on, as long as each is the next and there is memory, and
// answers how many came.
fn bring_all(pool: &mut Pool, window: &mut Window, first: u64, payloads: Vec<Payload>) -> usize
    requires site { (p : PayloadSeen) → In payloads.items p → p.label.point.site < length pool.old.rows }
    requires small { first + length payloads.items < 2 ^ 63 }
    ensures count { result ≤ length payloads.items }
    ensures lane { record { waits = pool.new; numbers = window.new }
        ≡ lane_afters (record { waits = pool.old; numbers = window.old }) first (take result payloads.items) }
    ensures next { ComeInLane (record { waits = pool.old; numbers = window.old }) first payloads.items result }
{
    let mut done: usize = 0;
    for payload in payloads {
        if !bring_next(pool, window, first + done as u64, payload) {
            return done;
        }
        done += 1;
    }
    done
}

// What waits is in its rows, and the beats that came are in theirs.
fn limits(pool: &Pool, beats: &Beats, from: u16)
    requires { from < length beats.now.rows }
    ensures pool { IsPool pool.now }
    ensures beats { IsBeats beats.now }
{
    let _ = pool.len();
    let _ = beats.best(from);
}

// The waiting payload of a label.
fn waiting_of<'a>(pool: &'a Pool, label: &Label) -> Option<&'a Payload>
    ensures { option_copied result ≡ waiting_of pool.now label.now }
{
    let payload = pool.get(&label.point)?;
    if payload.label().is_same(label) {
        Some(payload)
    } else {
        None
    }
}

// Whether the payload of a label waits.
fn waits(pool: &Pool, label: &Label) -> bool
    ensures { result ≡ is_some (waiting_of pool.now label.now) }
{
    waiting_of(pool, label).is_some()
}

// Whether a label is of no update, or its payload waits.
fn has_payload(pool: &Pool, label: &Label) -> bool
    ensures { result ≡ is_none (front_fault pool.now label.now label.now.kind) }
{
    match label.kind {
        Kind::Update(_) => waits(pool, label),
        _ => true,
    }
}

// The payload of an update's label.
fn shown_by<'a>(pool: &'a Pool, label: &Label) -> Option<&'a Payload>
    ensures { option_copied result ≡ front_shows pool.now label.now label.now.kind }
{
    match label.kind {
        Kind::Update(_) => waiting_of(pool, label),
        _ => None,
    }
}

// The site's close cut of its view, if it closed that.
fn close_cut(views: &Views) -> Option<Point>
    ensures { result ≡ close_cut views.now views.now.view }
{
    let closes = views.closes();
    let close = closes.get(views.view() as usize - 1)?;
    Some(*close)
}

impl Proxy {
    /// One of so many sites, with so many gears each, which has nothing of the others.
    pub fn new(alloc: Global, sites: u16, gears: u16, site: u16) -> Result<Proxy, AllocError>
        requires { site < sites }
        ensures { IfOk result (λ proxy. proxy ≡ fresh_proxy sites gears site) }
    {
        let lanes = sites as usize * gears as usize;
        let windows = fresh_windows(alloc, lanes)?;
        let fronts = fresh_fronts(alloc, lanes)?;
        let pool = Pool::new(alloc, sites)?;
        let beats = Beats::new(alloc, sites, gears)?;
        let last = fresh_last(alloc, sites)?;
        limits(&pool, &beats, site);
        Ok(Proxy {
            sites,
            gears,
            site,
            windows,
            fronts,
            pool,
            beats,
            last,
        })
    }

    // The place of a lane among all.
    fn lane(&self, from: u16, gear: u16) -> usize
        requires from { from < self.now.sites }
        requires gear { gear < self.now.gears }
        ensures place { result ≡ lane_place self.now from gear }
        ensures within { result < length self.now.windows }
    {
        from as usize * self.gears as usize + gear as usize
    }

    // The numbers of a lane.
    fn window(&self, from: u16, gear: u16) -> &Window
        requires from { from < self.now.sites }
        requires gear { gear < self.now.gears }
        ensures window { result.now ≡ window_of self.now from gear }
        ensures limits { IsProxy self.now }
    {
        let place = self.lane(from, gear);
        &self.windows[place]
    }

    /// The point up to which a site is known. It takes no memory.
    pub fn last(&self, from: u16) -> Point
        requires { from < self.now.sites }
        ensures last { result ≡ last_of self.now from }
        ensures limits { IsProxy self.now }
    {
        self.last[from as usize]
    }

    /// How many updates wait. It takes no memory.
    pub fn waiting(&self) -> u64
        ensures waiting { result ≡ length (all_waiting self.now.pool) }
        ensures limits { IsProxy self.now }
    {
        self.pool.len() as u64
    }

    /// The front of a lane: the least number that was not taken. It takes no memory.
    pub fn front(&self, from: u16, gear: u16) -> u64
        requires from { from < self.now.sites }
        requires gear { gear < self.now.gears }
        ensures front { result ≡ front_at self.now from gear }
        ensures limits { IsProxy self.now }
    {
        self.window(from, gear).front()
    }

    /// Whether a number of a lane was taken. It takes no memory.
    pub fn has(&self, from: u16, gear: u16, number: u64) -> bool
        requires from { from < self.now.sites }
        requires gear { gear < self.now.gears }
        ensures has { result ≡ has_number (window_of self.now from gear) number }
        ensures limits { IsProxy self.now }
    {
        self.window(from, gear).has(number)
    }

    /// The waiting payload at a point. It takes no memory.
    pub fn payload(&self, point: &Point) -> Option<&Payload>
        requires { point.now.site < self.now.sites }
        ensures payload { option_copied result ≡ waiting_at self.now.pool point.now }
        ensures limits { IsProxy self.now }
    {
        self.pool.get(point)
    }

    /// Takes a payload of a lane, in any order; again it changes nothing. For want of memory the payload comes back,
    /// and all is as before.
    pub fn bulk(
        &mut self,
        from: u16,
        gear: u16,
        number: u64,
        payload: Payload,
    ) -> Result<Take, Payload>
        requires from { from < self.old.sites }
        requires gear { gear < self.old.gears }
        requires small { number < 2 ^ 63 }
        requires made { payload.label.point.site ≡ from }
        requires alone { has_number (window_of self.old from gear) number ≡ false
            → waiting_at self.old.pool payload.label.point ≡ None }
        ensures answer { IfOk result (λ took. took ≡ bulk_take self.old from gear number) }
        ensures new { OnOk result (self.new ≡ after_bulk self.old from gear number payload) }
        ensures back { IfErr result (λ back. back ≡ payload) }
        ensures err { OnErr result (self.new ≡ self.old) }
    {
        if self.has(from, gear, number) {
            return Ok(Take::Again);
        }
        self.bring(from, gear, number, payload)?;
        Ok(Take::New)
    }

    // Takes a payload whose number is new.
    fn bring(&mut self, from: u16, gear: u16, number: u64, payload: Payload) -> Result<(), Payload>
        requires from { from < self.old.sites }
        requires gear { gear < self.old.gears }
        requires small { number < 2 ^ 63 }
        requires made { payload.label.point.site ≡ from }
        requires new { has_number (window_of self.old from gear) number ≡ false }
        requires alone { waiting_at self.old.pool payload.label.point ≡ None }
        ensures new { OnOk result (self.new ≡ brought self.old from gear number payload) }
        ensures back { IfErr result (λ back. back ≡ payload) }
        ensures err { OnErr result (self.new ≡ self.old) }
    {
        let place = self.lane(from, gear);
        let window = &mut self.windows[place];
        take_both(&mut self.pool, window, number, payload)?;
        self.fronts[place] = self.windows[place].front();
        let fronts = fronts_from(self.fronts.as_slice(), self.sites, from, self.gears);
        self.beats.refresh(from, fronts);
        limits(&self.pool, &self.beats, from);
        Ok(())
    }

    /// Takes payloads of a lane, with the numbers from `first` on, each as the next of its lane, and answers how many
    /// came: all, or those before the first that is not the next or for which there was no memory; the others are let
    /// go.
    pub fn bulk_all(&mut self, from: u16, gear: u16, first: u64, payloads: Vec<Payload>) -> usize
        requires from { from < self.old.sites }
        requires gear { gear < self.old.gears }
        requires small { first + length payloads.items < 2 ^ 63 }
        requires made { (p : PayloadSeen) → In payloads.items p → p.label.point.site ≡ from }
        ensures count { result ≤ length payloads.items }
        ensures new { self.new ≡ after_bulks self.old from gear first (take result payloads.items) }
        ensures next { ComeNext self.old from gear first payloads.items result }
    {
        let place = self.lane(from, gear);
        let window = &mut self.windows[place];
        let count = bring_all(&mut self.pool, window, first, payloads);
        self.fronts[place] = self.windows[place].front();
        let fronts = fronts_from(self.fronts.as_slice(), self.sites, from, self.gears);
        self.beats.refresh(from, fronts);
        limits(&self.pool, &self.beats, from);
        count
    }

    /// Takes a beat of a site, which has one count for each gear, in any order; again, or old, it changes nothing. For
    /// want of memory the beat comes back, and all is as before.
    pub fn beat_in(&mut self, from: u16, number: u64, beat: Beat) -> Result<BeatTake, Beat>
        requires from { from < self.old.sites }
        requires counts { length beat.counts ≡ self.old.gears }
        ensures answer { IfOk result (λ took. took ≡ beat_take self.old from number) }
        ensures new { OnOk result (self.new ≡ after_beat self.old from number beat) }
        ensures back { IfErr result (λ back. back ≡ beat) }
        ensures err { OnErr result (self.new ≡ self.old) }
    {
        let fronts = fronts_from(self.fronts.as_slice(), self.sites, from, self.gears);
        let took = self.beats.take(from, number, beat, fronts)?;
        limits(&self.pool, &self.beats, from);
        Ok(took)
    }

    /// Takes the front of the link from the site's serializer, by its tree: an update is to be shown, where its payload
    /// waits, any other label is taken, and a close is heard. It takes no memory; where it answers a fault nothing
    /// changes.
    #[tactic(auto, using(crate::proofs::Turns::front_stays, crate::proofs::Turns::still_here))]
    pub fn turn(&mut self, views: &mut Views, front: Option<Label>) -> Result<Turned, TurnFault>
        requires views { AreViewsOf self.old views.old }
        requires from { (l : LabelSeen) → front ≡ Some l → l.point.site < self.old.sites }
        requires other { (l : LabelSeen) → front ≡ Some l → l.point.site ≢ self.old.site }
        requires close { (l : LabelSeen) (e : ℕ) → front ≡ Some l → l.kind ≡ CloseKind e → e ≡ views.old.view }
        ensures fault { MatchResult result (λ _. turn_fault views.old self.old front ≡ None)
            (λ fault. turn_fault views.old self.old front ≡ Some fault) }
        ensures gives { IfOk result (λ turned. turn_gives views.old self.old front ≡ Some turned) }
        ensures new { OnOk result (self.new ≡ turn_after views.old self.old front) }
        ensures heard { OnOk result (views.new ≡ turn_views views.old front) }
        ensures err { OnErr result (self.new ≡ self.old) }
        ensures unheard { OnErr result (views.new ≡ views.old) }
        ensures here { StaysHere self.old self.new views.new }
    {
        if views.in_stamp_mode() {
            return Err(TurnFault::StampOrder);
        }
        let Some(label) = front else {
            return Err(TurnFault::Empty);
        };
        self.take_front(views, label)
    }

    // Takes the front of the link.
    fn take_front(&mut self, views: &mut Views, label: Label) -> Result<Turned, TurnFault>
        requires views { AreViewsOf self.old views.old }
        requires from { label.point.site < self.old.sites }
        requires other { label.point.site ≢ self.old.site }
        requires close { (e : ℕ) → label.kind ≡ CloseKind e → e ≡ views.old.view }
        ensures fault { MatchResult result (λ _. front_fault self.old.pool label label.kind ≡ None)
            (λ fault. front_fault self.old.pool label label.kind ≡ Some fault) }
        ensures gives { IfOk result (λ turned. front_gives self.old.pool label label.kind ≡ Some turned) }
        ensures new { OnOk result (self.new ≡ front_after self.old label label.kind) }
        ensures heard { OnOk result (views.new ≡ front_views views.old label label.kind) }
        ensures err { OnErr result (self.new ≡ self.old) }
        ensures unheard { OnErr result (views.new ≡ views.old) }
    {
        match label.kind {
            Kind::Update(_) => self.show(label),
            Kind::Close(epoch) => {
                views.hear_close(label.point.site, epoch);
                Ok(self.took(label))
            }
            Kind::Move(_) => Ok(self.took(label)),
            Kind::Pulse => Ok(self.took(label)),
        }
    }

    // Takes a label that is of no update: its site is known up to it.
    fn took(&mut self, label: Label) -> Turned
        requires { label.point.site < self.old.sites }
        ensures turned { result ≡ Turned.Took label }
        ensures new { self.new ≡ knowing self.old label }
    {
        know(&mut self.last, &label);
        Turned::Took(label)
    }

    // Shows the update of a label, if its payload waits.
    fn show(&mut self, label: Label) -> Result<Turned, TurnFault>
        requires { label.point.site < self.old.sites }
        ensures fault { MatchResult result (λ _. missing label (waiting_of self.old.pool label) ≡ None)
            (λ fault. missing label (waiting_of self.old.pool label) ≡ Some fault) }
        ensures gives { IfOk result (λ turned. option_map Turned.Show (waiting_of self.old.pool label) ≡ Some turned) }
        ensures new { OnOk result (self.new ≡ shown_after self.old label (waiting_of self.old.pool label)) }
        ensures err { OnErr result (self.new ≡ self.old) }
    {
        let Some(payload) = self.show_front(&label) else {
            return Err(TurnFault::NoPayload(label));
        };
        Ok(Turned::Show(payload))
    }

    /// Gives the update of a label, if its payload waits, as `turn` does by tree. It takes no memory; where none waits
    /// nothing changes.
    #[inline(always)]
    #[tactic(auto, using(crate::proofs::Turns::taken_if, crate::proofs::Turns::stays_if))]
    pub fn show_front(&mut self, label: &Label) -> Option<Payload>
        requires site { label.now.point.site < self.old.sites }
        ensures found { result ≡ waiting_of self.old.pool label.now }
        ensures new { self.new ≡ shown_after self.old label.now (waiting_of self.old.pool label.now) }
    {
        let payload = self.pool.take_if(label)?;
        limits(&self.pool, &self.beats, self.site);
        know(&mut self.last, label);
        Some(payload)
    }

    /// Whether a turn would do something, with this front. It takes no memory.
    pub fn can_turn(&self, views: &Views, front: Option<&Label>) -> bool
        requires from { (l : LabelSeen) → option_copied front ≡ Some l → l.point.site < self.now.sites }
        ensures { result ≡ is_none (turn_fault views.now self.now (option_copied front.entry)) }
    {
        if views.in_stamp_mode() {
            return false;
        }
        match front {
            None => false,
            Some(label) => has_payload(&self.pool, label),
        }
    }

    /// The payload that a turn would show, with this front. It takes no memory.
    pub fn turn_shows(&self, views: &Views, front: Option<&Label>) -> Option<&Payload>
        requires from { (l : LabelSeen) → option_copied front ≡ Some l → l.point.site < self.now.sites }
        ensures { option_copied result ≡ turn_shows views.now self.now (option_copied front.entry) }
    {
        if views.in_stamp_mode() {
            return None;
        }
        let label = front?;
        shown_by(&self.pool, label)
    }

    // The label of the update that is next in timestamp order.
    #[tactic(auto, using(crate::proofs::Candidates::candidate_low, crate::proofs::Stamps::stamp_none, crate::proofs::Stamps::stamp_passed, crate::proofs::Stamps::stamp_stays))]
    fn next_stamp(&self, views: &Views) -> Option<Label>
        ensures label { result ≡ stamp_label views.now self.now }
        ensures limits { IsProxy self.now }
    {
        let view = views.view();
        let label = candidate(&self.beats, &self.pool, self.sites, view)?;
        if self.is_passed(view, &label) {
            Some(label)
        } else {
            None
        }
    }

    // Whether nothing below a label can come any more.
    fn is_passed(&self, view: u16, label: &Label) -> bool
        requires { label.now.point.site < self.now.sites }
        ensures { result
            ≡ (others self.now.sites self.now.site
            (λ i. best_passes (told_by self.now.beats i) (passed_ts view label.now.point.ts i))
            && best_passes (told_by self.now.beats label.now.point.site) (passed_label view label.now)) }
    {
        are_passed(&self.beats, self.sites, self.site, view, label.point.ts)
            && own_passed(&self.beats, view, label)
    }

    /// Gives the update that is next in timestamp order, once nothing below it can come any more. It takes no memory;
    /// where it answers a fault nothing changes.
    pub fn stamp(&mut self, views: &Views) -> Result<Payload, StampFault>
        requires { AreViewsOf self.old views.now }
        ensures fault { MatchResult result (λ _. stamp_fault views.now self.old ≡ None)
            (λ fault. stamp_fault views.now self.old ≡ Some fault) }
        ensures shown { IfOk result (λ payload. stamp_shows views.now self.old ≡ Some payload) }
        ensures new { OnOk result (self.new ≡ stamp_after views.now self.old) }
        ensures err { OnErr result (self.new ≡ self.old) }
    {
        if !views.in_stamp_mode() {
            return Err(StampFault::TreeOrder);
        }
        self.look();
        self.give_next(views)
    }

    // Has the first label of each site at hand.
    fn look(&mut self)
        ensures { self.new ≡ self.old }
    {
        self.pool.look();
    }

    // Gives the update that is next, of a site that goes by timestamp order.
    fn give_next(&mut self, views: &Views) -> Result<Payload, StampFault>
        requires views { AreViewsOf self.old views.now }
        requires stamp { in_stamp views.now ≡ true }
        ensures fault { MatchResult result (λ _. stamp_fault views.now self.old ≡ None)
            (λ fault. stamp_fault views.now self.old ≡ Some fault) }
        ensures shown { IfOk result (λ payload. stamp_shows views.now self.old ≡ Some payload) }
        ensures new { OnOk result (self.new ≡ stamp_after views.now self.old) }
        ensures err { OnErr result (self.new ≡ self.old) }
    {
        let Some(label) = self.next_stamp(views) else {
            return Err(StampFault::NotYet);
        };
        let Some(payload) = self.pool.take(&label.point) else {
            return Err(StampFault::NotYet);
        };
        limits(&self.pool, &self.beats, self.site);
        Ok(payload)
    }

    /// Whether `stamp` would give an update. It takes no memory.
    pub fn can_stamp(&self, views: &Views) -> bool
        requires { AreViewsOf self.now views.now }
        ensures { result ≡ is_none (stamp_fault views.now self.now) }
    {
        views.in_stamp_mode() && self.next_stamp(views).is_some()
    }

    /// The payload that `stamp` would give. It takes no memory.
    pub fn stamp_shows(&self, views: &Views) -> Option<&Payload>
        requires { AreViewsOf self.now views.now }
        ensures { option_copied result ≡ stamp_shows views.now self.now }
    {
        if !views.in_stamp_mode() {
            return None;
        }
        let label = self.next_stamp(views)?;
        self.pool.get(&label.point)
    }

    // Whether a client that is moving here finds its point known.
    fn comes_moving(&self, carried: &Carried) -> bool
        requires { carried.now.point.site < self.now.sites }
        ensures { result ≡ comes_here self.now carried.now }
    {
        match carried.moving {
            None => false,
            Some(to) => {
                to == self.site && is_up_to(&carried.point, &self.last[carried.point.site as usize])
            }
        }
    }

    // Whether all up to a timestamp was shown here, by the tree or by the best beats.
    fn is_settled(&self, views: &Views, ts: u64) -> bool
        ensures { result ≡ (is_known_here self.now ts || is_reached_here views.now self.now ts) }
    {
        are_known(self.last.as_slice(), self.sites, self.site, ts) || self.is_reached(views, ts)
    }

    // Whether, in stamp mode, each best beat reaches a timestamp, and nothing waits up to it.
    fn is_reached(&self, views: &Views, ts: u64) -> bool
        ensures { result ≡ is_reached_here views.now self.now ts }
    {
        views.in_stamp_mode()
            && are_reached(&self.beats, self.sites, self.site, views.view(), ts)
            && !self.pool.has_ts_to(ts)
    }

    /// Whether a client that carries this may attach, in one of the four cases. It takes no memory.
    pub fn may_attach(&self, views: &Views, carried: &Carried) -> bool
        requires views { AreViewsOf self.now views.now }
        requires site { carried.now.point.site < self.now.sites }
        ensures { result ≡ may_come_at self.now.sites (outlook_here views.now self.now) carried.now self.now.site }
    {
        is_up_to(&carried.point, &Point::zero())
            || self.comes_moving(carried)
            || self.is_settled(views, carried.point.ts)
    }

    // Whether, by the best beats, all of the view that the others made was shown.
    fn is_drained(&self, views: &Views) -> bool
        ensures { result ≡ others self.now.sites self.now.site
            (λ i. best_passes (told_by self.now.beats i) (is_drained views.now.view (labels_waiting self.now.pool) i)) }
    {
        are_drained(&self.beats, &self.pool, self.sites, self.site, views.view())
    }

    // Whether the site has all of its view.
    #[tactic(auto, using(crate::proofs::Stamps::heard_come))]
    fn has_come(&self, views: &Views) -> bool
        requires { AreViewsOf self.now views.now }
        ensures { result ≡ has_come views.now self.now }
    {
        if views.in_stamp_mode() {
            self.is_drained(views)
        } else {
            views.all_heard()
        }
    }

    // Goes on to the next view in stamp mode.
    fn advance_by_stamps(&mut self, views: &mut Views) -> Result<u16, AdvanceFault>
        requires views { AreViewsOf self.old views.old }
        requires stamp { in_stamp views.old ≡ true }
        ensures fault { MatchResult result (λ _. advance_fault views.old (has_come views.old self.old) ≡ None)
            (λ fault. advance_fault views.old (has_come views.old self.old) ≡ Some fault) }
        ensures view { IfOk result (λ view. view ≡ views.old.view + 1) }
        ensures new { OnOk result (self.new ≡ advance_after views.old self.old) }
        ensures passed { OnOk result (views.new ≡ after_advance views.old) }
        ensures err { OnErr result (self.new ≡ self.old) }
        ensures stayed { OnErr result (views.new ≡ views.old) }
    {
        let came = self.has_come(views);
        let epoch = views.view();
        let close = close_cut(views);
        let view = views.advance_by_stamps(came)?;
        raise_all(
            &mut self.last,
            &self.beats,
            self.sites,
            self.site,
            close,
            epoch,
        );
        Ok(view)
    }

    /// Goes on to the next view, once the site has all of its own, and answers it; in stamp mode each site is then
    /// known up to its close cut. It takes no memory; where it answers a fault nothing changes.
    pub fn advance(&mut self, views: &mut Views) -> Result<u16, AdvanceFault>
        requires { AreViewsOf self.old views.old }
        ensures fault { MatchResult result (λ _. advance_fault views.old (has_come views.old self.old) ≡ None)
            (λ fault. advance_fault views.old (has_come views.old self.old) ≡ Some fault) }
        ensures view { IfOk result (λ view. view ≡ views.old.view + 1) }
        ensures new { OnOk result (self.new ≡ advance_after views.old self.old) }
        ensures passed { OnOk result (views.new ≡ after_advance views.old) }
        ensures err { OnErr result (self.new ≡ self.old) }
        ensures stayed { OnErr result (views.new ≡ views.old) }
    {
        if views.in_stamp_mode() {
            self.advance_by_stamps(views)
        } else {
            views.advance_by_tree()
        }
    }

    /// Whether `advance` would go on. It takes no memory.
    pub fn can_advance(&self, views: &Views) -> bool
        requires { AreViewsOf self.now views.now }
        ensures { result ≡ is_none (advance_fault views.now (has_come views.now self.now)) }
    {
        views.emission() != views.view() && self.has_come(views)
    }
}
