//! What waits of all sites.
ghost use Rattle.std.specs.Prelude.{◌≡◌, ◌<◌, [], length, map, replicate, option_copied, IfOk, IfErr, OnOk, OnErr};
ghost use Rattle.sat_label.specs.Least.{least_label};
ghost use Rattle.sat_pool.specs.Pool as waits;
ghost use Rattle.sat_pool.specs.Rows.{first_label, OfOneSite};

use crate::row::{Row, lesser};
use sat_bulk::Payload;
use sat_label::{Label, Point};
use std::alloc::{AllocError, Global};
use std::marker::Model;

/// The updates that wait at a site for their turn, by the site that made them and their points. No call walks what
/// waits: the least of a site is its first, and a count is kept. Only where the payloads of a gear are not taken in the
/// order of their points, as those of a gear's labels are, does one that is taken move others of its gear. Where the
/// first of a site was taken, the next one is looked for among its gears once it is asked for, and
/// [`look`](Pool::look) has it at hand for all that ask.
#[derive(Drop)]
pub struct Pool {
    rows: Vec<Row>,
    count: usize,
}

impl Model for Pool {
    ghost use Rattle.sat_pool.specs.Pool.{Waiting};
    ghost use Rattle.sat_pool.specs.Rows.{IsKeptPool};

    ghost Value = { Waiting };

    ghost view = { λ a. record { rows = a.rows.items } };

    ghost invariant = { λ a. IsKeptPool (record { rows = a.rows.items }) a.count };
}

// Of so many sites nothing waits.
fn fresh_rows(alloc: Global, sites: u16) -> Result<Vec<Row>, AllocError>
    ensures { IfOk result (λ rows. rows.items ≡ replicate sites []) }
{
    let mut rows = Vec::with_capacity(alloc, sites as usize)?;
    'rows: for _ in 0..sites {
        rows.push(Row::new(alloc))?;
    }
    Ok(rows)
}

// Whether a label is not past the close cut of its site, if one is given.
fn is_before(closes: &[Option<Point>], label: &Label) -> bool
    ensures { result ≡ waits.is_before closes.now label.now }
{
    match closes.get(label.point.site as usize) {
        Some(Some(close)) => label.point.is_below(close) || label.point.is_same(close),
        _ => true,
    }
}

// The least label of a site that is not past its close cut: the first, if any.
#[tactic(auto, using(crate::proofs::Firsts::least_none, crate::proofs::Firsts::least_first, crate::proofs::Firsts::least_past))]
fn least_of(row: &Row, closes: &[Option<Point>]) -> Option<Label>
    requires { OfOneSite row.now }
    ensures { result ≡ least_label (waits.is_before closes.now) (map waits.labelled row.now) }
{
    let first = row.first()?;
    if is_before(closes, &first) {
        Some(first)
    } else {
        None
    }
}

// The least label of all sites that is not past the close cut of its site.
#[tactic(auto, using(crate::proofs::Pools::least_more, crate::proofs::Pools::row_one_site))]
fn least_of_all(rows: &[Row], closes: &[Option<Point>]) -> Option<Label>
    requires { waits.IsPool (record { rows = rows.now }) }
    ensures { result ≡ waits.least_before closes.now (record { rows = rows.now }) }
{
    let mut least = None;
    for row in rows {
        least = lesser(least, least_of(row, closes));
    }
    least
}

// Looks for the first label of each site that is not known.
fn look_at_all(rows: &mut Vec<Row>)
    ensures { rows.new.items ≡ rows.old.items }
{
    'sites: for site in 0..rows.len() {
        rows[site].look();
    }
}

// Whether a label with a timestamp up to this one waits.
#[tactic(auto, using(crate::proofs::Pools::early_more, crate::proofs::Pools::early_here))]
fn any_has_ts_to(rows: &[Row], ts: u64) -> bool
    ensures { result ≡ waits.has_ts_to ts (record { rows = rows.now }) }
{
    for row in rows {
        if row.has_ts_to(ts) {
            return true;
        }
    }
    false
}

impl Pool {
    /// Of so many sites nothing waits.
    pub fn new(alloc: Global, sites: u16) -> Result<Pool, AllocError>
        ensures { IfOk result (λ pool. pool ≡ waits.none_waiting sites) }
    {
        let rows = fresh_rows(alloc, sites)?;
        Ok(Pool { rows, count: 0 })
    }

    /// One payload more waits, in the place of one with its point, if any. For want of memory, or where `usize::MAX`
    /// wait, it comes back, and all is as before.
    pub fn add(&mut self, payload: Payload) -> Result<(), Payload>
        requires site { payload.label.point.site < length self.old.rows }
        ensures ok { OnOk result (self.new ≡ waits.after_add self.old payload) }
        ensures back { IfErr result (λ back. back ≡ payload) }
        ensures err { OnErr result (self.new ≡ self.old) }
    {
        if self.count == usize::MAX {
            return Err(payload);
        }
        let row = &mut self.rows[payload.label().point.site as usize];
        let before = row.insert(payload)?;
        if before.is_none() {
            self.count += 1;
        }
        Ok(())
    }

    /// The payload that waits at a point. It takes no memory.
    #[tactic(auto, using(crate::proofs::Pools::row_some, crate::proofs::Pools::row_none))]
    pub fn get(&self, point: &Point) -> Option<&Payload>
        ensures found { option_copied result ≡ waits.waiting_at self.now point.now }
        ensures limits { waits.IsPool self.now }
    {
        let row = self.rows.get(point.site as usize)?;
        row.get(point)
    }

    /// The least waiting label of a site, which is that of its first. It takes no memory.
    #[tactic(auto, using(crate::proofs::Pools::row_some, crate::proofs::Pools::row_none))]
    pub fn first(&self, site: u16) -> Option<Label>
        ensures first { result ≡ first_label (waits.row_of self.now site) }
        ensures limits { waits.IsPool self.now }
    {
        let row = self.rows.get(site as usize)?;
        row.first()
    }

    /// Takes the payload that waits at a point. It takes no memory.
    #[tactic(auto, using(crate::proofs::Pools::one_waits))]
    pub fn take(&mut self, point: &Point) -> Option<Payload>
        ensures found { result ≡ waits.waiting_at self.old point.now }
        ensures new { self.new ≡ waits.after_take self.old point.now }
    {
        if point.site as usize >= self.rows.len() {
            return None;
        }
        let row = &mut self.rows[point.site as usize];
        let taken = row.remove(point)?;
        self.count -= 1;
        Some(taken)
    }

    /// Takes the payload of a label, if it waits. It takes no memory, and looks for no first label of its site.
    pub fn take_if(&mut self, label: &Label) -> Option<Payload>
        ensures found { result ≡ waits.waiting_of self.old label.now }
        ensures new { self.new ≡ waits.after_take_of self.old label.now (waits.waiting_of self.old label.now) }
    {
        if label.point.site as usize >= self.rows.len() {
            return None;
        }
        let row = &mut self.rows[label.point.site as usize];
        let taken = row.take_if(label)?;
        self.count -= 1;
        Some(taken)
    }

    /// Looks for the first label of each site that is not known, so that it is at hand. It takes no memory.
    pub fn look(&mut self)
        ensures { self.new ≡ self.old }
    {
        look_at_all(&mut self.rows);
    }

    /// The least waiting label that is not past the close cut of its site. `closes` has a place for each site; where it
    /// is shorter, or the place is empty, no label of that site is past. It looks at the first of each site alone.
    pub fn least_before(&self, closes: &[Option<Point>]) -> Option<Label>
        ensures { result ≡ waits.least_before closes.now self.now }
    {
        least_of_all(self.rows.as_slice(), closes)
    }

    /// Whether a label with a timestamp up to this one waits. It looks at the first of each site alone.
    pub fn has_ts_to(&self, ts: u64) -> bool
        ensures { result ≡ waits.has_ts_to ts self.now }
    {
        any_has_ts_to(self.rows.as_slice(), ts)
    }

    /// Whether a label of a site with a point up to this one waits. It looks at the first of that site alone.
    #[tactic(auto, using(crate::proofs::Pools::up_of_site, crate::proofs::Pools::row_some, crate::proofs::Pools::row_none))]
    pub fn has_up_to(&self, site: u16, point: &Point) -> bool
        ensures { result ≡ waits.has_up_to site point.now self.now }
    {
        match self.rows.get(site as usize) {
            None => false,
            Some(row) => row.has_up_to(point),
        }
    }

    /// How many wait.
    pub fn len(&self) -> usize
        ensures len { result ≡ length (waits.all_waiting self.now) }
        ensures limits { waits.IsPool self.now }
    {
        self.count
    }
}
