//! A site as a machine of a node.
ghost use Rattle.std.specs.Prelude.{ℕ, ◌≡◌, ◌<◌, ◌-◌, ◌+◌, ◌==◌, true, false, IfOk, OnErr, Some, None, get_or, length};
ghost use Rattle.sat_label.specs.declared.node.NodeName.{NodeName as Name};
ghost use Rattle.sat_label.specs.declared.node.NodeName.TheVariants.{Site as AtSite};
ghost use Rattle.sat_label.specs.Words.{bit};
ghost use Rattle.sat_act.specs.Limits.{IsDeployment};
ghost use Rattle.sat_model.specs.Interests.{interest_of};
ghost use Rattle.sat_model.specs.State.{SiteState, fresh_site};
ghost use Rattle.sat_site.specs.declared.input.SiteInput.TheVariants as given;
ghost use Rattle.sat_site.specs.Inputs.{fits_in};
ghost use Rattle.sat_site.specs.Seen.{IsSite};
ghost use Rattle.sat_site.specs.SiteSteps.{site_answers, site_after, site_beat, site_epoch, site_sends};
ghost use Rattle.sat_machines.specs.Layout.{label_link, peer};
ghost use Rattle.sat_machines.specs.Plain.{is_plain, is_spare, IsTwice};
ghost use Rattle.sat_machines.specs.Sites.{Stands, beat_in, bulk_to, is_keeper, payload_in, site_puts};

use crate::kept_sites::kept_by_one;
use crate::parts::links;
use crate::{Laid, SiteAct, SiteAnswer};
use sat_act::{Answer, Deployment};
use sat_beat::Beat;
use sat_bulk::Payload;
use sat_label::{Carried, Counts, NodeName, SiteSet, Values};
use sat_node::{Machine, Made};
use sat_site::{Site, SiteInput, SiteOutput, interest, site_laws};
use sat_sites::Interest;
use std::alloc::{AllocError, Global};
use std::marker::{Model, PhantomData};

/// A site of N's deployment as the machine of its node.
#[derive(Drop)]
pub struct SiteNode<N: Laid> {
    site: Site,
    interest: Interest,
    links: Counts,
    sites: u16,
    of: PhantomData<N>,
}

impl<N: Laid> Model for SiteNode<N> {
    ghost use Rattle.std.specs.Prelude.{◌≡◌, ◌-◌};
    ghost use Rattle.sat_act.specs.Limits.{IsDeployment};
    ghost use Rattle.sat_model.specs.Interests.{interest_of};
    ghost use Rattle.sat_site.specs.Seen.{SiteSeen};
    ghost use Rattle.sat_machines.specs.Layout.{label_links};

    ghost Value = { SiteSeen };

    ghost view = { λ n. n.site };

    ghost invariant = { λ n. IsDeployment N.deployment × (n.interest ≡ interest_of N.deployment)
        × (n.links ≡ label_links (N.deployment.sites - 1) N.deployment.plans) × (n.sites ≡ N.deployment.sites) };
}

impl<N: Laid> SiteNode<N> {
    /// The machine of a site of a deployment, at which nothing has happened.
    pub fn new(alloc: Global, d: &Deployment, site: u16) -> Result<SiteNode<N>, AllocError>
        requires deployment { N.deployment ≡ d.now }
        requires site { site < d.now.sites }
        ensures { IfOk result (λ node. Stands N.deployment (AtSite site) node (fresh_site site)) }
    {
        let interest = interest(alloc, d)?;
        let links = links(alloc, d)?;
        let site = Site::new(alloc, d, site)?;
        Ok(SiteNode {
            site,
            interest,
            links,
            sites: d.sites(),
            of: PhantomData,
        })
    }

    /// The site.
    pub fn site(&self) -> &Site
        ensures { result.now ≡ self.now }
    {
        &self.site
    }

    /// How many sites the deployment has. The first ends of a site's node, one less than these, are for the other sites
    /// in order.
    pub fn sites(&self) -> u16
        ensures sites { result ≡ N.deployment.sites }
        ensures limits { IsDeployment N.deployment }
    {
        self.sites
    }

    // The number of the end for the tree of an epoch.
    fn link(&self, epoch: u16) -> u64
        ensures { result ≡ label_link N.deployment epoch }
    {
        match self
            .links
            .as_slice()
            .get(usize::from(epoch.saturating_sub(1)))
        {
            Some(link) => *link,
            None => 0,
        }
    }

    // The sites that keep one of the items of a write.
    #[tactic(auto, using(crate::proofs::Keepers::keeps_one_is))]
    fn keepers(&self, input: &SiteInput) -> SiteSet
        ensures { (k : ℕ) → bit result.bits k ≡ is_keeper N.deployment input.now k }
    {
        match input {
            SiteInput::Write { items, .. } => kept_by_one(&self.interest, items),
            _ => SiteSet::none(),
        }
    }
}

// What a step gives, with copies of what the second answer needs.
#[derive(Drop)]
struct Twice {
    out: SiteOutput,
    answer: Answer,
    beat: Option<Beat>,
}

/// The same answer again, of one that holds no list. It takes no memory.
pub fn copy_plain(answer: &Answer) -> Answer
    requires { is_plain answer.now ≡ true }
    ensures { result ≡ answer.now }
{
    match answer {
        Answer::ReadSome { .. } => unreachable!(),
        Answer::Hopped { .. } => unreachable!(),
        Answer::Ticked(promise) => Answer::Ticked(*promise),
        Answer::Clocked(promise) => Answer::Clocked(*promise),
        Answer::Wrote(label) => Answer::Wrote(*label),
        Answer::ReadNone => Answer::ReadNone,
        Answer::Moved(label) => Answer::Moved(*label),
        Answer::Left(point) => Answer::Left(*point),
        Answer::Attached => Answer::Attached,
        Answer::Gathered { labels, stable } => Answer::Gathered {
            labels: *labels,
            stable: *stable,
        },
        Answer::Emitted(label) => Answer::Emitted(*label),
        Answer::Pulsed(label) => Answer::Pulsed(*label),
        Answer::Shown(label) => Answer::Shown(*label),
        Answer::Took(label) => Answer::Took(*label),
        Answer::Brought(label) => Answer::Brought(*label),
        Answer::Again => Answer::Again,
        Answer::Beat(number) => Answer::Beat(*number),
        Answer::Taken => Answer::Taken,
        Answer::Old => Answer::Old,
        Answer::Closed { epoch, cut } => Answer::Closed {
            epoch: *epoch,
            cut: *cut,
        },
        Answer::Fallen => Answer::Fallen,
        Answer::View(view) => Answer::View(*view),
        Answer::Killed => Answer::Killed,
        Answer::Settled { rounds, done } => Answer::Settled {
            rounds: *rounds,
            done: *done,
        },
        Answer::Refused(refusal) => Answer::Refused(*refusal),
    }
}

impl<N: Laid> SiteNode<N> {
    // A read changes nothing, so its copy is made after the step.
    #[tactic(auto, using(crate::proofs::Plain::read_stays, crate::proofs::Plain::read_beat))]
    fn read(&mut self, carried: Carried, item: u16) -> Result<Twice, AllocError>
        requires { fits_in self.old (given.Read carried item) ≡ true }
        ensures twice { IfOk result (λ t. IsTwice self.old (given.Read carried item) t.out t.answer t.beat) }
        ensures after { IfOk result (λ t. self.new ≡ site_after self.old (given.Read carried item)) }
        ensures site { IfOk result (λ t. IsSite self.old) }
        ensures err { OnErr result (self.new ≡ self.old) }
    {
        let out = self.site.step(SiteInput::Read { carried, item })?;
        let answer = out.answer.copy()?;
        Ok(Twice {
            out,
            answer,
            beat: None,
        })
    }

    // A copy of the beat is made before the step.
    #[tactic(auto, using(crate::proofs::Plain::beat_fits, crate::proofs::Plain::beat_plain, crate::proofs::Plain::beat_made))]
    fn make_beat(&mut self, to: u16) -> Result<Twice, AllocError>
        requires { fits_in self.old (given.Beat to) ≡ true }
        ensures twice { IfOk result (λ t. IsTwice self.old (given.Beat to) t.out t.answer t.beat) }
        ensures after { IfOk result (λ t. self.new ≡ site_after self.old (given.Beat to)) }
        ensures site { IfOk result (λ t. IsSite self.old) }
        ensures err { OnErr result (self.new ≡ self.old) }
    {
        let beat = self.site.beat(to)?;
        let out = self.site.step(SiteInput::Beat { to })?;
        let answer = copy_plain(&out.answer);
        Ok(Twice {
            out,
            answer,
            beat: Some(beat),
        })
    }

    // What makes no beat, and has an answer without a list.
    #[tactic(auto, using(crate::proofs::Plain::plain_answer, crate::proofs::Plain::spare_beat))]
    fn plain(&mut self, input: SiteInput) -> Result<Twice, AllocError>
        requires fits { fits_in self.old input ≡ true }
        requires spare { is_spare input ≡ true }
        ensures twice { IfOk result (λ t. IsTwice self.old input t.out t.answer t.beat) }
        ensures after { IfOk result (λ t. self.new ≡ site_after self.old input) }
        ensures site { IfOk result (λ t. IsSite self.old) }
        ensures err { OnErr result (self.new ≡ self.old) }
    {
        let out = self.site.step(input)?;
        let answer = copy_plain(&out.answer);
        Ok(Twice {
            out,
            answer,
            beat: None,
        })
    }

    fn twice(&mut self, input: SiteInput) -> Result<Twice, AllocError>
        requires { fits_in self.old input ≡ true }
        ensures twice { IfOk result (λ t. IsTwice self.old input t.out t.answer t.beat) }
        ensures after { IfOk result (λ t. self.new ≡ site_after self.old input) }
        ensures site { IfOk result (λ t. IsSite self.old) }
        ensures err { OnErr result (self.new ≡ self.old) }
    {
        let _ = &self.links;
        match input {
            SiteInput::Read { carried, item } => self.read(carried, item),
            SiteInput::Beat { to } => self.make_beat(to),
            other => self.plain(other),
        }
    }

    // What N's deployment is.
    fn sound(&self)
        ensures { IsDeployment N.deployment }
    {
        let _ = &self.links;
    }
}

impl<N: Laid> Machine for SiteNode<N> {
    type Input = SiteAct<N>;

    type Answer = SiteAnswer;

    ghost use Rattle.std.specs.Prelude.{true};
    ghost use Rattle.sat_model.specs.State.{SiteState};
    ghost use Rattle.sat_site.specs.Inputs.{fits_in};
    ghost use Rattle.sat_machines.specs.Sites.{Stands, site_meaning};

    ghost State = { SiteState };

    ghost meaning = { site_meaning N.deployment };

    ghost stands_for = { λ name x s. Stands N.deployment name x s };

    ghost takes_in = { λ x act. fits_in x act.input };

    ghost may_fail = { λ x act. true };

    fn fits(&self, input: &SiteAct<N>) -> bool {
        self.site.fits(&input.input)
    }

    fn step(&mut self, input: SiteAct<N>) -> Result<(SiteAnswer, SiteAnswer), AllocError> {
        // This brings its laws into the proof; it does nothing when it runs.
        site_laws();
        self.sound();
        let _ = input.by();
        let keepers = self.keepers(&input.input);
        let Twice {
            out,
            answer: again,
            beat: copy,
        } = self.twice(input.input)?;
        let SiteOutput {
            answer,
            sent,
            epoch,
            beat,
        } = out;
        let link = self.link(epoch);
        let first = SiteAnswer {
            answer,
            link,
            sent,
            keepers,
            beat,
        };
        let second = SiteAnswer {
            answer: again,
            link,
            sent,
            keepers,
            beat: copy,
        };
        Ok((first, second))
    }

    fn put(
        alloc: Global,
        name: NodeName,
        link: usize,
        input: &SiteAct<N>,
        given: &SiteAnswer,
    ) -> Result<Option<Made>, AllocError> {
        let NodeName::Site(site) = name else {
            return Ok(None);
        };
        match given.sent {
            Some(label) if given.link == link as u64 => Ok(Some(Made::Label(label))),
            Some(_) => Ok(None),
            None => made_for(alloc, site, link, &input.input, given),
        }
    }
}

/// Whether a set, as bits, has the site that the end of this number is for.
#[tactic(auto, using(crate::proofs::Peers::far))]
pub fn has_peer(bits: u64, site: u16, link: usize) -> bool
    ensures { result ≡ bit bits (peer site link) }
{
    if link >= 64 {
        return false;
    }
    let link = link as u16;
    let set = SiteSet { bits };
    if link < site {
        set.has(link)
    } else {
        set.has(link + 1)
    }
}

/// Whether the end of this number is for a site.
pub fn is_peer(to: u16, site: u16, link: usize) -> bool
    ensures { result ≡ (to == peer site link) }
{
    if link < usize::from(site) {
        return usize::from(to) == link;
    }
    if to == 0 {
        return false;
    }
    usize::from(to) - 1 == link
}

/// The payload of a write, if it is for another site.
pub fn payload_for(
    alloc: Global,
    here: bool,
    values: &Values,
    answer: &Answer,
) -> Result<Option<Made>, AllocError>
    ensures { IfOk result (λ made. made ≡ payload_in here values.now answer.now) }
{
    match answer {
        Answer::Wrote(label) if here => {
            let payload = Payload::new(alloc, *label, values.as_slice())?;
            Ok(Some(Made::Payload {
                gear: label.point.gear,
                payload,
            }))
        }
        _ => Ok(None),
    }
}

/// The beat, if it is for another site.
pub fn beat_for(here: bool, beat: &Option<Beat>) -> Result<Option<Made>, AllocError>
    ensures { IfOk result (λ made. made ≡ beat_in here beat.now) }
{
    match beat {
        Some(beat) if here => Ok(Some(Made::Beat(beat.copy()?))),
        _ => Ok(None),
    }
}

// What an entry makes for another site.
fn made_for(
    alloc: Global,
    site: u16,
    link: usize,
    input: &SiteInput,
    given: &SiteAnswer,
) -> Result<Option<Made>, AllocError>
    ensures { IfOk result (λ made. made ≡ bulk_to (peer site link) input.now given.now) }
{
    match input {
        SiteInput::Write { values, .. } => {
            let here = has_peer(given.keepers.bits, site, link);
            payload_for(alloc, here, values, &given.answer)
        }
        SiteInput::Beat { to } => {
            let here = is_peer(*to, site, link);
            beat_for(here, &given.beat)
        }
        _ => Ok(None),
    }
}
