//! A hub as a machine of a node.
ghost use Rattle.std.specs.Prelude.{◌≡◌, ◌<◌, IfOk, get_or};
ghost use Rattle.sat_label.specs.declared.node.NodeName.TheVariants.{Site as AtSite};
ghost use Rattle.sat_act.specs.Limits.{IsDeployment};
ghost use Rattle.sat_joint.specs.Machines.{fresh_hub};
ghost use Rattle.sat_machines.specs.Layout.{label_link, peer};
ghost use Rattle.sat_hub.specs.Seen.{IsHub};
ghost use Rattle.sat_parts.specs.HubSteps.{HasTimes};
ghost use Rattle.sat_parts.specs.Hubs.{HubStands, beat_to};

use crate::hub_act::HubAct;
use crate::hub_answer::HubAnswer;
use crate::hub_input::HubInput;
use crate::hub_step::{Given, act, epoch_of, gives, sends, takes};
use sat_act::Deployment;
use sat_hub::Hub;
use sat_label::{Counts, NodeName};
use sat_machines::{Laid, beat_for, copy_plain, is_peer, links};
use sat_node::{Machine, Made};
use sat_site::{interest, site_laws};
use std::alloc::{AllocError, Global};
use std::marker::{Model, PhantomData};

/// The hub of a site of N's deployment as the machine of its node.
#[derive(Drop)]
pub struct HubNode<N: Laid> {
    hub: Hub,
    links: Counts,
    of: PhantomData<N>,
}

impl<N: Laid> Model for HubNode<N> {
    ghost use Rattle.std.specs.Prelude.{◌≡◌, ◌-◌};
    ghost use Rattle.sat_act.specs.Limits.{IsDeployment};
    ghost use Rattle.sat_hub.specs.Seen.{HubSeen};
    ghost use Rattle.sat_machines.specs.Layout.{label_links};
    ghost use Rattle.sat_parts.specs.HubSteps.{HasTimes};

    ghost Value = { HubSeen };

    ghost view = { λ n. n.hub };

    ghost invariant = { λ n. IsDeployment N.deployment
        × (n.links ≡ label_links (N.deployment.sites - 1) N.deployment.plans) × HasTimes n.hub };
}

impl<N: Laid> HubNode<N> {
    /// The machine of the hub of a site of a deployment, at which nothing has happened.
    pub fn new(alloc: Global, d: &Deployment, site: u16) -> Result<HubNode<N>, AllocError>
        requires deployment { N.deployment ≡ d.now }
        requires site { site < d.now.sites }
        ensures { IfOk result (λ node. HubStands N.deployment (AtSite site) node (fresh_hub site)) }
    {
        // This brings its law into the proof; it does nothing when it runs.
        sat_proxy::proxy_laws();
        let _ = d.sites();
        let interest = interest(alloc, d)?;
        let links = links(alloc, d)?;
        let hub = Hub::new(alloc, d, &interest, site)?;
        Ok(HubNode {
            hub,
            links,
            of: PhantomData,
        })
    }

    /// The hub.
    pub fn hub(&self) -> &Hub
        ensures hub { result.now ≡ self.now }
        ensures times { HasTimes self.now }
        ensures limits { IsDeployment N.deployment }
    {
        &self.hub
    }

    // The number of the end for the tree of an epoch.
    fn link(&self, epoch: u16) -> u64
        ensures { result ≡ label_link N.deployment epoch }
    {
        match self
            .links
            .as_slice()
            .get(usize::from(epoch.saturating_sub(1)))
        {
            Some(link) => *link,
            None => 0,
        }
    }

    // What is true of the hub, and of N's deployment.
    fn sound(&self)
        ensures deployment { IsDeployment N.deployment }
        ensures times { HasTimes self.now }
        ensures hub { IsHub self.now }
    {
        let _ = self.hub.shape();
    }
}

impl<N: Laid> Machine for HubNode<N> {
    type Input = HubAct<N>;

    type Answer = HubAnswer;

    ghost use Rattle.std.specs.Prelude.{true};
    ghost use Rattle.sat_joint.specs.Machines.{HubState};
    ghost use Rattle.sat_parts.specs.HubSteps.{hub_takes};
    ghost use Rattle.sat_parts.specs.Hubs.{HubStands, hub_meaning};

    ghost State = { HubState };

    ghost meaning = { hub_meaning N.deployment };

    ghost stands_for = { λ name x h. HubStands N.deployment name x h };

    ghost takes_in = { λ x act. hub_takes x act.input };

    ghost may_fail = { λ x act. true };

    fn fits(&self, input: &HubAct<N>) -> bool {
        takes(&self.hub, &input.input)
    }

    fn step(&mut self, input: HubAct<N>) -> Result<(HubAnswer, HubAnswer), AllocError> {
        // These bring laws into the proof; they do nothing when they run.
        site_laws();
        self.sound();
        let _ = input.by();
        let sent = sends(&self.hub, &input.input);
        let epoch = epoch_of(&self.hub, &input.input, &sent);
        let link = self.link(epoch);
        let Given {
            beat,
            beat_again,
            show,
            show_again,
        } = gives(&self.hub, &input.input)?;
        let answer = act(&mut self.hub, input.input)?;
        let again = copy_plain(&answer);
        let first = HubAnswer {
            answer,
            link,
            sent,
            beat,
            show,
        };
        let second = HubAnswer {
            answer: again,
            link,
            sent,
            beat: beat_again,
            show: show_again,
        };
        Ok((first, second))
    }

    fn put(
        alloc: Global,
        name: NodeName,
        link: usize,
        input: &HubAct<N>,
        given: &HubAnswer,
    ) -> Result<Option<Made>, AllocError> {
        let NodeName::Site(site) = name else {
            return Ok(None);
        };
        match given.sent {
            Some(label) if given.link == link as u64 => Ok(Some(Made::Label(label))),
            Some(_) => Ok(None),
            None => made_for(site, link, &input.input, given),
        }
    }
}

// What an entry makes for another site: a beat.
fn made_for(
    site: u16,
    link: usize,
    input: &HubInput,
    given: &HubAnswer,
) -> Result<Option<Made>, AllocError>
    ensures { IfOk result (λ made. made ≡ beat_to (peer site link) input.now given.now) }
{
    match input {
        HubInput::Beat { to } => {
            let here = is_peer(*to, site, link);
            beat_for(here, &given.beat)
        }
        _ => Ok(None),
    }
}
