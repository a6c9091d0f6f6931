//! A gear as a machine of a node.
ghost use Rattle.std.specs.Prelude.{ℕ, ◌≡◌, ◌<◌, IfOk};
ghost use Rattle.sat_label.specs.declared.node.NodeName.TheVariants.{Gear as AtGear};
ghost use Rattle.sat_label.specs.Words.{bit};
ghost use Rattle.sat_act.specs.Limits.{IsDeployment};
ghost use Rattle.sat_gear.specs.Gear.{IsGear};
ghost use Rattle.sat_joint.specs.Machines.{fresh_gear};
ghost use Rattle.sat_machines.specs.Layout.{peer};
ghost use Rattle.sat_parts.specs.Gears.{GearStands, is_kept_at, lane_to};

use crate::gear_act::GearAct;
use crate::gear_answer::GearAnswer;
use crate::gear_input::GearInput;
use crate::gear_step::{Twice, step_twice, takes};
use sat_act::Deployment;
use sat_gear::Gear;
use sat_hub::shape_of;
use sat_label::{NodeName, SiteSet};
use sat_machines::{Laid, has_peer, kept_by_one, payload_for};
use sat_node::{Machine, Made};
use sat_site::interest;
use sat_sites::Shape;
use std::alloc::{AllocError, Global};
use std::marker::{Model, PhantomData};

/// A gear of a site of N's deployment as the machine of its node.
#[derive(Drop)]
pub struct GearNode<N: Laid> {
    gear: Gear,
    shape: Shape,
    number: u16,
    of: PhantomData<N>,
}

impl<N: Laid> Model for GearNode<N> {
    ghost use Rattle.std.specs.Prelude.{◌≡◌};
    ghost use Rattle.sat_act.specs.Limits.{IsDeployment};
    ghost use Rattle.sat_gear.specs.Gear.{GearSeen};
    ghost use Rattle.sat_model.specs.Interests.{interest_of};

    ghost Value = { GearSeen };

    ghost view = { λ n. n.gear };

    ghost invariant = { λ n. IsDeployment N.deployment × (n.shape ≡ n.gear.shape) × (n.number ≡ n.gear.gear)
        × (n.shape.interest ≡ interest_of N.deployment) };
}

impl<N: Laid> GearNode<N> {
    /// The machine of a gear of a site of a deployment, which has promised and made nothing.
    pub fn new(
        alloc: Global,
        d: &Deployment,
        site: u16,
        gear: u16,
    ) -> Result<GearNode<N>, AllocError>
        requires deployment { N.deployment ≡ d.now }
        requires site { site < d.now.sites }
        requires gear { gear < d.now.gears }
        ensures { IfOk result (λ node. GearStands N.deployment (AtGear site gear) node fresh_gear) }
    {
        let interest = interest(alloc, d)?;
        let shape = shape_of(d, &interest, site)?;
        let made = Gear::new(alloc, &shape, gear)?;
        Ok(GearNode {
            gear: made,
            shape,
            number: gear,
            of: PhantomData,
        })
    }

    /// The gear.
    pub fn gear(&self) -> &Gear
        ensures gear { result.now ≡ self.now }
        ensures limits { IsDeployment N.deployment }
    {
        &self.gear
    }

    /// The shape of the gear's site.
    pub fn shape(&self) -> &Shape
        ensures { result.now ≡ self.now.shape }
    {
        &self.shape
    }

    /// The gear's number.
    pub fn number(&self) -> u16
        ensures { result ≡ self.now.gear }
    {
        self.number
    }

    // What is true of the gear, and of N's deployment.
    fn sound(&self)
        ensures deployment { IsDeployment N.deployment }
        ensures gear { IsGear self.now }
    {
        let _ = self.gear.promise();
    }

    // The sites that keep one of the items of a write.
    #[tactic(auto, using(sat_machines::proofs::Keepers::keeps_one_is))]
    fn keepers(&self, input: &GearInput) -> SiteSet
        ensures { (k : ℕ) → bit result.bits k ≡ is_kept_at N.deployment input.now k }
    {
        match input {
            GearInput::Write { items, .. } => kept_by_one(&self.shape.interest, items),
            _ => SiteSet::none(),
        }
    }
}

impl<N: Laid> Machine for GearNode<N> {
    type Input = GearAct<N>;

    type Answer = GearAnswer;

    ghost use Rattle.std.specs.Prelude.{true};
    ghost use Rattle.sat_joint.specs.Machines.{GearNode as GearState};
    ghost use Rattle.sat_parts.specs.GearSteps.{gear_may_fail, gear_takes};
    ghost use Rattle.sat_parts.specs.Gears.{GearStands, gear_meaning};

    ghost State = { GearState };

    ghost meaning = { gear_meaning N.deployment };

    ghost stands_for = { λ name x n. GearStands N.deployment name x n };

    ghost takes_in = { λ x act. gear_takes x act.input };

    ghost may_fail = { λ x act. gear_may_fail act.input };

    fn fits(&self, input: &GearAct<N>) -> bool {
        takes(&self.gear, &self.shape, self.number, &input.input)
    }

    fn step(&mut self, input: GearAct<N>) -> Result<(GearAnswer, GearAnswer), AllocError> {
        // This brings its law into the proof; it does nothing when it runs.
        sat_gear::lane_laws();
        self.sound();
        let _ = input.by();
        let keepers = self.keepers(&input.input);
        let Twice { answer, again } = step_twice(
            &mut self.gear,
            &self.shape,
            self.number,
            input.input,
        )?;
        let first = GearAnswer { answer, keepers };
        let second = GearAnswer {
            answer: again,
            keepers,
        };
        Ok((first, second))
    }

    fn put(
        alloc: Global,
        name: NodeName,
        link: usize,
        input: &GearAct<N>,
        given: &GearAnswer,
    ) -> Result<Option<Made>, AllocError> {
        let NodeName::Gear { site, gear: _ } = name else {
            return Ok(None);
        };
        made_for(alloc, site, link, &input.input, given)
    }
}

// What an entry makes for another site: the payload of a write.
fn made_for(
    alloc: Global,
    site: u16,
    link: usize,
    input: &GearInput,
    given: &GearAnswer,
) -> Result<Option<Made>, AllocError>
    ensures { IfOk result (λ made. made ≡ lane_to (peer site link) input.now given.now) }
{
    match input {
        GearInput::Write { values, .. } => {
            let here = has_peer(given.keepers.bits, site, link);
            payload_for(alloc, here, values, &given.answer)
        }
        _ => Ok(None),
    }
}
