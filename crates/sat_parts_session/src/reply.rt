//! Answers of hubs and of gears, as a history has them.
use sat_act::Answer;
use sat_machines::Laid;
use sat_parts::{GearAnswer, GearNode, HubAnswer, HubNode};
use sat_session::Reply;

/// How the answers of a hub hold those of a history.
pub struct OfHub;

impl<N: Laid> Reply<HubNode<N>> for OfHub {
    ghost use Rattle.sat_parts_session.specs.Asked.{of_hub};

    ghost answer_of = { of_hub };

    fn answer(given: HubAnswer) -> Answer {
        let HubAnswer {
            answer,
            link: _,
            sent: _,
            beat: _,
            show: _,
        } = given;
        answer
    }
}

/// How those of a gear do.
pub struct OfGear;

impl<N: Laid> Reply<GearNode<N>> for OfGear {
    ghost use Rattle.sat_parts_session.specs.Asked.{of_gear};

    ghost answer_of = { of_gear };

    fn answer(given: GearAnswer) -> Answer {
        let GearAnswer { answer, keepers: _ } = given;
        answer
    }
}
