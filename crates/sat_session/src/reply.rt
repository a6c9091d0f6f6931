//! Answers of machines, as a history has them.
use sat_act::Answer;
use sat_machines::{Laid, SiteAnswer, SiteNode};
use sat_node::Machine;

/// How the answers of a machine hold those of a history.
pub trait Reply<M: Machine> {
    ghost use Rattle.std.specs.Prelude.{◌≡◌};
    ghost use Rattle.sat_act.specs.declared.answer.Answer.{Answer as Said};

    /// The history's answer in one of the machine's.
    ghost answer_of: { M.Answer → Said };

    /// Takes it out.
    fn answer(given: M::Answer) -> Answer
        ensures { result ≡ answer_of given };
}

/// How those of whole sites do.
pub struct OfSite;

impl<N: Laid> Reply<SiteNode<N>> for OfSite {
    ghost use Rattle.sat_session.specs.Calls.{of_site};

    ghost answer_of = { of_site };

    fn answer(given: SiteAnswer) -> Answer {
        let SiteAnswer {
            answer,
            link: _,
            sent: _,
            keepers: _,
            beat: _,
        } = given;
        answer
    }
}
