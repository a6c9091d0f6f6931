//! The act of a chain that the words of a line say.
ghost use Rattle.std.specs.Prelude.{◌≡◌, map, Ok, nat_lt, Some, None, if◌then◌else◌};
ghost use Rattle.sat_script.specs.Lines.{Gives};
ghost use Rattle.sat_script.specs.Said.{said_of};
ghost use Rattle.sat_script.specs.Table.{place_at, num_at, node_at};
ghost use Rattle.sat_chain_script.specs.Forms.{said_step, step_words};

use crate::form::{ChainForm, kinds_of};
use sat_chain_laws::ChainAct;
use sat_label::NodeId;
use sat_script::{Cause, Reader, Said};

fn place_at(said: &[Said], k: usize) -> u16
    ensures { result ≡ place_at (map said_of said.now) k }
{
    match said.get(k) {
        Some(Said::Place(place)) => *place,
        _ => 0,
    }
}

fn num_at(said: &[Said], k: usize) -> u64
    ensures { result ≡ num_at (map said_of said.now) k }
{
    match said.get(k) {
        Some(Said::Number(number)) => *number,
        _ => 0,
    }
}

fn node_at(said: &[Said], k: usize) -> NodeId
    ensures { result ≡ node_at (map said_of said.now) k }
{
    match said.get(k) {
        Some(Said::Node(node)) => *node,
        _ => NodeId::Site(0),
    }
}

/// A number that is a replica's.
pub(crate) fn replica_of(replicas: u16, number: u64) -> Option<u16>
    ensures { result ≡ (if nat_lt number replicas then Some number else None) }
{
    if number < u64::from(replicas) {
        Some(number as u16)
    } else {
        None
    }
}

// The act that words of a form say, unless its parts do not go together.
fn said_step(
    reader: &Reader,
    replicas: u16,
    form: ChainForm,
    said: &[Said],
) -> Result<ChainAct, Cause>
    ensures { Gives result (said_step replicas reader.now.state.header form (Ok (map said_of said.now))) }
{
    let epoch = place_at(said, 0);
    match form {
        ChainForm::Enter => {
            let from = node_at(said, 1);
            let to = place_at(said, 2);
            match reader.edge_cause(epoch, from, to) {
                Some(cause) => Err(cause),
                None => Ok(ChainAct::Enter { epoch, from, to }),
            }
        }
        ChainForm::Pass => match replica_of(replicas, num_at(said, 2)) {
            Some(replica) => Ok(ChainAct::Pass {
                epoch,
                serializer: place_at(said, 1),
                replica,
            }),
            None => Err(Cause::OutOfRange),
        },
        ChainForm::Apply => Ok(ChainAct::Apply {
            epoch,
            serializer: place_at(said, 1),
        }),
        ChainForm::Crash => match replica_of(replicas, num_at(said, 2)) {
            Some(replica) => Ok(ChainAct::Crash {
                epoch,
                serializer: place_at(said, 1),
                replica,
            }),
            None => Err(Cause::OutOfRange),
        },
    }
}

/// The act of a chain that the words of a line after the first say.
#[tactic(auto, unfolding(crate::specs::Forms::step_words))]
pub(crate) fn step_words(
    reader: &Reader,
    replicas: u16,
    form: ChainForm,
    words: &[&[u8]],
) -> Result<ChainAct, Cause>
    ensures { Gives result (step_words replicas reader.now.state form (map (λ word. word.now) words.now)) }
{
    match reader.said(kinds_of(form), words) {
        Ok(said) => said_step(reader, replicas, form, said.as_slice()),
        Err(cause) => Err(cause),
    }
}
