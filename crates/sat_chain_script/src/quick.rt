//! Acts that most lines are, made as their words are read.
ghost use Rattle.std.specs.Prelude.{codes, ◌≡◌, ◌≤◌, [], ◌∷◌, length, take, IfSome, Ok};
ghost use Rattle.sat_script.specs.Said.{TakesActs};
ghost use Rattle.sat_script.specs.Words.{blanks_from};
ghost use Rattle.sat_chain_script.specs.ChainLines.{chain_line, saying};
ghost use Rattle.sat_chain_script.specs.Forms.{SaysStep};

use crate::step::replica_of;
use sat_chain_laws::ChainAct;
use sat_script::{Reader, SHORT_LINE, blanks, four_words, three_words};

#[inline(always)]
fn enter_of(
    reader: &Reader,
    replicas: u16,
    epoch: &[u8],
    from: &[u8],
    to: &[u8],
) -> Option<ChainAct>
    ensures { IfSome result (λ act. SaysStep replicas reader.now.state.header (codes "enter")
        (epoch.now ∷ from.now ∷ to.now ∷ []) act) }
{
    let _ = replicas;
    let (epoch, from, to) = reader.said_edge(epoch, from, to)?;
    Some(ChainAct::Enter { epoch, from, to })
}

#[inline(always)]
fn pass_of(
    reader: &Reader,
    replicas: u16,
    epoch: &[u8],
    serializer: &[u8],
    replica: &[u8],
) -> Option<ChainAct>
    ensures { IfSome result (λ act. SaysStep replicas reader.now.state.header (codes "pass")
        (epoch.now ∷ serializer.now ∷ replica.now ∷ []) act) }
{
    let (epoch, serializer, number) = reader.said_part(epoch, serializer, replica)?;
    let replica = replica_of(replicas, number)?;
    Some(ChainAct::Pass {
        epoch,
        serializer,
        replica,
    })
}

#[inline(always)]
fn apply_of(reader: &Reader, replicas: u16, epoch: &[u8], serializer: &[u8]) -> Option<ChainAct>
    ensures { IfSome result (λ act. SaysStep replicas reader.now.state.header (codes "apply")
        (epoch.now ∷ serializer.now ∷ []) act) }
{
    let _ = replicas;
    let (epoch, serializer) = reader.said_serializer(epoch, serializer)?;
    Some(ChainAct::Apply { epoch, serializer })
}

// The act that a word and two behind it say. Of a rare one, and where the line may be bad, it says nothing.
#[inline(always)]
fn step_of_three(
    reader: &Reader,
    replicas: u16,
    word: &[u8],
    one: &[u8],
    two: &[u8],
) -> Option<ChainAct>
    ensures { IfSome result (λ act. SaysStep replicas reader.now.state.header word.now (one.now ∷ two.now ∷ []) act) }
{
    match word {
        [b'a', b'p', b'p', b'l', b'y'] => apply_of(reader, replicas, one, two),
        _ => None,
    }
}

// The act that a word and three behind it say, as above.
#[inline(always)]
fn step_of_four(
    reader: &Reader,
    replicas: u16,
    word: &[u8],
    one: &[u8],
    two: &[u8],
    three: &[u8],
) -> Option<ChainAct>
    ensures { IfSome result (λ act. SaysStep replicas reader.now.state.header word.now
        (one.now ∷ two.now ∷ three.now ∷ []) act) }
{
    match word {
        [b'p', b'a', b's', b's'] => pass_of(reader, replicas, one, two, three),
        [b'e', b'n', b't', b'e', b'r'] => enter_of(reader, replicas, one, two, three),
        _ => None,
    }
}

// The act of a chain that a short line says, by the places of its blanks.
#[inline(always)]
fn step_at(
    reader: &Reader,
    replicas: u16,
    line: &[u8],
    places: &[u8; 64],
    count: usize,
) -> Option<ChainAct>
    requires takes { TakesActs reader.now.state }
    requires short { length line.now ≤ 64 }
    requires blanks { take count places.now ≡ blanks_from 0 line.now }
    ensures { IfSome result (λ act. chain_line replicas reader.now.state line.now ≡ Ok (saying act)) }
{
    match count {
        2 => {
            let (word, one, two) = three_words(line, places);
            step_of_three(reader, replicas, word, one, two)
        }
        3 => {
            let (word, one, two, three) = four_words(line, places);
            step_of_four(reader, replicas, word, one, two, three)
        }
        _ => None,
    }
}

/// The act that the next line says, where it is found quickly: a line without an answer may be good too.
pub fn good_chain_act(reader: &Reader, replicas: u16, line: &[u8]) -> Option<ChainAct>
    ensures { IfSome result (λ act. chain_line replicas reader.now.state line.now ≡ Ok (saying act)) }
{
    if !reader.takes_acts() || line.len() > SHORT_LINE {
        return None;
    }
    let mut places = [0u8; 64];
    let count = blanks(line, &mut places);
    if let Some(act) = step_at(reader, replicas, line, &places, count) {
        return Some(act);
    }
    let act = reader.act_at(line, &places, count)?;
    Some(ChainAct::Plain(act))
}
