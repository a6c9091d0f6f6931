//! The acts of a large script, by the table of what is drawn.
ghost use Rattle.std.specs.Prelude.{◌≡◌, ◌≤◌, ◌<◌, ◌+◌, length};
ghost use Rattle.sat_tree.specs.Cut.{neighbours};
ghost use Rattle.sat_settle.specs.LoadActs.{row_of, draws_of, neighbour, hop_in, hop_act, bulk_act, row_act, act_at};
ghost use Rattle.sat_settle.specs.LoadActs.{after_act};
ghost use Rattle.sat_settle.specs.LoadDraft.{drafted};
ghost use Rattle.sat_settle.specs.LoadDraws.{after_draws, first};
ghost use Rattle.sat_settle.specs.LoadHeader.{load_deployment, load_tree};
ghost use Rattle.sat_settle.specs.declared.load_rows.Row.TheVariants as row;

use crate::load_draft::Draft;
use crate::load_draws::Draws;
use crate::load_header::tree_of;
use sat_act::Deployment;
use sat_label::NodeId;
use sat_tree::Tree;

/// A row of the table.
#[derive(Clone, Copy)]
pub enum Row {
    Write,
    Read,
    Move,
    Attach,
    Tick,
    Gather,
    Emit,
    Pulse,
    Hop,
    Bulk,
    Turn,
}

// A letter for each number below 16, by its row. A draw is then a look and one jump.
const LETTERS: &[u8; 16] = b"aaabcdefgghijjkk";

// The row of a number below 16.
#[tactic(auto, unfolding(crate::specs::LoadActs::row_of))]
fn row_of(number: u16) -> Row
    requires { number < 16 }
    ensures { result ≡ row_of number }
{
    match LETTERS[number as usize] {
        b'a' => Row::Write,
        b'b' => Row::Read,
        b'c' => Row::Move,
        b'd' => Row::Attach,
        b'e' => Row::Tick,
        b'f' => Row::Gather,
        b'g' => Row::Emit,
        b'h' => Row::Pulse,
        b'i' => Row::Hop,
        b'j' => Row::Bulk,
        _ => Row::Turn,
    }
}

#[tactic(auto, unfolding(crate::specs::LoadActs::neighbour))]
fn neighbour(tree: &Tree, z: u16, place: u16) -> NodeId
    requires z { z < length tree.now.parents }
    requires place { place < length (neighbours tree.now z) }
    ensures { result ≡ neighbour tree.now z place }
{
    tree.neighbours(z)[place as usize]
}

// A serializer of an epoch's tree, and one of its neighbours.
#[tactic(auto, using(crate::proofs::LoadTrees::some_serializer, crate::proofs::LoadTrees::some_neighbour, crate::proofs::LoadTrees::few_neighbours))]
fn hop(d: &Deployment, draws: &mut Draws) -> Draft
    requires { d.now ≡ load_deployment }
    ensures act { drafted result ≡ hop_act draws.old }
    ensures state { draws.new ≡ after_draws 3 draws.old }
{
    let epoch = 1 + draws.draw(2);
    let tree = tree_of(d, epoch);
    let to = draws.draw(tree.serializers());
    let place = draws.draw(tree.neighbours(to).len() as u16);
    Draft::Hop {
        epoch,
        from: neighbour(tree, to, place),
        to,
    }
}

// A lane from one site for another.
fn bulk(draws: &mut Draws) -> Draft
    ensures act { drafted result ≡ bulk_act draws.old }
    ensures state { draws.new ≡ after_draws 3 draws.old }
{
    let from = draws.draw(5);
    let gear = draws.draw(4);
    let to = (from + 1 + draws.draw(4)) % 5;
    Draft::Bulk { from, gear, to }
}

#[tactic(auto, unfolding(crate::specs::LoadActs::row_act))]
fn write(draws: &mut Draws, number: u32) -> Draft
    ensures act { drafted result ≡ row_act row.Write number draws.old }
    ensures state { draws.new ≡ after_draws 2 draws.old }
{
    Draft::Write {
        client: draws.draw(40),
        item: draws.draw(200),
        number,
    }
}

// The act of a row, as the one of this number.
#[tactic(auto, unfolding(crate::specs::LoadActs::row_act))]
fn draft_of(d: &Deployment, draws: &mut Draws, row: Row, number: u32) -> Draft
    requires { d.now ≡ load_deployment }
    ensures act { drafted result ≡ row_act row number draws.old }
    ensures state { draws.new ≡ after_draws (draws_of row) draws.old }
{
    match row {
        Row::Write => write(draws, number),
        Row::Read => Draft::Read {
            client: draws.draw(40),
            item: draws.draw(200),
        },
        Row::Move => Draft::Move {
            client: draws.draw(40),
            site: draws.draw(5),
        },
        Row::Attach => Draft::Attach {
            client: draws.draw(40),
            site: draws.draw(5),
        },
        Row::Tick => Draft::Tick {
            site: draws.draw(5),
            gear: draws.draw(4),
            ts: u64::from(number),
        },
        Row::Gather => Draft::Gather {
            site: draws.draw(5),
        },
        Row::Emit => Draft::Emit {
            site: draws.draw(5),
        },
        Row::Pulse => Draft::Pulse {
            site: draws.draw(5),
        },
        Row::Hop => hop(d, draws),
        Row::Bulk => bulk(draws),
        Row::Turn => Draft::Turn {
            site: draws.draw(5),
        },
    }
}

/// The act of this number: its row is drawn, and then what the row takes.
pub fn next_draft(d: &Deployment, draws: &mut Draws, number: u32) -> Draft
    requires { d.now ≡ load_deployment }
    ensures act { drafted result ≡ act_at number draws.old }
    ensures state { draws.new ≡ after_act draws.old }
{
    let row = row_of(draws.draw(16));
    draft_of(d, draws, row, number)
}
