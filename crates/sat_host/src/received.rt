//! What becomes of a message.
ghost use Rattle.std.specs.Prelude.{◌≡◌, ◌+◌, ◌^◌, ◌<◌};
ghost use Rattle.sat_host.specs.declared.received.Received.TheVariants as became;
ghost use Rattle.sat_host_laws.specs.Messages.{IsBounded};
ghost use Rattle.sat_host.specs.Turns.{is_taken, label_turn, turn_of};

use sat_node::Body;

/// What became of a message: an entry took it; its turn comes later, so hand it again; it was taken before; or it
/// doesn't fit. Nothing changed where none took it.
#[derive(Clone, Copy, Debug, PartialEq, Eq)]
pub enum Received {
    Taken,
    Early,
    Again,
    Unfit,
}

// Whether an entry takes it.
pub(crate) fn is_taken(received: Received) -> bool
    ensures { result ≡ is_taken received }
{
    match received {
        Received::Taken => true,
        Received::Early => false,
        Received::Again => false,
        Received::Unfit => false,
    }
}

// What becomes of a message of this number by its turn alone.
pub(crate) fn turn_of(wanted: u64, number: u64, body: &Body) -> Received
    ensures turn { result ≡ turn_of wanted number body.now }
    ensures bound { result ≡ became.Taken → IsBounded number body.now }
{
    match body {
        Body::Label(_) => label_turn(wanted, number),
        Body::Payload { .. } => Received::Taken,
        Body::Beat { .. } => Received::Taken,
    }
}

fn label_turn(wanted: u64, number: u64) -> Received
    ensures turn { result ≡ label_turn wanted number }
    ensures bound { result ≡ became.Taken → number + 1 < 2 ^ 64 }
{
    if number < wanted {
        return Received::Again;
    }
    if number > wanted {
        return Received::Early;
    }
    if number == u64::MAX {
        return Received::Unfit;
    }
    Received::Taken
}
