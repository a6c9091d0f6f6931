//! The words of a command.
ghost use Rattle.std.specs.Prelude.{◌≡◌, ◌-◌, ◌^◌, [], ◌∷◌, map, string_bytes, IfSome};
ghost use Rattle.sat_script.specs.Words.{number_up_to};
ghost use Rattle.sat_settle.specs.declared.load_script.TheConstants.{MOST_LOADED};
ghost use Rattle.sat_top.specs.declared.words.TheConstants.{MOST_REPLICAS};
ghost use Rattle.sat_top.specs.Words.{command_named, chain_of, command_of_two, load_of, command_of_three, command_of};
ghost use Rattle.sat_top.specs.Words.{is_live, IsCommand};

use sat_script::number_up_to;
use sat_settle::MOST_LOADED;

/// The most replicas of which a serializer may be a chain.
pub const MOST_REPLICAS: u16 = 5;

/// What the program can do.
#[derive(Clone, Copy, Debug, PartialEq, Eq)]
pub enum Command {
    /// Reads a script and writes the report of its run.
    Run,
    /// Reads a script and writes a drawing of its run.
    Draw,
    /// Reads a table of delays and writes a tree of serializers.
    Plan,
    /// Reads a table of delays and a tree, and writes the best places of its serializers.
    Place,
    /// Reads a history and writes whether it is causal, shows each update once and is fresh.
    Audit,
    /// Reads a script whose serializers are chains of so many replicas, and writes the report of its run.
    Chain { replicas: u16 },
    /// Reads a script whose sites may stop, and writes the report of its run.
    Durable,
    /// Makes a script of so many acts and six more, runs it and writes a summary.
    Load { seed: u64, acts: u32 },
    /// Writes what the program can do.
    Help,
    /// Writes the program's version.
    Version,
}

// The command of one word.
#[tactic(auto, unfolding(crate::specs::Words::command_named))]
fn command_named(word: &str) -> Option<Command>
    ensures command { result ≡ command_named word.now }
    ensures within { IfSome result (λ c. IsCommand c) }
{
    match word {
        "run" => Some(Command::Run),
        "draw" => Some(Command::Draw),
        "plan" => Some(Command::Plan),
        "place" => Some(Command::Place),
        "audit" => Some(Command::Audit),
        "durable" => Some(Command::Durable),
        "--help" => Some(Command::Help),
        "--version" => Some(Command::Version),
        _ => None,
    }
}

// The load of two numbers.
fn load_of(seed: &str, acts: &str) -> Option<Command>
    ensures command { result ≡ load_of (number_up_to (2 ^ 64 - 1) seed.now) (number_up_to MOST_LOADED acts.now) }
    ensures within { IfSome result (λ c. IsCommand c) }
{
    let Some(seed) = number_up_to(u64::MAX, seed.as_bytes()) else {
        return None;
    };
    let Some(acts) = number_up_to(u64::from(MOST_LOADED), acts.as_bytes()) else {
        return None;
    };
    if acts < 2 {
        return None;
    }
    Some(Command::Load {
        seed,
        acts: acts as u32,
    })
}

// The chains of a number of replicas.
fn chain_of(replicas: &str) -> Option<Command>
    ensures command { result ≡ chain_of (number_up_to MOST_REPLICAS replicas.now) }
    ensures within { IfSome result (λ c. IsCommand c) }
{
    let Some(replicas) = number_up_to(u64::from(MOST_REPLICAS), replicas.as_bytes()) else {
        return None;
    };
    if replicas == 0 {
        return None;
    }
    Some(Command::Chain {
        replicas: replicas as u16,
    })
}

// The command of two words.
#[tactic(auto, unfolding(crate::specs::Words::command_of_two))]
fn command_of_two(word: &str, replicas: &str) -> Option<Command>
    ensures command { result ≡ command_of_two word.now replicas.now }
    ensures within { IfSome result (λ c. IsCommand c) }
{
    match word {
        "chain" => chain_of(replicas),
        _ => None,
    }
}

// The command of three words.
#[tactic(auto, unfolding(crate::specs::Words::command_of_three))]
fn command_of_three(word: &str, seed: &str, acts: &str) -> Option<Command>
    ensures command { result ≡ command_of_three word.now seed.now acts.now }
    ensures within { IfSome result (λ c. IsCommand c) }
{
    match word {
        "load" => load_of(seed, acts),
        _ => None,
    }
}

/// Whether the words ask for nodes on threads.
#[tactic(auto, unfolding(crate::specs::Words::is_live))]
pub(crate) fn is_live(words: &[String]) -> bool
    ensures { result ≡ is_live (map string_bytes words.now) }
{
    match words {
        [word] => word.as_str() == "live",
        _ => false,
    }
}

/// The command that the words say, None where they are no command, or `live`, which no call does that waits for nobody.
#[tactic(auto, unfolding(crate::specs::Words::command_of))]
pub(crate) fn command_of(words: &[String]) -> Option<Command>
    ensures command { result ≡ command_of (map string_bytes words.now) }
    ensures within { IfSome result (λ c. IsCommand c) }
{
    match words {
        [] => None,
        [word] => command_named(word.as_str()),
        [word, replicas] => command_of_two(word.as_str(), replicas.as_str()),
        [word, seed, acts] => command_of_three(word.as_str(), seed.as_str(), acts.as_str()),
        [_, _, _, _, ..] => None,
    }
}
