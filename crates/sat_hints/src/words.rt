//! Words that are no command.
ghost use Rattle.std.specs.Prelude.{◌≡◌};

use crate::line::Shown;
use crate::near::near_word;
use crate::reason::number;
use std::alloc::{AllocError, Global};
use std::fmt::Write;

// The commands, and what they are mistaken for.
const COMMANDS: [&str; 11] = [
    "run",
    "draw",
    "plan",
    "place",
    "live",
    "audit",
    "chain",
    "durable",
    "load",
    "--help",
    "--version",
];

// The fewest and the most acts of `load`.
const FEWEST_LOADED: u64 = 2;

const MOST_LOADED: u64 = 199000;

// The most replicas of `chain`; the fewest are one.
const MOST_REPLICAS: u64 = 5;

const USAGE: &str = "usage: saturn COMMAND < INPUT

  run, draw, plan, place, live, audit, durable   read standard input
  chain R                                        reads it too
  load SEED N                                    makes its input
  --help                                         says what each of these does
  --version
";

// Whether a command reads standard input.
fn reads(word: &str) -> bool {
    matches!(
        word,
        "run" | "draw" | "plan" | "place" | "live" | "audit" | "durable"
    )
}

// Whether a word is a number of replicas.
fn counts_replicas(word: &str) -> bool {
    number(word).is_some_and(|count| 1 <= count && count <= MOST_REPLICAS)
}

// What a person is told whose script is awaited.
const AWAITS_SCRIPT: &str =
    "reading a script from the terminal; the line `end` and then Ctrl-D end it";

/// What a person is told whose command waits for lines at a terminal, where the words are such a command.
pub fn awaits(words: &[String]) -> Option<&'static str> {
    match words {
        [word] => awaits_alone(word.as_str()),
        [word, replicas] if word.as_str() == "chain" && counts_replicas(replicas.as_str()) => {
            Some(AWAITS_SCRIPT)
        }
        _ => None,
    }
}

// The same of one word.
fn awaits_alone(word: &str) -> Option<&'static str> {
    match word {
        "run" | "draw" | "live" | "durable" => Some(AWAITS_SCRIPT),
        "audit" => Some(
            "reading a history from the terminal; the line `end` and then Ctrl-D end it",
        ),
        "plan" => Some("reading a table of delays, as JSON, from the terminal; Ctrl-D ends it"),
        "place" => {
            Some("reading a table of delays and a tree, as JSON, from the terminal; Ctrl-D ends it")
        }
        _ => None,
    }
}

/// Whether these are the words that ask for the version.
pub fn is_version(words: &[String]) -> bool {
    match words {
        [word] => word.as_str() == "--version",
        _ => false,
    }
}

/// Whether these are the words by which a history is judged.
pub fn is_audit(words: &[String]) -> bool {
    match words {
        [word] => word.as_str() == "audit",
        _ => false,
    }
}

/// Whether these are the words by which nodes on threads do a script.
pub fn is_live(words: &[String]) -> bool {
    match words {
        [word] => word.as_str() == "live",
        _ => false,
    }
}

/// Whether these are the words of a run, whose refused acts may be counted.
pub fn is_run(words: &[String]) -> bool {
    match words {
        [word] => word.as_str() == "run",
        _ => false,
    }
}

// The option that such a word is written for.
fn option_for(word: &str) -> Option<&'static str> {
    match word {
        "-h" | "-?" | "-help" | "help" | "--usage" | "usage" | "man" => Some("--help"),
        "-v" | "-V" | "-version" | "version" => Some("--version"),
        _ => None,
    }
}

// No command begins with this word.
fn about_unknown(alloc: Global, text: &mut String, word: &str) -> Result<(), AllocError> {
    let shown = Shown::new(word.as_bytes());
    let near = match option_for(word) {
        Some(option) => Some(option),
        None => near_word(alloc, word, &COMMANDS)?,
    };
    match near {
        Some(near) => writeln!(text, "saturn: no command `{shown}`; did you mean `{near}`?"),
        None => writeln!(
            text,
            "saturn: no command `{shown}`; saturn --help tells them"
        ),
    }
}

// Words behind a command that takes none.
fn about_surplus(text: &mut String, command: &str, word: &str) -> Result<(), AllocError> {
    let shown = Shown::new(word.as_bytes());
    if option_for(word) == Some("--help") || word == "--help" {
        return writeln!(
            text,
            "saturn: `{command}` takes no words; type: saturn --help"
        );
    }
    if reads(command) {
        return writeln!(
            text,
            "saturn: `{command}` takes no file name; type: saturn {command} < {shown}"
        );
    }
    writeln!(
        text,
        "saturn: `{command}` stands alone; type: saturn {command}"
    )
}

// Two words behind `load`.
fn about_numbers(text: &mut String, seed: &str, acts: &str) -> Result<(), AllocError> {
    if number(seed).is_none() {
        let shown = Shown::new(seed.as_bytes());
        return writeln!(
            text,
            "saturn: load SEED N: SEED is a number below 2^64 without a leading zero, and not `{shown}`"
        );
    }
    let shown = Shown::new(acts.as_bytes());
    writeln!(
        text,
        "saturn: load SEED N: N is a number from {FEWEST_LOADED} to {MOST_LOADED} without a leading zero, and not `{shown}`"
    )
}

fn about_load(text: &mut String, words: &[String]) -> Result<(), AllocError> {
    match words {
        [seed, acts] => about_numbers(text, seed.as_str(), acts.as_str()),
        _ => writeln!(
            text,
            "saturn: `load` takes two numbers; type: saturn load SEED N"
        ),
    }
}

// Words behind `chain`, which takes one number.
fn about_chain(text: &mut String, words: &[String]) -> Result<(), AllocError> {
    match words {
        [replicas, name] if counts_replicas(replicas.as_str()) => {
            let shown = Shown::new(name.as_bytes());
            writeln!(
                text,
                "saturn: `chain` takes no file name; type: saturn chain {replicas} < {shown}"
            )
        }
        [replicas] => {
            let shown = Shown::new(replicas.as_bytes());
            writeln!(
                text,
                "saturn: chain R: R is a number from 1 to {MOST_REPLICAS} without a leading zero, and not `{shown}`"
            )
        }
        _ => writeln!(
            text,
            "saturn: `chain` takes one number; type: saturn chain R < INPUT"
        ),
    }
}

// Words that begin with this one, and have these behind it.
fn about_command(
    alloc: Global,
    text: &mut String,
    command: &str,
    rest: &[String],
) -> Result<(), AllocError> {
    if command == "load" {
        return about_load(text, rest);
    }
    if command == "chain" {
        return about_chain(text, rest);
    }
    let is_known = reads(command) || command == "--help" || command == "--version";
    match rest.first() {
        Some(word) if is_known => about_surplus(text, command, word.as_str()),
        _ => about_unknown(alloc, text, command),
    }
}

/// What is said of words that are no command: of none the usage, and of others what may have been meant. There are no
/// words where one of them is no UTF-8.
pub fn about_words(alloc: Global, words: Option<&[String]>) -> Result<String, AllocError> {
    let mut text = String::new(alloc);
    let Some(words) = words else {
        text.push_str("saturn: a word is no UTF-8; type: saturn --help\n")?;
        return Ok(text);
    };
    match words.split_first() {
        None => text.push_str(USAGE)?,
        Some((command, rest)) => about_command(alloc, &mut text, command.as_str(), rest)?,
    }
    Ok(text)
}
