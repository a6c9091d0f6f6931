//! The forms of acts and of the header's lines, as docs/SCRIPTS.md writes them: a word, and for each word behind it a
//! letter that says its kind. C is a client, X an item, V a value, I and J are sites, G is a gear, T a timestamp, N a
//! number, E an epoch, U a node, Z a serializer, K a replica of one, D a number of calls of a disk and B 0 or 1.

use crate::line::{count_words, first_word};

/// The forms of acts.
pub(crate) fn act_forms() -> &'static [&'static str] {
    &[
        "tick I G T",
        "clock",
        "write C X V",
        "writes C X V X V",
        "writes C X V X V X V",
        "writes C X V X V X V X V",
        "read C X",
        "move C J",
        "leave C",
        "attach C J",
        "gather I",
        "emit I",
        "pulse I",
        "hop E U Z",
        "turn J",
        "bulk I G J N",
        "bulk I G J",
        "beat I J",
        "beatin I J N",
        "stamp J",
        "close I",
        "fall J",
        "advance J",
        "kill E Z",
        "settle",
        "enter E U Z",
        "pass E Z K",
        "apply E Z",
        "crash E Z K",
        "stop I",
        "cut I D B",
    ]
}

/// The words that acts begin with, and the one that ends a script.
pub(crate) fn act_words() -> &'static [&'static str] {
    &[
        "tick", "clock", "write", "writes", "read", "move", "leave", "attach", "gather", "emit",
        "pulse", "hop", "turn", "bulk", "beat", "beatin", "stamp", "close", "fall", "advance",
        "kill", "settle", "enter", "pass", "apply", "crash", "stop", "cut", "end",
    ]
}

/// The words that the header's lines begin with.
pub(crate) fn header_words() -> &'static [&'static str] {
    &[
        "saturn", "sites", "gears", "item", "client", "plan", "begin",
    ]
}

/// The form of a line of the header by its first word.
pub(crate) fn header_form(word: &str) -> Option<&'static str> {
    match word {
        "saturn" => Some("saturn 1` or `saturn 2"),
        "sites" => Some("sites N"),
        "gears" => Some("gears N"),
        "item" => Some("item NAME LIST"),
        "client" => Some("client NAME SITE"),
        "plan" => Some("plan tree PARENTS / SEATS` or `plan stamp"),
        "begin" => Some("begin"),
        _ => None,
    }
}

/// Whether an act begins with a word.
pub(crate) fn is_act(word: &str) -> bool {
    act_forms().iter().any(|form| first_word(form) == word)
}

/// The form of a line of an act, by its first word and by how many words it has.
pub(crate) fn form_of(line: &str) -> Option<&'static str> {
    let word = first_word(line);
    let count = count_words(line);
    for form in act_forms() {
        if first_word(form) == word && count_words(form) == count {
            return Some(form);
        }
    }
    None
}

/// The longest form of the acts that begin with a word.
pub(crate) fn longest_form(word: &str) -> Option<&'static str> {
    let mut longest: Option<&'static str> = None;
    for form in act_forms() {
        if first_word(form) == word && longest.map_or(0, count_words) < count_words(form) {
            longest = Some(form);
        }
    }
    longest
}

/// What the letter of a kind stands for, as a sentence goes on with it.
pub(crate) fn kind_text(kind: &str) -> &'static str {
    match kind {
        "C" => "a client's name has 1 to 32 letters, digits, `_`, `-` or `.`",
        "X" => "an item's name has 1 to 32 letters, digits, `_`, `-` or `.`",
        "V" => "a value has 1 to 256 bytes and no space",
        "I" | "J" => "a site is named by its number",
        "G" => "a gear is named by its number",
        "T" => "a timestamp is a number",
        "N" => "this is a number",
        "E" => "an epoch is named by its number",
        "K" => "a replica is named by its number",
        "D" => "how many calls of the disk pass is a number",
        "B" => "whether what wasn't synced stays is 1 or 0",
        "U" => "a node is `s` and a site's number or `z` and a serializer's, as `s0`",
        _ => "a serializer is `z` and its number, as `z0`",
    }
}
