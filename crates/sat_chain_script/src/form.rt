//! The forms of the acts of chains: the word that an act begins with, and the kinds of the words after it.
ghost use Rattle.std.specs.Prelude.{◌≡◌, ◌≤◌, length, map};
ghost use Rattle.sat_chain_script.specs.Forms.{word_of, kinds_of, has_words, found, chain_form};

use sat_script::Kind;

/// The form of an act of a chain.
#[derive(Clone, Copy, Debug, PartialEq, Eq)]
pub enum ChainForm {
    /// `enter E U Z`
    Enter,
    /// `pass E Z K`
    Pass,
    /// `apply E Z`
    Apply,
    /// `crash E Z K`
    Crash,
}

// The word that the acts of a form begin with.
fn word_of(form: ChainForm) -> &'static [u8]
    ensures { result.now ≡ word_of form }
{
    match form {
        ChainForm::Enter => b"enter".as_slice(),
        ChainForm::Pass => b"pass".as_slice(),
        ChainForm::Apply => b"apply".as_slice(),
        ChainForm::Crash => b"crash".as_slice(),
    }
}

/// The kinds of the words after it.
pub(crate) fn kinds_of(form: ChainForm) -> &'static [Kind]
    ensures kinds { result.now ≡ kinds_of form }
    ensures few { length result.now ≤ 3 }
{
    match form {
        ChainForm::Enter => &[Kind::Epoch, Kind::Node, Kind::Serializer],
        ChainForm::Pass => &[Kind::Epoch, Kind::Serializer, Kind::Count],
        ChainForm::Apply => &[Kind::Epoch, Kind::Serializer],
        ChainForm::Crash => &[Kind::Epoch, Kind::Serializer, Kind::Count],
    }
}

// Whether an act of a form begins with a word and has so many more.
fn has_words(form: ChainForm, word: &[u8], count: usize) -> bool
    ensures { result ≡ has_words form word.now count }
{
    kinds_of(form).len() == count && word == word_of(form)
}

// The form of the acts that begin with a word and have so many more, if there is one.
fn found(word: &[u8], count: usize) -> Option<ChainForm>
    ensures { result ≡ found word.now count }
{
    if has_words(ChainForm::Enter, word, count) {
        return Some(ChainForm::Enter);
    }
    if has_words(ChainForm::Pass, word, count) {
        return Some(ChainForm::Pass);
    }
    if has_words(ChainForm::Apply, word, count) {
        return Some(ChainForm::Apply);
    }
    if has_words(ChainForm::Crash, word, count) {
        return Some(ChainForm::Crash);
    }
    None
}

/// The form of the act of a chain that words make, if they make one by the first of them and their number.
#[tactic(auto, unfolding(crate::specs::Forms::chain_form))]
pub fn chain_form(words: &[&[u8]]) -> Option<ChainForm>
    ensures { result ≡ chain_form (map (λ word. word.now) words.now) }
{
    let Some((word, words)) = words.split_first() else {
        return None;
    };
    found(word, words.len())
}
