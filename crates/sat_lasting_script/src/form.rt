//! The forms of stops and cuts: the word that an act begins with, and the kinds of the words after it.
ghost use Rattle.std.specs.Prelude.{◌≡◌, ◌≤◌, length, map};
ghost use Rattle.sat_lasting_script.specs.Forms.{word_of, kinds_of, has_words, found, lasting_form};

use sat_script::Kind;

/// The form of an act that a script for sites that last has beside the plain ones.
#[derive(Clone, Copy, Debug, PartialEq, Eq)]
pub enum LastingForm {
    /// `stop I`
    Stop,
    /// `cut I K B`
    Cut,
}

// The word that the acts of a form begin with.
fn word_of(form: LastingForm) -> &'static [u8]
    ensures { result.now ≡ word_of form }
{
    match form {
        LastingForm::Stop => b"stop".as_slice(),
        LastingForm::Cut => b"cut".as_slice(),
    }
}

/// The kinds of the words after it.
pub(crate) fn kinds_of(form: LastingForm) -> &'static [Kind]
    ensures kinds { result.now ≡ kinds_of form }
    ensures few { length result.now ≤ 3 }
{
    match form {
        LastingForm::Stop => &[Kind::Site],
        LastingForm::Cut => &[Kind::Site, Kind::Count, Kind::Count],
    }
}

// Whether an act of a form begins with a word and has so many more.
fn has_words(form: LastingForm, word: &[u8], count: usize) -> bool
    ensures { result ≡ has_words form word.now count }
{
    kinds_of(form).len() == count && word == word_of(form)
}

// The form of the acts that begin with a word and have so many more, if there is one.
fn found(word: &[u8], count: usize) -> Option<LastingForm>
    ensures { result ≡ found word.now count }
{
    if has_words(LastingForm::Stop, word, count) {
        return Some(LastingForm::Stop);
    }
    if has_words(LastingForm::Cut, word, count) {
        return Some(LastingForm::Cut);
    }
    None
}

/// The form of the stop or cut that words make, if they make one by the first of them and their number.
#[tactic(auto, unfolding(crate::specs::Forms::lasting_form))]
pub fn lasting_form(words: &[&[u8]]) -> Option<LastingForm>
    ensures { result ≡ lasting_form (map (λ word. word.now) words.now) }
{
    let Some((word, words)) = words.split_first() else {
        return None;
    };
    found(word, words.len())
}
