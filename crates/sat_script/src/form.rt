//! The forms of lines, and the table of the acts: the word that an act begins with, and the kinds of the words after
//! it.
ghost use Rattle.std.specs.Prelude.{◌≡◌, ◌≤◌, length, Some, IfSome};
ghost use Rattle.sat_script.specs.Dialect.{allows, is_audited, is_chained, is_lasting, is_live, written_by};
ghost use Rattle.sat_script.specs.Table.{word_of, kinds_of, act_forms, found_form};

use sat_label::limits_of;

/// The form of a line whose number is limited: of the header's lines those that come any number of times, and each act.
#[derive(Clone, Copy, Debug, PartialEq, Eq)]
pub enum Form {
    /// `item NAME LIST`
    Item,
    /// `client NAME SITE`
    Client,
    /// `plan stamp`
    PlanStamp,
    /// `plan tree PARENTS / SEATS`
    PlanTree,
    Tick,
    Clock,
    Write,
    /// `writes` with two items
    WritesTwo,
    /// `writes` with three items
    WritesThree,
    /// `writes` with four items
    WritesFour,
    Read,
    Move,
    Leave,
    Attach,
    Gather,
    Emit,
    Pulse,
    Hop,
    Turn,
    /// `bulk` without a number
    Bulk,
    /// `bulk` with a number
    NumberedBulk,
    Beat,
    BeatIn,
    Stamp,
    Close,
    Fall,
    Advance,
    Kill,
    Settle,
}

/// What a word of an act's line stands for.
#[derive(Clone, Copy, Debug, PartialEq, Eq)]
pub enum Kind {
    Client,
    Item,
    Value,
    Site,
    Gear,
    Ts,
    Count,
    Epoch,
    Node,
    Serializer,
}

/// The word that the acts of a form begin with.
pub fn word_of(form: Form) -> &'static [u8]
    ensures { result.now ≡ word_of form }
{
    match form {
        Form::Tick => b"tick".as_slice(),
        Form::Clock => b"clock".as_slice(),
        Form::Write => b"write".as_slice(),
        Form::WritesTwo => b"writes".as_slice(),
        Form::WritesThree => b"writes".as_slice(),
        Form::WritesFour => b"writes".as_slice(),
        Form::Read => b"read".as_slice(),
        Form::Move => b"move".as_slice(),
        Form::Leave => b"leave".as_slice(),
        Form::Attach => b"attach".as_slice(),
        Form::Gather => b"gather".as_slice(),
        Form::Emit => b"emit".as_slice(),
        Form::Pulse => b"pulse".as_slice(),
        Form::Hop => b"hop".as_slice(),
        Form::Turn => b"turn".as_slice(),
        Form::Bulk => b"bulk".as_slice(),
        Form::NumberedBulk => b"bulk".as_slice(),
        Form::Beat => b"beat".as_slice(),
        Form::BeatIn => b"beatin".as_slice(),
        Form::Stamp => b"stamp".as_slice(),
        Form::Close => b"close".as_slice(),
        Form::Fall => b"fall".as_slice(),
        Form::Advance => b"advance".as_slice(),
        Form::Kill => b"kill".as_slice(),
        Form::Settle => b"settle".as_slice(),
        _ => b"".as_slice(),
    }
}

/// The kinds of the words after it.
pub fn kinds_of(form: Form) -> &'static [Kind]
    ensures kinds { result.now ≡ kinds_of form }
    ensures few { length result.now ≤ 9 }
{
    match form {
        Form::Tick => &[Kind::Site, Kind::Gear, Kind::Ts],
        Form::Write => &[Kind::Client, Kind::Item, Kind::Value],
        Form::WritesTwo => &[
            Kind::Client,
            Kind::Item,
            Kind::Value,
            Kind::Item,
            Kind::Value,
        ],
        Form::WritesThree => &[
            Kind::Client,
            Kind::Item,
            Kind::Value,
            Kind::Item,
            Kind::Value,
            Kind::Item,
            Kind::Value,
        ],
        Form::WritesFour => &[
            Kind::Client,
            Kind::Item,
            Kind::Value,
            Kind::Item,
            Kind::Value,
            Kind::Item,
            Kind::Value,
            Kind::Item,
            Kind::Value,
        ],
        Form::Read => &[Kind::Client, Kind::Item],
        Form::Move => &[Kind::Client, Kind::Site],
        Form::Leave => &[Kind::Client],
        Form::Attach => &[Kind::Client, Kind::Site],
        Form::Gather => &[Kind::Site],
        Form::Emit => &[Kind::Site],
        Form::Pulse => &[Kind::Site],
        Form::Hop => &[Kind::Epoch, Kind::Node, Kind::Serializer],
        Form::Turn => &[Kind::Site],
        Form::Bulk => &[Kind::Site, Kind::Gear, Kind::Site],
        Form::NumberedBulk => &[Kind::Site, Kind::Gear, Kind::Site, Kind::Count],
        Form::Beat => &[Kind::Site, Kind::Site],
        Form::BeatIn => &[Kind::Site, Kind::Site, Kind::Count],
        Form::Stamp => &[Kind::Site],
        Form::Close => &[Kind::Site],
        Form::Fall => &[Kind::Site],
        Form::Advance => &[Kind::Site],
        Form::Kill => &[Kind::Epoch, Kind::Serializer],
        _ => &[],
    }
}

/// The forms of acts, those first that stand in scripts most often.
pub fn act_forms() -> &'static [Form]
    ensures { result.now ≡ act_forms }
{
    &[
        Form::Hop,
        Form::Bulk,
        Form::Turn,
        Form::Tick,
        Form::Write,
        Form::Read,
        Form::Emit,
        Form::Gather,
        Form::NumberedBulk,
        Form::Pulse,
        Form::Beat,
        Form::BeatIn,
        Form::Stamp,
        Form::Move,
        Form::Leave,
        Form::Attach,
        Form::Clock,
        Form::Close,
        Form::Fall,
        Form::Advance,
        Form::Kill,
        Form::Settle,
        Form::WritesTwo,
        Form::WritesThree,
        Form::WritesFour,
    ]
}

/// The form of the acts that begin with a word and have so many more, if there is one among these.
pub fn found_form(word: &[u8], count: usize, forms: &[Form]) -> Option<Form>
    ensures { result ≡ found_form word.now count forms.now }
{
    for form in forms {
        if kinds_of(*form).len() == count && word == word_of(*form) {
            return Some(*form);
        }
    }
    None
}

// The same, of the forms with longer words.
#[inline(always)]
fn long_form_of_one(word: &[u8]) -> Option<Form>
    ensures { IfSome result (λ form. found_form word.now 1 act_forms ≡ Some form) }
{
    if word == b"gather".as_slice() {
        return Some(Form::Gather);
    }
    if word == b"advance".as_slice() {
        return Some(Form::Advance);
    }
    None
}

/// The form of an act whose word has one more behind it.
#[inline(always)]
pub fn form_of_one(word: &[u8]) -> Option<Form>
    ensures { IfSome result (λ form. found_form word.now 1 act_forms ≡ Some form) }
{
    match word {
        [b't', b'u', b'r', b'n'] => Some(Form::Turn),
        [b'e', b'm', b'i', b't'] => Some(Form::Emit),
        [b'p', b'u', b'l', b's', b'e'] => Some(Form::Pulse),
        [b's', b't', b'a', b'm', b'p'] => Some(Form::Stamp),
        _ => long_form_of_one(word),
    }
}

// How many items an act of a form writes under one label, where that may be more than one.
fn written_by(form: Form) -> usize
    ensures { result ≡ written_by form }
{
    match form {
        Form::WritesTwo => 2,
        Form::WritesThree => 3,
        Form::WritesFour => 4,
        _ => 1,
    }
}

/// Whether a script of a format may have lines of a form.
#[tactic(auto, unfolding(crate::specs::Dialect::allows))]
pub fn allows(format: u16, form: Form) -> bool
    ensures { result ≡ allows format form }
{
    written_by(form) <= limits_of(format).written
}

/// Whether a script for nodes on threads may have lines of a form.
#[tactic(auto, unfolding(crate::specs::Dialect::is_live))]
pub fn is_live(form: Form) -> bool
    ensures { result ≡ is_live form }
{
    match form {
        Form::Item => true,
        Form::Client => true,
        Form::PlanStamp => true,
        Form::PlanTree => true,
        Form::Write => true,
        Form::WritesTwo => true,
        Form::WritesThree => true,
        Form::WritesFour => true,
        Form::Read => true,
        Form::Move => true,
        Form::Leave => true,
        Form::Attach => true,
        Form::Close => true,
        Form::Fall => true,
        Form::Kill => true,
        _ => false,
    }
}

/// Whether a history that is judged may have lines of a form.
pub fn is_audited(form: Form) -> bool
    ensures { result ≡ is_audited form }
{
    match form {
        Form::Settle => false,
        _ => true,
    }
}

/// Whether a script for serializers that are chains of replicas may have lines of a form.
pub fn is_chained(form: Form) -> bool
    ensures { result ≡ is_chained form }
{
    match form {
        Form::Hop => false,
        Form::Kill => false,
        Form::Settle => false,
        _ => true,
    }
}

/// Whether a script for sites that last may have lines of a form.
pub fn is_lasting(form: Form) -> bool
    ensures { result ≡ is_lasting form }
{
    match form {
        Form::Clock => false,
        Form::Settle => false,
        _ => true,
    }
}
