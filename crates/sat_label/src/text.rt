//! Names and values, as a script spells them.
ghost use Rattle.std.specs.Prelude.{◌≡◌, ◌≤◌, length, take, true, false, IfOk, IfSome, IsNone, ◌↔◌};
ghost use Rattle.std.specs.List.{list_all};
ghost use Rattle.sat_label.specs.Text.{is_between, is_name, is_name_byte, is_value};
ghost use Rattle.sat_label.specs.Kept.{kept_bytes, IsWithin};

use crate::limits::{NAME_BYTES, VALUE_BYTES};
use std::alloc::{AllocError, Global};
use std::marker::Model;
use std::sync::ArcSlice;

// A value of so many bytes is no larger than one whose bytes lie elsewhere.
const SHORT_BYTES: usize = 16;

// A letter, a digit, `_`, `-` or `.`.
fn fits_name(byte: u8) -> bool
    ensures { result ≡ is_name_byte byte }
{
    byte.is_ascii_alphanumeric() || byte == b'_' || byte == b'-' || byte == b'.'
}

fn all_fit_name(text: &[u8]) -> bool
    ensures { result ≡ list_all is_name_byte text.now }
{
    text.iter().all(|&byte| fits_name(byte))
}

/// Whether these bytes are a name.
pub fn spells_name(text: &[u8]) -> bool
    ensures { result ≡ is_name text.now }
{
    0 < text.len() && text.len() <= NAME_BYTES && all_fit_name(text)
}

// No branch asks for a byte, so that several are tested at once.
fn all_visible(bytes: &[u8]) -> bool
    ensures { result ≡ list_all (is_between 33 126) bytes.now }
{
    let mut all = true;
    for byte in bytes {
        all &= (33 <= *byte) & (*byte <= 126);
    }
    all
}

/// Whether these bytes are a value.
pub fn spells_value(bytes: &[u8]) -> bool
    ensures { result ≡ is_value bytes.now }
{
    0 < bytes.len() && bytes.len() <= VALUE_BYTES && all_visible(bytes)
}

/// A name of an item or a client: 1 to 32 letters, digits, `_`, `-` or `.`. Contracts see its bytes.
#[derive(Drop)]
pub struct Name {
    text: String,
}

impl Model for Name {
    ghost use Rattle.std.specs.Prelude.{List, ℕ, ◌≡◌, true, string_bytes};
    ghost use Rattle.sat_label.specs.Text.{is_name};

    ghost Value = { List ℕ };

    ghost view = { λ a. string_bytes a.text };

    ghost invariant = { λ a. is_name (string_bytes a.text) ≡ true };
}

impl Name {
    /// The name with these bytes, None where they are no name.
    #[tactic(auto, using(crate::proofs::Names::is_text))]
    pub fn of(alloc: Global, text: &[u8]) -> Result<Option<Name>, AllocError>
        ensures none { IfOk result (λ o. IsNone o ↔ (is_name text.now ≡ false)) }
        ensures some { IfOk result (λ o. IfSome o (λ name. name ≡ text.now)) }
    {
        if !spells_name(text) {
            return Ok(None);
        }
        // The bytes of a name are ASCII, and so are text.
        let Ok(text) = std::str::from_utf8(text) else {
            unreachable!();
        };
        let text = String::from_str(alloc, text)?;
        Ok(Some(Name { text }))
    }

    /// Its bytes.
    pub fn bytes(&self) -> &[u8]
        ensures bytes { result.now ≡ self.now }
        ensures name { is_name self.now ≡ true }
    {
        self.text.as_bytes()
    }

    /// It as text.
    pub fn as_str(&self) -> &str
        ensures text { result.now ≡ self.now }
        ensures name { is_name self.now ≡ true }
    {
        self.text.as_str()
    }

    /// The same name again.
    pub fn copy(&self) -> Result<Name, AllocError>
        ensures { IfOk result (λ name. name ≡ self.now) }
    {
        let text = self.text.clone()?;
        Ok(Name { text })
    }
}

impl PartialEq for Name {
    ghost use Rattle.std.specs.Prelude.{nat_eq};
    ghost use Rattle.std.specs.Cmp.Lexicographic.{pointwise, nat_list_eq_equiv};
    ghost use Rattle.std.specs.Cmp.{partial_equiv_from_equiv};

    ghost eq = { pointwise nat_eq };

    ghost laws = { partial_equiv_from_equiv nat_list_eq_equiv };

    fn eq(&self, other: &Name) -> bool {
        self.text.as_str() == other.text.as_str()
    }
}

impl Eq for Name {
    ghost use Rattle.std.specs.Cmp.Lexicographic.{nat_list_eq_equiv};

    ghost laws = { nat_list_eq_equiv };
}

// So many bytes, the first of an array. Its parts are as wide as those of a long value, so that it is copied fast.
#[derive(Clone, Copy)]
struct Inline {
    count: usize,
    bytes: [u8; SHORT_BYTES],
}

// The bytes of a short value lie in the value itself, so that it takes no memory of its own; those of a long one lie
// elsewhere, once for all its copies.
#[derive(Drop)]
enum Kept {
    Short(Inline),
    Long(ArcSlice<u8>),
}

fn short(bytes: &[u8]) -> Inline
    requires { length bytes.now ≤ SHORT_BYTES }
    ensures { (result.count ≡ length bytes.now) × (take result.count result.bytes ≡ bytes.now) }
{
    let mut inline = [0; SHORT_BYTES];
    inline[..bytes.len()].copy_from_slice(bytes);
    Inline {
        count: bytes.len(),
        bytes: inline,
    }
}

fn keep(alloc: Global, bytes: &[u8]) -> Result<Kept, AllocError>
    ensures { IfOk result (λ kept. (kept_bytes kept ≡ bytes.now) × IsWithin kept) }
{
    if bytes.len() <= SHORT_BYTES {
        return Ok(Kept::Short(short(bytes)));
    }
    let bytes = ArcSlice::from_slice(alloc, bytes)?;
    Ok(Kept::Long(bytes))
}

/// A value of an item: 1 to 256 bytes from 33 to 126. Contracts see its bytes.
#[derive(Drop)]
pub struct Value {
    kept: Kept,
}

impl Model for Value {
    ghost use Rattle.std.specs.Prelude.{List, ℕ, ◌≡◌, true};
    ghost use Rattle.sat_label.specs.Text.{is_value};
    ghost use Rattle.sat_label.specs.Kept.{kept_bytes, IsWithin};

    ghost Value = { List ℕ };

    ghost view = { λ a. kept_bytes a.kept };

    ghost invariant = { λ a. (is_value (kept_bytes a.kept) ≡ true) × IsWithin a.kept };
}

impl Value {
    /// The value with these bytes, None where they are no value.
    pub fn of(alloc: Global, bytes: &[u8]) -> Result<Option<Value>, AllocError>
        ensures none { IfOk result (λ o. IsNone o ↔ (is_value bytes.now ≡ false)) }
        ensures some { IfOk result (λ o. IfSome o (λ value. value ≡ bytes.now)) }
    {
        if !spells_value(bytes) {
            return Ok(None);
        }
        let kept = keep(alloc, bytes)?;
        Ok(Some(Value { kept }))
    }

    /// Its bytes.
    pub fn bytes(&self) -> &[u8]
        ensures bytes { result.now ≡ self.now }
        ensures value { is_value self.now ≡ true }
    {
        match &self.kept {
            Kept::Short(inline) => &inline.bytes[..inline.count],
            Kept::Long(bytes) => bytes.as_slice(),
        }
    }

    /// The same value again.
    pub fn copy(&self) -> Result<Value, AllocError>
        ensures { IfOk result (λ value. value ≡ self.now) }
    {
        match &self.kept {
            Kept::Short(inline) => Ok(Value {
                kept: Kept::Short(*inline),
            }),
            Kept::Long(bytes) => {
                let bytes = bytes.clone()?;
                Ok(Value {
                    kept: Kept::Long(bytes),
                })
            }
        }
    }
}

impl PartialEq for Value {
    ghost use Rattle.std.specs.Prelude.{nat_eq};
    ghost use Rattle.std.specs.Cmp.Lexicographic.{pointwise, nat_list_eq_equiv};
    ghost use Rattle.std.specs.Cmp.{partial_equiv_from_equiv};

    ghost eq = { pointwise nat_eq };

    ghost laws = { partial_equiv_from_equiv nat_list_eq_equiv };

    fn eq(&self, other: &Value) -> bool {
        self.bytes() == other.bytes()
    }
}

impl Eq for Value {
    ghost use Rattle.std.specs.Cmp.Lexicographic.{nat_list_eq_equiv};

    ghost laws = { nat_list_eq_equiv };
}
