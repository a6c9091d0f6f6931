//! The values of an update.
ghost use Rattle.std.specs.Prelude.{◌≡◌, [], ◌∷◌, IfOk};

use crate::Value;
use std::alloc::{AllocError, Global};
use std::marker::Model;

/// The values that an update gives to its items, in their order. Contracts see the list of them.
#[derive(Drop)]
pub struct Values {
    values: Vec<Value>,
}

impl Model for Values {
    ghost use Rattle.std.specs.Prelude.{List, ℕ};

    ghost Value = { List (List ℕ) };

    ghost view = { λ a. a.values.items };
}

fn copy_values(alloc: Global, values: &[Value]) -> Result<Vec<Value>, AllocError>
    ensures { IfOk result (λ copy. copy.items ≡ values.now) }
{
    let mut copy = Vec::with_capacity(alloc, values.len())?;
    for value in values {
        copy.push(value.copy()?)?;
    }
    Ok(copy)
}

impl Values {
    /// The value of one item.
    pub fn one(alloc: Global, value: Value) -> Result<Values, AllocError>
        ensures { IfOk result (λ values. values ≡ value ∷ []) }
    {
        let mut values = Vec::with_capacity(alloc, 1)?;
        values.push_reserved(value);
        Ok(Values { values })
    }

    /// These values.
    pub fn many(values: Vec<Value>) -> Values
        ensures { result ≡ values.items }
    {
        Values { values }
    }

    /// The values in order.
    pub fn as_slice(&self) -> &[Value]
        ensures { result.now ≡ self.now }
    {
        self.values.as_slice()
    }

    /// The same list again.
    pub fn copy(&self) -> Result<Values, AllocError>
        ensures { IfOk result (λ values. values ≡ self.now) }
    {
        let values = copy_values(*self.values.allocator(), self.values.as_slice())?;
        Ok(Values { values })
    }
}

impl PartialEq for Values {
    ghost use Rattle.std.specs.Prelude.{nat_eq};
    ghost use Rattle.std.specs.Cmp.Lexicographic.{pointwise, lists_per, nat_list_eq_equiv};
    ghost use Rattle.std.specs.Cmp.{partial_equiv_from_equiv};

    ghost eq = { pointwise (pointwise nat_eq) };

    ghost laws = { lists_per (partial_equiv_from_equiv nat_list_eq_equiv) };

    fn eq(&self, other: &Values) -> bool {
        self.as_slice() == other.as_slice()
    }
}

impl Eq for Values {
    ghost use Rattle.std.specs.Cmp.Lexicographic.{lists_equiv, nat_list_eq_equiv};

    ghost laws = { lists_equiv nat_list_eq_equiv };
}
