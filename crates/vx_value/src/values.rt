//! The parts of nested values, shared.

ghost use Rattle.std.specs.Prelude.{◌≡◌, IfOk};
ghost use Rattle.vx_value.specs.Errors.{OnlyOutOfMemory};
ghost use Rattle.vx_value.specs.View.{cell_of, values_of};
ghost use Rattle.vx_value.specs.Values.{count};

use crate::{ScalarValue, VortexResult};
use std::alloc::{AllocError, Global};
use std::marker::Model;
use std::ops::Deref;
use std::rc::Rc;

/// Values, in order, shared: the elements of a list, the entries of a map, or the fields of a struct. `None` is null. A contract
/// sees the list of the values.
#[cycle(value)]
#[derive(Debug, Drop)]
pub struct ScalarValues {
    pub(crate) items: Rc<Vec<Option<ScalarValue>>>,
}

impl Model for ScalarValues {
    ghost use Rattle.vx_value.specs.Values.{Values, coded_values, values_height};

    ghost Value = { Values };

    ghost coded = { coded_values };

    ghost use Rattle.vx_value.specs.View.{values_of};

    ghost view = { λ a. values_of a.items.value.items };

    ghost size = { values_height };

    ghost use Rattle.std.proofs.Common.{arith};
    ghost use Rattle.vx_value.specs.ValueFalls.{values_below};

    ghost size_decreases = { λ a h. omega (arith, values_below a.items.value.items) };
}

/// A value, shared. `None` is null. A contract sees the value.
#[cycle(value)]
#[derive(Debug, Drop)]
pub struct ValueRef {
    pub(crate) value: Rc<Option<ScalarValue>>,
}

impl Model for ValueRef {
    ghost use Rattle.vx_value.specs.Values as values;
    ghost use Rattle.vx_value.specs.Values.{coded_value, height};

    ghost Value = { values.Value };

    ghost coded = { coded_value };

    ghost use Rattle.vx_value.specs.View.{cell_of};

    ghost view = { λ a. cell_of a.value.value };

    ghost size = { height };

    ghost use Rattle.std.proofs.Common.{arith};
    ghost use Rattle.vx_value.specs.ValueFalls.{cell_below};

    ghost size_decreases = { λ a h. omega (arith, cell_below a.value.value) };
}

impl Clone for ScalarValues {
    ghost is_clone = { λ a b. b ≡ a };

    /// Returns the same values, shared.
    fn clone(&self) -> Result<ScalarValues, AllocError> {
        Ok(ScalarValues {
            items: self.items.clone()?,
        })
    }
}

impl Clone for ValueRef {
    ghost is_clone = { λ a b. b ≡ a };

    /// Returns the same value, shared.
    fn clone(&self) -> Result<ValueRef, AllocError> {
        Ok(ValueRef {
            value: self.value.clone()?,
        })
    }
}

impl ScalarValues {
    /// Makes shared values of `items`, which aren't copied. `None` is null. Fails only with `OutOfMemory`.
    pub fn new(alloc: Global, items: Vec<Option<ScalarValue>>) -> VortexResult<ScalarValues>
        ensures ok { IfOk result (λ vs. vs ≡ values_of items.items) }
        ensures err { OnlyOutOfMemory result }
    {
        Ok(ScalarValues {
            items: Rc::new(alloc, items)?,
        })
    }

    /// Returns the values, in order.
    pub fn as_slice(&self) -> &[Option<ScalarValue>]
        ensures { values_of result.now ≡ self.now }
    {
        self.items.as_slice()
    }

    /// Returns the number of values.
    #[tactic(auto, using(crate::proofs::TypedLemmas::count_length))]
    pub fn len(&self) -> usize
        ensures { result ≡ count self.now }
    {
        self.items.len()
    }
}

impl ValueRef {
    /// Makes a shared value. `None` is null. Fails only with `OutOfMemory`.
    pub fn new(alloc: Global, value: Option<ScalarValue>) -> VortexResult<ValueRef>
        ensures ok { IfOk result (λ v. v ≡ cell_of value) }
        ensures err { OnlyOutOfMemory result }
    {
        Ok(ValueRef {
            value: Rc::new(alloc, value)?,
        })
    }
}

impl Deref for ValueRef {
    type Target = Option<ScalarValue>;

    ghost deref_gives = { λ v o. cell_of o ≡ v };

    fn deref(&self) -> &Option<ScalarValue> {
        &self.value
    }
}
