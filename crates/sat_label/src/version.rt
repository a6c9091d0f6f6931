//! Versions of items.
ghost use Rattle.std.specs.Prelude.{◌≡◌, IfOk};

use crate::{Label, Value};
use std::alloc::{AllocError, Global};
use std::marker::Model;
use std::sync::Arc;

#[derive(Drop)]
struct Written {
    label: Label,
    value: Value,
}

/// The version that an update makes of an item: the label of the update, and the value. Copies share it, on any
/// threads.
#[derive(Drop)]
pub struct Version {
    written: Arc<Written>,
}

impl Model for Version {
    ghost use Rattle.std.specs.Arc.{arc_value};
    ghost use Rattle.sat_label.specs.Versions as versions;

    ghost Value = { versions.Version };

    ghost view = { λ a. record { label = (arc_value a.written).label; value = (arc_value a.written).value } };
}

impl Version {
    /// The version with this label and this value.
    pub fn new(alloc: Global, label: Label, value: Value) -> Result<Version, AllocError>
        ensures { IfOk result (λ version. version ≡ record { label = label; value = value }) }
    {
        let written = Arc::new(alloc, Written { label, value })?;
        Ok(Version { written })
    }

    /// The label of its update.
    pub fn label(&self) -> Label
        ensures { result ≡ self.now.label }
    {
        self.written.label
    }

    /// Its value.
    pub fn value(&self) -> &Value
        ensures { result.now ≡ self.now.value }
    {
        &self.written.value
    }

    /// The same version again. It takes no memory of its own.
    pub fn copy(&self) -> Result<Version, AllocError>
        ensures { IfOk result (λ version. version ≡ self.now) }
    {
        let written = Arc::try_clone(&self.written)?;
        Ok(Version { written })
    }
}
