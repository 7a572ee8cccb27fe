//! A column of an extension type.

ghost use Rattle.serde_json.specs.View.{view};
ghost use Rattle.vx_json.specs.Refused.{IsRead};
ghost use Rattle.vx_json.specs.SpelledNodes.Extension.{extension_spelled};

use crate::BAD_VALUE;
use crate::fields::{check_keys, text};
use serde_json::Value;
use std::alloc::Global;
use vx_tree::{ArrayRef, ExtensionArray, IntoArray};
use vx_value::{Name, VortexError, VortexResult};

/// Reads a column of an extension type that is stored as `storage`, if its id isn't empty.
pub(crate) fn read(alloc: Global, value: &Value, storage: ArrayRef) -> VortexResult<ArrayRef>
    ensures { IsRead (extension_spelled (view value.now) storage) result }
{
    check_keys(value, 3)?;
    let Some(id) = text(value, "id") else {
        return Err(BAD_VALUE);
    };
    let id = Name::new(alloc, String::from_str(alloc, id)?)?;
    match ExtensionArray::try_new(alloc, id, storage) {
        Ok(node) => Ok(node.into_array()),
        Err(VortexError::OutOfMemory) => Err(VortexError::OutOfMemory),
        Err(_) => Err(BAD_VALUE),
    }
}
