//! The numbers of names, in order of first appearance.

ghost use Rattle.std.specs.Prelude.{◌≡◌, IfOk, Some, map, string_bytes, slice_get};
ghost use Rattle.script_text.specs.Names.{with_name};

use crate::names::Name;
use indexmap::IndexSet;
use std::alloc::{AllocError, Global};

/// Notes a name, and tells its number.
pub(crate) fn number_of_name(
    alloc: Global,
    names: &mut IndexSet<String>,
    name: &Name<'_>,
) -> Result<usize, AllocError>
    ensures names { IfOk result (λ _. map string_bytes names.new.keys
        ≡ with_name (map string_bytes names.old.keys) name.now) }
    ensures number { IfOk result (λ number.
        slice_get (map string_bytes names.new.keys) number ≡ Some name.now) }
{
    let text = String::from_str(alloc, name.as_str())?;
    let (number, _) = names.insert_full(text)?;
    Ok(number)
}
