//! Lists that grow if there is something to list.
ghost use Rattle.std.specs.Prelude.{◌≡◌, if◌then◌else◌, [], ◌∷◌, ◌++◌, OnOk};

use std::alloc::AllocError;

/// Appends an item if there is one to list.
pub(crate) fn push_if<T: Copy>(list: &mut Vec<T>, item: T, is_asked: bool) -> Result<(), AllocError>
    ensures { OnOk result (list.new.items ≡ list.old.items ++ (if is_asked then item ∷ [] else [])) }
{
    if !is_asked {
        return Ok(());
    }
    list.push(item)?;
    Ok(())
}
