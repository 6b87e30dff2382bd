//! The directory of a sound disk.
ghost use Rattle.std.specs.Prelude.{◌≡◌, true, IfOk, OnOk};
ghost use Rattle.d64_files.specs.FirstFault.{err_of, first_fault, sound_conditions};
ghost use Rattle.d64_effects.specs.View.{IsSound};

use d64_files::fault_laws::first_fault_is_the_first;
use d64_files::{DirFault, Directory, checked};
use d64_image::Image;

/// The directory of a sound disk, or the first condition of a sound image that fails. `is_sound`
/// may be true only if the disk is sound: then it isn't tested again.
pub(crate) fn sound_directory(image: &Image, is_sound: bool) -> Result<Directory<'_>, DirFault>
    requires { is_sound ≡ true → IsSound image.now }
    ensures image { IfOk result (λ directory. directory ≡ image.now) }
    ensures sound { OnOk result (IsSound image.now) }
    ensures first { err_of result ≡ first_fault image.now sound_conditions }
{
    first_fault_is_the_first();
    if is_sound {
        return Directory::of(image);
    }
    let (directory, _owned) = checked(image)?;
    Ok(directory)
}
