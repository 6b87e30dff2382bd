//! The folders in which the folder of an image lies.
ghost use Rattle.std.specs.Prelude.{List, ℕ, Option, map, option_map, string_bytes, MatchResult, None};
ghost use Rattle.cmd_extract.specs.Work.{Work, LeadsTo, DoesWork};
ghost use Rattle.cmd_extract.specs.Unpacking.{folders_work};

use crate::calls::have_folder;
use host_storage::Host;
use std::alloc::AllocError;

/// Makes folders unless they exist, each in the one before it. `start` is the path before the first
/// one, with its slash. Returns the path of the first that cannot be made, or None if all exist then.
pub(crate) fn have_folders<H: Host>(
    host: &mut H,
    start: String,
    folders: &[&str],
) -> Result<Option<String>, AllocError>
    ensures { (rest : Option (List ℕ) → Work) → MatchResult result
        (λ unmade. LeadsTo (folders_work rest (string_bytes start) (map (λ folder. folder.now) folders.now)) (H.state host.old) (rest (option_map string_bytes unmade)) (H.state host.new))
        (λ _. DoesWork (folders_work rest (string_bytes start) (map (λ folder. folder.now) folders.now)) (H.state host.old) None (H.state host.new)) }
{
    let mut place = start;
    for folder in folders {
        place.push_str(folder)?;
        if !have_folder(host, &place) {
            return Ok(Some(place));
        }
        place.push('/')?;
    }
    Ok(None)
}
