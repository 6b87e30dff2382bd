//! Whether something is amiss in the list of the files of a dump.
ghost use Rattle.std.specs.Prelude.{◌≡◌};
ghost use Rattle.d64_inventory.specs.ListingAmiss.{is_directory_unreadable, is_listing_amiss};

use d64_map::map_block;
use d64_survey::{Inspection, any_unreadable, code_of, is_read_error};

/// Whether the map's block or a block of the directory's way has a read error.
fn is_directory_unreadable(all: &Inspection) -> bool
    ensures { result ≡ is_directory_unreadable all.now }
{
    let codes = all.codes();
    is_read_error(code_of(codes, map_block())) || any_unreadable(codes, all.survey().directory())
}

/// Whether something is amiss in the list of the files of a dump: the file of a used slot is known
/// not to be whole; or files may be missing, since the directory's way isn't a whole chain, or 18/0
/// or a block of that way has a read error.
pub fn is_amiss(all: &Inspection) -> bool
    ensures { result ≡ is_listing_amiss all.now }
{
    if all.unwhole() > 0 {
        return true;
    }
    if !all.survey().directory_end().is_whole() {
        return true;
    }
    is_directory_unreadable(all)
}
