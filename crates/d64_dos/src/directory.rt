//! Listing the directory.
ghost use Rattle.std.specs.Prelude.{◌≡◌, IfOk};
ghost use Rattle.d64_dos.specs.Listing.{listing_of, shown_listing};
ghost use Rattle.d64_dos.specs.Reading.{directory_refusal};
ghost use Rattle.d64_dos.specs.Refusal.{refused_by};

use crate::refusal::Refusal;
use crate::row::{Listing, rows_of};
use d64_files::{DOS_VERSION_START, ID_START, Slots, disk_name, header_of};
use d64_image::Image;
use d64_map::blocks_free;
use std::alloc::Global;

/// Lists the directory of an image. Neither the map's counts nor the files' chains need be right.
///
/// The error is `Directory` if there is no chain of blocks from track 18, sector 1 (`NoDirectory`),
/// or else if the low four bits of a slot's type byte are above 4 (`UnknownKind`), and otherwise
/// `Memory`.
pub fn listing(alloc: Global, image: &Image) -> Result<Listing, Refusal>
    ensures refused { refused_by result ≡ directory_refusal image.now }
    ensures listing { IfOk result (λ listing. shown_listing listing ≡ listing_of image.now) }
{
    let walk = Slots::of(image)?;
    let header = header_of(image);
    Ok(Listing {
        name: Vec::from_slice(alloc, disk_name(image))?,
        id: [header[ID_START], header[ID_START + 1]],
        dos: [header[DOS_VERSION_START], header[DOS_VERSION_START + 1]],
        rows: rows_of(alloc, walk)?,
        free: blocks_free(image),
    })
}
