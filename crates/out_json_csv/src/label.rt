//! What a disk is called, as JSON.
ghost use Rattle.out_json_csv.specs.Values.{PrintsMembers};
ghost use Rattle.out_json_csv.specs.Names.{label_members};

use crate::name::put_name;
use d64_files::{disk_dos, disk_id, disk_name};
use d64_image::Image;
use json::Writer;
use std::alloc::AllocError;

/// Prints the disk's name, its id and its DOS version.
pub fn put_label(
    scratch: &mut Vec<u8>,
    writer: &mut Writer,
    image: &Image,
) -> Result<(), AllocError>
    ensures { PrintsMembers result writer.old writer.new (label_members image.now) }
{
    put_name(scratch, writer, "name", disk_name(image))?;
    put_name(scratch, writer, "id", disk_id(image))?;
    put_name(scratch, writer, "dos", disk_dos(image))
}
