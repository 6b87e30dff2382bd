//! What is printed of a dump as CSV.
ghost use Rattle.std.specs.Prelude.{◌≡◌, [], ◌++◌, option_map, OnOk, IfOk};
ghost use Rattle.hex.specs.Hex.{encode_lower};
ghost use Rattle.cmd_check.specs.CheckRows.{field_if};
ghost use Rattle.cmd_check.specs.Checks.{dump_fields, label_fields, count_fields, state_fields, check_fields, check_row};

use crate::doubt::push_doubts;
use d64_files::{disk_dos, disk_id, disk_name};
use d64_image::Image;
use d64_map::blocks_free;
use d64_survey::Inspection;
use out_json_csv::{CsvRow, Scratch, end_row};
use std::alloc::AllocError;

/// Appends the file, the number of tracks, and whether there are read codes, to a row.
fn push_dump(
    scratch: &mut Vec<u8>,
    row: &mut CsvRow,
    inspection: &Inspection,
    name: &[u8],
) -> Result<(), AllocError>
    ensures { OnOk result (row.new ≡ row.old ++ dump_fields inspection.now name.now) }
{
    row.push_host_name(scratch, name)?;
    row.push_number(u64::from(inspection.image().tracks()))?;
    row.push_boolean(inspection.codes().is_some())
}

/// Appends the disk's name, its id and its DOS version to a row.
fn push_label(scratch: &mut Vec<u8>, row: &mut CsvRow, image: &Image) -> Result<(), AllocError>
    ensures { OnOk result (row.new ≡ row.old ++ label_fields image.now) }
{
    row.push_name(scratch, disk_name(image))?;
    row.push_name(scratch, disk_id(image))?;
    row.push_name(scratch, disk_dos(image))
}

/// Appends how many slots are used, how many files are whole, how many blocks are free, and how
/// many are neither free nor owned, to a row.
fn push_counts(row: &mut CsvRow, inspection: &Inspection) -> Result<(), AllocError>
    ensures { OnOk result (row.new ≡ row.old ++ count_fields inspection.now) }
{
    row.push_number(inspection.entries() as u64)?;
    row.push_number(inspection.whole() as u64)?;
    row.push_number(u64::from(blocks_free(inspection.image())))?;
    row.push_number(inspection.unowned() as u64)
}

/// Appends whether the image is sound, whether something is amiss, and how many faults and read
/// errors there are, to a row.
fn push_state(row: &mut CsvRow, inspection: &Inspection) -> Result<(), AllocError>
    ensures { OnOk result (row.new ≡ row.old ++ state_fields inspection.now) }
{
    row.push_boolean(inspection.is_sound())?;
    row.push_boolean(inspection.is_amiss())?;
    row.push_number(inspection.faults().len() as u64)?;
    row.push_number(inspection.read_errors().len() as u64)
}

/// Makes the row of a dump, as far as the digest.
fn put_dump_row(
    scratch: &mut Scratch,
    name: &[u8],
    inspection: &Inspection,
) -> Result<(), AllocError>
    ensures { OnOk result (scratch.new.row ≡ check_fields inspection.now name.now) }
{
    scratch.row.clear();
    push_dump(&mut scratch.text, &mut scratch.row, inspection, name)?;
    push_label(&mut scratch.text, &mut scratch.row, inspection.image())?;
    push_counts(&mut scratch.row, inspection)?;
    push_state(&mut scratch.row, inspection)
}

/// Appends a digest in hexadecimal digits to a row, if there is one.
fn push_digest(
    scratch: &mut Vec<u8>,
    row: &mut CsvRow,
    digest: Option<&[u8; 32]>,
) -> Result<(), AllocError>
    ensures { OnOk result (row.new ≡ row.old ++ field_if (option_map encode_lower (option_map (λ d. d.now) digest.entry))) }
{
    match digest {
        Some(digest) => row.push_hexadecimal(scratch, digest),
        None => Ok(()),
    }
}

/// Appends the row of a dump to a text: the name of its file, what is on the disk, how much is
/// wrong with it, the SHA-256 digest of the file's bytes if there is one, and its doubts.
pub(crate) fn check_csv(
    scratch: &mut Scratch,
    name: &[u8],
    inspection: &Inspection,
    digest: Option<&[u8; 32]>,
    out: Vec<u8>,
) -> Result<Vec<u8>, AllocError>
    ensures { IfOk result (λ text. text.items ≡ out.items ++ check_row inspection.now name.now (option_map (λ d. d.now) digest.entry)) }
{
    put_dump_row(scratch, name, inspection)?;
    push_digest(&mut scratch.text, &mut scratch.row, digest)?;
    push_doubts(&mut scratch.text, &mut scratch.row, inspection.doubts())?;
    end_row(&mut scratch.row, b"", out)
}
