//! What is printed of a dump as JSON.
ghost use Rattle.std.specs.Prelude.{◌≡◌, [], ◌∷◌, ◌++◌, option_map, IfOk};
ghost use Rattle.out_json_csv.specs.Values.{PrintsMembers, line_of};
ghost use Rattle.cmd_check.specs.Checks.{dump_members, count_members, state_members, fault_list, error_list, finding_members, digest_members, check_object};

use crate::doubt::put_doubts;
use crate::finding::{put_faults, put_read_errors};
use d64_map::blocks_free;
use d64_survey::Inspection;
use json::Writer;
use out_json_csv::{
    Scratch, into_line, put_boolean, put_hexadecimal, put_image, put_label, put_number,
};
use std::alloc::AllocError;

/// Prints the file, the number of tracks, and whether there are read codes.
fn put_dump(
    scratch: &mut Vec<u8>,
    writer: &mut Writer,
    inspection: &Inspection,
    name: &[u8],
) -> Result<(), AllocError>
    ensures { PrintsMembers result writer.old writer.new (dump_members inspection.now name.now) }
{
    put_image(scratch, writer, name)?;
    put_number(writer, "tracks", u64::from(inspection.image().tracks()))?;
    put_boolean(writer, "codes", inspection.codes().is_some())
}

/// Prints how many slots are used, how many files are whole, how many blocks are free, and how many
/// are neither free nor owned.
fn put_counts(writer: &mut Writer, inspection: &Inspection) -> Result<(), AllocError>
    ensures { PrintsMembers result writer.old writer.new (count_members inspection.now) }
{
    put_number(writer, "entries", inspection.entries() as u64)?;
    put_number(writer, "whole", inspection.whole() as u64)?;
    put_number(writer, "free", u64::from(blocks_free(inspection.image())))?;
    put_number(writer, "unowned", inspection.unowned() as u64)
}

/// Prints whether the image is sound, and whether something is amiss.
fn put_state(writer: &mut Writer, inspection: &Inspection) -> Result<(), AllocError>
    ensures { PrintsMembers result writer.old writer.new (state_members inspection.now) }
{
    put_boolean(writer, "sound", inspection.is_sound())?;
    put_boolean(writer, "amiss", inspection.is_amiss())
}

/// Prints all faults.
fn put_fault_list(
    scratch: &mut Vec<u8>,
    writer: &mut Writer,
    inspection: &Inspection,
) -> Result<(), AllocError>
    ensures { PrintsMembers result writer.old writer.new (fault_list inspection.now ∷ []) }
{
    writer.key("faults")?;
    put_faults(scratch, writer, inspection.survey(), inspection.faults())
}

/// Prints all read errors.
fn put_error_list(
    scratch: &mut Vec<u8>,
    writer: &mut Writer,
    inspection: &Inspection,
) -> Result<(), AllocError>
    ensures { PrintsMembers result writer.old writer.new (error_list inspection.now ∷ []) }
{
    writer.key("read_errors")?;
    put_read_errors(
        scratch,
        writer,
        inspection.survey(),
        inspection.read_errors(),
    )
}

/// Prints all faults and all read errors.
fn put_findings(
    scratch: &mut Vec<u8>,
    writer: &mut Writer,
    inspection: &Inspection,
) -> Result<(), AllocError>
    ensures { PrintsMembers result writer.old writer.new (finding_members inspection.now) }
{
    put_fault_list(scratch, writer, inspection)?;
    put_error_list(scratch, writer, inspection)
}

/// Prints a digest, if there is one.
fn put_digest(
    scratch: &mut Vec<u8>,
    writer: &mut Writer,
    digest: Option<&[u8; 32]>,
) -> Result<(), AllocError>
    ensures { PrintsMembers result writer.old writer.new (digest_members (option_map (λ d. d.now) digest.entry)) }
{
    match digest {
        Some(digest) => put_hexadecimal(scratch, writer, "sha256", digest),
        None => Ok(()),
    }
}

/// Appends the line of a dump to a text: an object of JSON with the name of its file, what is on
/// the disk, what is wrong with it, the SHA-256 digest of the file's bytes if there is one, and its
/// doubts.
pub(crate) fn check_json(
    scratch: &mut Scratch,
    name: &[u8],
    inspection: &Inspection,
    digest: Option<&[u8; 32]>,
    out: Vec<u8>,
) -> Result<Vec<u8>, AllocError>
    ensures { IfOk result (λ text. text.items ≡ out.items ++ line_of (check_object inspection.now name.now (option_map (λ d. d.now) digest.entry))) }
{
    let start = out.len();
    let mut writer = Writer::new(out);
    writer.begin_object()?;
    put_dump(&mut scratch.text, &mut writer, inspection, name)?;
    put_label(&mut scratch.text, &mut writer, inspection.image())?;
    put_counts(&mut writer, inspection)?;
    put_state(&mut writer, inspection)?;
    put_findings(&mut scratch.text, &mut writer, inspection)?;
    put_digest(&mut scratch.text, &mut writer, digest)?;
    put_doubts(&mut writer, inspection.doubts())?;
    writer.end_object()?;
    let text = into_line(writer, start)?;
    Ok(text)
}
