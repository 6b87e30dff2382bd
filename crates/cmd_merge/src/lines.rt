//! What is printed of a merge for people.
ghost use Rattle.std.specs.Prelude.{◌≡◌, ◌++◌, map, option_map, string_bytes, OnOk};
ghost use Rattle.std.specs.List.{flat_map};
ghost use Rattle.hex.specs.Hex.{encode_lower};
ghost use Rattle.cmd_merge.specs.Lines.{codes_text, outcome_text, source_text, error_text, copy_text, error_of, error_at, error_texts, choice_text, line_of_choice, lines_of_choices, count_if_any, settled_text, differing_text, counts_text, merged_size_text, listed_entry, left_line, left_text, unwritten_text, digest_text, first_line, text_report};

use crate::objects::{Summary, entry_text, name_at};
use d64_image::BlockNo;
use d64_merge::{BlockOutcome, Choice, count_of, dump_at, is_outcome, known_code};
use d64_survey::{Dump, drive_status, is_read_error};
use hex::encode_to_slice;
use host_storage::push_shown;
use out_messages::{push_block, push_count, push_number, push_status};
use std::alloc::AllocError;

/// Returns what is printed of an outcome, before the name of the file whose bytes were taken.
fn outcome_text(outcome: BlockOutcome) -> &'static [u8]
    ensures { result.now ≡ outcome_text outcome }
{
    match outcome {
        BlockOutcome::Same => b" is the same in all: ",
        BlockOutcome::Taken => b" taken from ",
        BlockOutcome::Lost => b" lost: no dump has a good copy; the bytes are those of ",
        BlockOutcome::Majority =>
            b" differs: taken, as in more than half of the good copies, from ",
        BlockOutcome::First => b" differs: taken from the first good copy, in ",
        BlockOutcome::Conflict => b" differs in good copies, and none of them is taken",
    }
}

/// Appends the name of the file whose bytes were taken, if there is one.
fn push_source(out: &mut Vec<u8>, name: Option<&String>) -> Result<(), AllocError>
    ensures { OnOk result (out.new.items ≡ out.old.items ++ source_text (option_map (λ name. string_bytes name.now) name.entry)) }
{
    match name {
        Some(name) => push_shown(out, name.as_bytes()),
        None => Ok(()),
    }
}

/// Appends the read error of a block after the name of a file, if the code is a read error.
fn push_error(out: &mut Vec<u8>, name: &[u8], code: u8) -> Result<(), AllocError>
    ensures { OnOk result (out.new.items ≡ out.old.items ++ error_text name.now code) }
{
    if !is_read_error(code) {
        return Ok(());
    }
    out.extend_from_slice(b"; ")?;
    push_shown(out, name)?;
    out.extend_from_slice(b": code ")?;
    push_number(out, usize::from(code))?;
    push_status(out, drive_status(code))
}

/// Appends the read error of a block that may have no code.
fn push_copy(out: &mut Vec<u8>, name: &[u8], code: Option<u8>) -> Result<(), AllocError>
    ensures { OnOk result (out.new.items ≡ out.old.items ++ copy_text name.now code) }
{
    match code {
        Some(code) => push_error(out, name, code),
        None => Ok(()),
    }
}

/// Appends the read error of a block in the dump of a file, or nothing if one of them is missing.
fn push_error_of(
    out: &mut Vec<u8>,
    block: BlockNo,
    name: Option<&String>,
    dump: Option<&Dump>,
) -> Result<(), AllocError>
    ensures { OnOk result (out.new.items ≡ out.old.items ++ error_of block (option_map (λ name. string_bytes name.now) name.entry) (option_map (λ dump. dump.now) dump.entry)) }
{
    match (name, dump) {
        (Some(name), Some(dump)) => push_copy(out, name.as_bytes(), known_code(dump, block)),
        (None, _) | (Some(_), None) => Ok(()),
    }
}

/// Appends the read error of a block in the dump at a place, if there is one.
fn push_error_at(
    out: &mut Vec<u8>,
    block: BlockNo,
    names: &[String],
    dumps: &[Dump],
    place: usize,
) -> Result<(), AllocError>
    ensures { OnOk result (out.new.items ≡ out.old.items ++ error_at block (map string_bytes names.now) dumps.now place) }
{
    push_error_of(
        out,
        block,
        name_at(names, Some(place)),
        dump_at(dumps, Some(place)),
    )
}

/// Appends the read errors of a block in all dumps, each after the name of its file.
fn push_errors(
    out: &mut Vec<u8>,
    block: BlockNo,
    names: &[String],
    dumps: &[Dump],
) -> Result<(), AllocError>
    ensures { OnOk result (out.new.items ≡ out.old.items ++ error_texts block (map string_bytes names.now) dumps.now) }
{
    for place in 0..dumps.len() {
        push_error_at(out, block, names, dumps, place)?;
    }
    Ok(())
}

/// Appends the line of a block.
#[tactic(auto, unfolding(crate::specs::Lines::choice_text))]
fn push_choice(
    out: &mut Vec<u8>,
    names: &[String],
    dumps: &[Dump],
    choice: &Choice,
) -> Result<(), AllocError>
    ensures { OnOk result (out.new.items ≡ out.old.items ++ choice_text (map string_bytes names.now) dumps.now choice.now) }
{
    out.extend_from_slice(b"  ")?;
    push_block(out, choice.block)?;
    out.extend_from_slice(outcome_text(choice.outcome))?;
    push_source(out, name_at(names, choice.source))?;
    push_errors(out, choice.block, names, dumps)?;
    out.extend_from_slice(b"\n")
}

/// Appends the line of a block, unless the block is the same in all dumps.
fn push_line(
    out: &mut Vec<u8>,
    names: &[String],
    dumps: &[Dump],
    choice: &Choice,
) -> Result<(), AllocError>
    ensures { OnOk result (out.new.items ≡ out.old.items ++ line_of_choice (map string_bytes names.now) dumps.now choice.now) }
{
    if is_outcome(BlockOutcome::Same, choice.outcome) {
        return Ok(());
    }
    push_choice(out, names, dumps, choice)
}

/// Appends the lines of the blocks that aren't the same in all dumps.
#[tactic(auto, unfolding(crate::specs::Lines::lines_of_choices))]
fn push_choices(
    out: &mut Vec<u8>,
    names: &[String],
    dumps: &[Dump],
    list: &[Choice],
) -> Result<(), AllocError>
    ensures { OnOk result (out.new.items ≡ out.old.items ++ lines_of_choices (map string_bytes names.now) dumps.now list.now) }
{
    for choice in list {
        push_line(out, names, dumps, choice)?;
    }
    Ok(())
}

/// Appends a number of blocks and a word for what became of them, or nothing if it is 0.
#[tactic(auto, unfolding(crate::specs::Lines::count_if_any))]
fn push_if_any(out: &mut Vec<u8>, count: usize, word: &[u8]) -> Result<(), AllocError>
    ensures { OnOk result (out.new.items ≡ out.old.items ++ count_if_any count word.now) }
{
    if count == 0 {
        return Ok(());
    }
    out.extend_from_slice(b", ")?;
    push_number(out, count)?;
    out.extend_from_slice(word)
}

/// Appends how many blocks are the same in all dumps, taken, or lost.
#[tactic(auto, unfolding(crate::specs::Lines::settled_text))]
fn push_settled(out: &mut Vec<u8>, list: &[Choice]) -> Result<(), AllocError>
    ensures { OnOk result (out.new.items ≡ out.old.items ++ settled_text list.now) }
{
    push_number(out, count_of(BlockOutcome::Same, list))?;
    out.extend_from_slice(b" the same in all dumps")?;
    push_if_any(out, count_of(BlockOutcome::Taken, list), b" taken")?;
    push_if_any(out, count_of(BlockOutcome::Lost, list), b" lost")
}

/// Appends how many blocks whose good copies differ have each outcome.
#[tactic(auto, unfolding(crate::specs::Lines::differing_text))]
fn push_differing(out: &mut Vec<u8>, list: &[Choice]) -> Result<(), AllocError>
    ensures { OnOk result (out.new.items ≡ out.old.items ++ differing_text list.now) }
{
    push_if_any(out, count_of(BlockOutcome::Majority, list), b" by majority")?;
    push_if_any(
        out,
        count_of(BlockOutcome::First, list),
        b" from the first good copy",
    )?;
    push_if_any(out, count_of(BlockOutcome::Conflict, list), b" in conflict")
}

/// Appends how many blocks have each outcome.
fn push_counts(out: &mut Vec<u8>, list: &[Choice]) -> Result<(), AllocError>
    ensures { OnOk result (out.new.items ≡ out.old.items ++ counts_text list.now) }
{
    push_settled(out, list)?;
    push_differing(out, list)
}

/// Returns what is printed after the number of tracks: whether there are read codes.
fn codes_text(with_codes: bool) -> &'static [u8]
    ensures { result.now ≡ codes_text with_codes }
{
    if with_codes {
        b" tracks with read codes, "
    } else {
        b" tracks, "
    }
}

/// Appends how many tracks and blocks the dump has, and whether it has read codes.
#[tactic(auto, unfolding(crate::specs::Lines::merged_size_text))]
fn push_size(
    out: &mut Vec<u8>,
    tracks: u8,
    with_codes: bool,
    list: &[Choice],
) -> Result<(), AllocError>
    ensures { OnOk result (out.new.items ≡ out.old.items ++ merged_size_text tracks with_codes list.now) }
{
    push_number(out, usize::from(tracks))?;
    out.extend_from_slice(codes_text(with_codes))?;
    push_count(out, list.len(), b"block")?;
    out.extend_from_slice(b": ")
}

/// Appends the line of the file that is made.
#[tactic(auto, unfolding(crate::specs::Lines::first_line))]
fn push_first(out: &mut Vec<u8>, summary: &Summary) -> Result<(), AllocError>
    ensures { OnOk result (out.new.items ≡ out.old.items ++ first_line summary.now.out.now summary.now.tracks summary.now.with_codes summary.now.list.now) }
{
    push_shown(out, summary.out)?;
    out.extend_from_slice(b": ")?;
    push_size(out, summary.tracks, summary.with_codes, summary.list)?;
    push_counts(out, summary.list)?;
    out.extend_from_slice(b"\n")
}

/// Appends the tracks of entries, each after a space.
fn push_entries(out: &mut Vec<u8>, left: &[u8]) -> Result<(), AllocError>
    ensures { OnOk result (out.new.items ≡ out.old.items ++ flat_map listed_entry left.now) }
{
    for entry in left {
        out.extend_from_slice(b" ")?;
        out.extend_from_slice(entry_text(*entry).as_bytes())?;
    }
    Ok(())
}

/// Appends the line of the tracks of G64 files that hold what the dump lacks.
#[tactic(auto, unfolding(crate::specs::Lines::left_line))]
fn push_left_line(out: &mut Vec<u8>, left: &[u8]) -> Result<(), AllocError>
    ensures { OnOk result (out.new.items ≡ out.old.items ++ left_line left.now) }
{
    out.extend_from_slice(b"  blocks that it lacks are on these tracks of a G64:")?;
    push_entries(out, left)?;
    out.extend_from_slice(b"\n")
}

/// Appends that line, if there are such tracks.
fn push_left(out: &mut Vec<u8>, left: &[u8]) -> Result<(), AllocError>
    ensures { OnOk result (out.new.items ≡ out.old.items ++ left_text left.now) }
{
    if left.is_empty() {
        return Ok(());
    }
    push_left_line(out, left)
}

/// Appends a digest in hexadecimal digits.
fn push_digits(out: &mut Vec<u8>, digest: &[u8; 32]) -> Result<(), AllocError>
    ensures { OnOk result (out.new.items ≡ out.old.items ++ encode_lower digest.now) }
{
    let mut digits = [0; 64];
    encode_to_slice(digest, &mut digits).unwrap();
    out.extend_from_slice(&digits)
}

/// Returns the line of a file that was not written, with the options that decide on blocks in
/// conflict, if there are any.
fn unwritten_text(conflicts: usize) -> &'static [u8]
    ensures { result.now ≡ unwritten_text conflicts }
{
    if conflicts == 0 {
        b"  not written\n"
    } else {
        b"  not written: of good copies that differ, --majority takes what more than half have, --first the first one\n"
    }
}

/// Appends the line of the digest of the file that was made, or that none was written.
fn push_digest(
    out: &mut Vec<u8>,
    digest: Option<&[u8; 32]>,
    conflicts: usize,
) -> Result<(), AllocError>
    ensures { OnOk result (out.new.items ≡ out.old.items ++ digest_text (option_map (λ d. d.now) digest.entry) conflicts) }
{
    match digest {
        Some(digest) => {
            out.extend_from_slice(b"  SHA-256 ")?;
            push_digits(out, digest)?;
            out.extend_from_slice(b"\n")
        }
        None => out.extend_from_slice(unwritten_text(conflicts)),
    }
}

/// Appends all that is printed of a merge for people.
#[tactic(auto, unfolding(crate::specs::Lines::text_report))]
pub(crate) fn push_report(
    out: &mut Vec<u8>,
    names: &[String],
    dumps: &[Dump],
    summary: &Summary,
) -> Result<(), AllocError>
    ensures { OnOk result (out.new.items ≡ out.old.items ++ text_report summary.now.out.now summary.now.tracks summary.now.with_codes (map string_bytes names.now) dumps.now summary.now.list.now summary.now.left.now (option_map (λ d. d.now) summary.now.digest)) }
{
    push_first(out, summary)?;
    push_choices(out, names, dumps, summary.list)?;
    push_left(out, summary.left)?;
    push_digest(
        out,
        summary.digest,
        count_of(BlockOutcome::Conflict, summary.list),
    )
}
