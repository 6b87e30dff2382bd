//! What is printed of a merge as JSON.
ghost use Rattle.std.specs.Prelude.{◌≡◌, [], ◌∷◌, ◌++◌, map, option_map, string_bytes, codes, IfOk};
ghost use Rattle.json.specs.Json.{string};
ghost use Rattle.out_json_csv.specs.Values.{Prints, PrintsMembers, array_of, line_of, numeral_or_null};
ghost use Rattle.cmd_merge.specs.Objects.{outcome_word, name_at_place, name_or_null, codes_value, choice_members, codes_members, choice_object, choice_line, choice_lines, entry_text, merged_size_members, count_member, outcome_members, left_members, made_digest_members, summary_object};

use arrayvec::ArrayString;
use d64_image::BlockNo;
use d64_merge::{BlockOutcome, Choice, count_of, is_outcome, known_code};
use d64_survey::Dump;
use itoa::Buffer;
use json::Writer;
use out_json_csv::{
    Scratch, into_line, put_boolean, put_hexadecimal, put_host_name, put_null, put_number,
    put_pair, put_text,
};
use std::alloc::AllocError;

/// The most bytes of an entry's track: a number below 129, and `.5`.
const ENTRY_LEN: usize = 5;

/// What the summary is printed from.
#[derive(Clone, Copy)]
pub(crate) struct Summary<'a> {
    /// The name of the file that is made.
    pub(crate) out: &'a [u8],
    /// How many tracks the dump has.
    pub(crate) tracks: u8,
    /// Whether the dump has read codes.
    pub(crate) with_codes: bool,
    /// What becomes of each block.
    pub(crate) list: &'a [Choice],
    /// The entries of G64 files that hold what the dump lacks.
    pub(crate) left: &'a [u8],
    /// The digest of the file that was made, or None if none was.
    pub(crate) digest: Option<&'a [u8; 32]>,
}

/// Returns the word for an outcome.
fn outcome_word(outcome: BlockOutcome) -> &'static str
    ensures { result.now ≡ outcome_word outcome }
{
    match outcome {
        BlockOutcome::Same => "same",
        BlockOutcome::Taken => "taken",
        BlockOutcome::Lost => "lost",
        BlockOutcome::Majority => "majority",
        BlockOutcome::First => "first",
        BlockOutcome::Conflict => "conflict",
    }
}

/// Returns the name of the file at a place, or None if there is no place.
pub(crate) fn name_at(names: &[String], place: Option<usize>) -> Option<&String>
    ensures { option_map (λ name. string_bytes name.now) result ≡ name_at_place (map string_bytes names.now) place }
{
    match place {
        Some(place) => names.get(place),
        None => None,
    }
}

/// Prints the name of the file whose bytes were taken, or null.
fn put_source(
    scratch: &mut Vec<u8>,
    writer: &mut Writer,
    name: Option<&String>,
) -> Result<(), AllocError>
    ensures { PrintsMembers result writer.old writer.new ((codes "from", name_or_null (option_map (λ name. string_bytes name.now) name.entry)) ∷ []) }
{
    match name {
        Some(name) => put_host_name(scratch, writer, "from", name.as_bytes()),
        None => put_null(writer, "from"),
    }
}

/// Prints the block, what became of it, and whose bytes were taken.
fn put_choice(
    scratch: &mut Vec<u8>,
    writer: &mut Writer,
    names: &[String],
    choice: &Choice,
) -> Result<(), AllocError>
    ensures { PrintsMembers result writer.old writer.new (choice_members (map string_bytes names.now) choice.now) }
{
    put_pair(writer, "block", choice.block.track(), choice.block.sector())?;
    put_text(writer, "result", outcome_word(choice.outcome))?;
    put_source(scratch, writer, name_at(names, choice.source))
}

/// Prints a read code, or null.
fn put_code(writer: &mut Writer, code: Option<u8>) -> Result<(), AllocError>
    ensures { Prints result writer.old writer.new (numeral_or_null code) }
{
    match code {
        Some(code) => writer.u64(u64::from(code)),
        None => writer.null(),
    }
}

/// Prints an array of the read codes of a block, one for each dump.
fn put_codes(writer: &mut Writer, dumps: &[Dump], block: BlockNo) -> Result<(), AllocError>
    ensures { Prints result writer.old writer.new (codes_value dumps.now block) }
{
    writer.begin_array()?;
    for dump in dumps {
        put_code(writer, known_code(dump, block))?;
    }
    writer.end_array()
}

/// Prints the member of the read codes.
fn put_code_list(writer: &mut Writer, dumps: &[Dump], block: BlockNo) -> Result<(), AllocError>
    ensures { PrintsMembers result writer.old writer.new (codes_members dumps.now block) }
{
    writer.key("codes")?;
    put_codes(writer, dumps, block)
}

/// Appends the line of a block to a text.
fn choice_json(
    scratch: &mut Scratch,
    names: &[String],
    dumps: &[Dump],
    choice: &Choice,
    out: Vec<u8>,
) -> Result<Vec<u8>, AllocError>
    ensures { IfOk result (λ text. text.items ≡ out.items ++ line_of (choice_object (map string_bytes names.now) dumps.now choice.now)) }
{
    let start = out.len();
    let mut writer = Writer::new(out);
    writer.begin_object()?;
    put_choice(&mut scratch.text, &mut writer, names, choice)?;
    put_code_list(&mut writer, dumps, choice.block)?;
    writer.end_object()?;
    let text = into_line(writer, start)?;
    Ok(text)
}

/// Appends the line of a block to a text, unless the block is the same in all dumps.
fn choice_line(
    scratch: &mut Scratch,
    names: &[String],
    dumps: &[Dump],
    choice: &Choice,
    out: Vec<u8>,
) -> Result<Vec<u8>, AllocError>
    ensures { IfOk result (λ text. text.items ≡ out.items ++ choice_line (map string_bytes names.now) dumps.now choice.now) }
{
    if is_outcome(BlockOutcome::Same, choice.outcome) {
        return Ok(out);
    }
    choice_json(scratch, names, dumps, choice, out)
}

/// Appends the lines of the blocks that aren't the same in all dumps to a text.
#[tactic(auto, unfolding(crate::specs::Objects::choice_lines))]
pub(crate) fn choice_lines(
    scratch: &mut Scratch,
    names: &[String],
    dumps: &[Dump],
    list: &[Choice],
    out: Vec<u8>,
) -> Result<Vec<u8>, AllocError>
    ensures { IfOk result (λ text. text.items ≡ out.items ++ choice_lines (map string_bytes names.now) dumps.now list.now) }
{
    let mut text = out;
    for choice in list {
        text = choice_line(scratch, names, dumps, choice, text)?;
    }
    Ok(text)
}

/// Returns the track of an entry of a G64, as `41` or `18.5`.
#[tactic(auto, unfolding(crate::specs::Objects::entry_text))]
pub(crate) fn entry_text(entry: u8) -> ArrayString<ENTRY_LEN>
    ensures { result.bytes ≡ entry_text entry }
{
    let mut digits = Buffer::new();
    let mut text = ArrayString::new();
    text.push_str(digits.format(1 + entry / 2));
    if entry % 2 != 0 {
        text.push_str(".5");
    }
    text
}

/// Prints the name of the file that is made, how many tracks it has, whether it has read codes, and
/// how many blocks.
fn put_size(scratch: &mut Vec<u8>, writer: &mut Writer, summary: &Summary) -> Result<(), AllocError>
    ensures { PrintsMembers result writer.old writer.new (merged_size_members summary.now.out.now summary.now.tracks summary.now.with_codes summary.now.list.now) }
{
    put_host_name(scratch, writer, "out", summary.out)?;
    put_number(writer, "tracks", u64::from(summary.tracks))?;
    put_boolean(writer, "codes", summary.with_codes)?;
    put_number(writer, "blocks", summary.list.len() as u64)
}

/// Prints how many blocks have an outcome.
fn put_count(writer: &mut Writer, outcome: BlockOutcome, list: &[Choice]) -> Result<(), AllocError>
    ensures { PrintsMembers result writer.old writer.new (count_member outcome list.now ∷ []) }
{
    put_number(
        writer,
        outcome_word(outcome),
        count_of(outcome, list) as u64,
    )
}

/// Prints how many blocks have each outcome other than `Same`.
fn put_counts(writer: &mut Writer, list: &[Choice]) -> Result<(), AllocError>
    ensures { PrintsMembers result writer.old writer.new (outcome_members list.now) }
{
    put_count(writer, BlockOutcome::Taken, list)?;
    put_count(writer, BlockOutcome::Lost, list)?;
    put_count(writer, BlockOutcome::Majority, list)?;
    put_count(writer, BlockOutcome::First, list)?;
    put_count(writer, BlockOutcome::Conflict, list)
}

/// Prints an array of the tracks of entries.
fn put_entries(writer: &mut Writer, left: &[u8]) -> Result<(), AllocError>
    ensures { Prints result writer.old writer.new (array_of (map (λ entry. string (entry_text entry)) left.now)) }
{
    writer.begin_array()?;
    for entry in left {
        let text = entry_text(*entry);
        writer.string(text.as_str())?;
    }
    writer.end_array()
}

/// Prints the member of the tracks of G64 files that hold what the dump lacks.
fn put_left(writer: &mut Writer, left: &[u8]) -> Result<(), AllocError>
    ensures { PrintsMembers result writer.old writer.new (left_members left.now) }
{
    writer.key("left")?;
    put_entries(writer, left)
}

/// Prints the digest of the file that was made, or null if none was.
fn put_digest(
    scratch: &mut Vec<u8>,
    writer: &mut Writer,
    digest: Option<&[u8; 32]>,
) -> Result<(), AllocError>
    ensures { PrintsMembers result writer.old writer.new (made_digest_members (option_map (λ d. d.now) digest.entry)) }
{
    match digest {
        Some(digest) => put_hexadecimal(scratch, writer, "sha256", digest),
        None => put_null(writer, "sha256"),
    }
}

/// Prints all members of the summary.
fn put_summary(
    scratch: &mut Vec<u8>,
    writer: &mut Writer,
    summary: &Summary,
) -> Result<(), AllocError>
    ensures { PrintsMembers result writer.old writer.new (merged_size_members summary.now.out.now summary.now.tracks summary.now.with_codes summary.now.list.now ++ (outcome_members summary.now.list.now ++ (left_members summary.now.left.now ++ made_digest_members (option_map (λ d. d.now) summary.now.digest)))) }
{
    put_size(scratch, writer, summary)?;
    put_counts(writer, summary.list)?;
    put_left(writer, summary.left)?;
    put_digest(scratch, writer, summary.digest)
}

/// Appends the line of the summary to a text.
pub(crate) fn summary_json(
    scratch: &mut Scratch,
    summary: &Summary,
    out: Vec<u8>,
) -> Result<Vec<u8>, AllocError>
    ensures { IfOk result (λ text. text.items ≡ out.items ++ line_of (summary_object summary.now.out.now summary.now.tracks summary.now.with_codes summary.now.list.now summary.now.left.now (option_map (λ d. d.now) summary.now.digest))) }
{
    let start = out.len();
    let mut writer = Writer::new(out);
    writer.begin_object()?;
    put_summary(&mut scratch.text, &mut writer, summary)?;
    writer.end_object()?;
    let text = into_line(writer, start)?;
    Ok(text)
}
