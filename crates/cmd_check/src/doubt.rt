//! What makes an image doubtful, as JSON and as a field of CSV.
ghost use Rattle.std.specs.Prelude.{◌≡◌, [], ◌∷◌, ◌++◌, map, codes, OnOk};
ghost use Rattle.std.specs.List.{flat_map};
ghost use Rattle.out_json_csv.specs.Values.{Prints, PrintsMembers, array_of};
ghost use Rattle.cmd_check.specs.Doubts.{doubt_word as doubt_word_of, doubt_value, next_word, doubt_names_text};

use d64_survey::Doubt;
use json::Writer;
use out_json_csv::CsvRow;
use std::alloc::AllocError;

/// Returns the name of a doubt.
fn doubt_word(doubt: Doubt) -> &'static str
    ensures { result.now ≡ doubt_word_of doubt }
{
    match doubt {
        Doubt::Version => "version",
        Doubt::Blank => "blank",
        Doubt::Unowned => "unowned",
        Doubt::Filler => "filler",
    }
}

/// Prints an array of doubts.
fn put_doubt_list(writer: &mut Writer, doubts: &[Doubt]) -> Result<(), AllocError>
    ensures { Prints result writer.old writer.new (array_of (map doubt_value doubts.now)) }
{
    writer.begin_array()?;
    for doubt in doubts {
        writer.string(doubt_word(*doubt))?;
    }
    writer.end_array()
}

/// Prints what makes an image doubtful.
pub(crate) fn put_doubts(writer: &mut Writer, doubts: &[Doubt]) -> Result<(), AllocError>
    ensures { PrintsMembers result writer.old writer.new ((codes "doubts", array_of (map doubt_value doubts.now)) ∷ []) }
{
    writer.key("doubts")?;
    put_doubt_list(writer, doubts)
}

/// Appends the names of doubts, each after a space.
fn push_next(text: &mut Vec<u8>, doubts: &[Doubt]) -> Result<(), AllocError>
    ensures { OnOk result (text.new.items ≡ text.old.items ++ flat_map next_word doubts.now) }
{
    for doubt in doubts {
        text.extend_from_slice(b" ")?;
        text.extend_from_slice(doubt_word(*doubt).as_bytes())?;
    }
    Ok(())
}

/// Replaces the text by the names of doubts, with a space between them.
#[tactic(auto, unfolding(crate::specs::Doubts::doubt_names_text))]
fn spell_doubts(text: &mut Vec<u8>, doubts: &[Doubt]) -> Result<(), AllocError>
    ensures { OnOk result (text.new.items ≡ doubt_names_text doubts.now) }
{
    text.clear();
    match doubts {
        [] => Ok(()),
        [first, rest @ ..] => {
            text.extend_from_slice(doubt_word(*first).as_bytes())?;
            push_next(text, rest)
        }
    }
}

/// Appends what makes an image doubtful to a row.
pub(crate) fn push_doubts(
    scratch: &mut Vec<u8>,
    row: &mut CsvRow,
    doubts: &[Doubt],
) -> Result<(), AllocError>
    ensures { OnOk result (row.new ≡ row.old ++ doubt_names_text doubts.now ∷ []) }
{
    spell_doubts(scratch, doubts)?;
    row.push_field(scratch.as_slice())
}
