//! The files of a disk that the first argument of a line may mean.
ghost use Rattle.std.specs.Prelude.{◌≡◌, IfOk, option_map};
ghost use Rattle.script_advice.specs.Found.{IsDefaultName, IsFound, deleted_file, file_count, first_file, found_by, has_same_letters, is_deleted_as, is_in_other_letters, no_file, respelled_file, small_letter};

use d64_files::{Entry, Pattern, matches};
use d64_image::Image;
use d64_scratched::is_scratched;
use d64_survey::Survey;
use petscii::to_text;
use script_lines::Status;
use script_lines::arguments::pattern_in;
use std::alloc::{AllocError, Global};

/// The files that an argument may mean.
#[derive(Drop)]
pub(crate) struct Found<'a> {
    /// The first file whose name it matches.
    pub(crate) file: Option<Entry<'a>>,
    /// The first file whose name is the argument in other letters.
    pub(crate) respelled: Option<Entry<'a>>,
    /// The first deleted file whose name is the argument.
    pub(crate) deleted: Option<Entry<'a>>,
}

impl<'a> Found<'a> {
    /// Finds the files of a disk that an argument may mean, on a damaged disk too; no file if the
    /// argument is not valid.
    ///
    /// An `Err` comes only if there is no memory for the argument's bytes.
    pub(crate) fn of(
        alloc: Global,
        image: &'a Image,
        argument: &str,
    ) -> Result<Found<'a>, AllocError>
        ensures { IfOk result (IsFound image.now argument.now) }
    {
        match pattern_in(alloc, argument) {
            Ok(pattern) => Ok(Found::by(&Survey::of(image), &pattern)),
            Err(Status::OutOfMemory) => Err(AllocError),
            Err(_) => Ok(Found::nothing()),
        }
    }

    /// No file.
    fn nothing() -> Found<'a>
        ensures { result ≡ no_file }
    {
        Found {
            file: None,
            respelled: None,
            deleted: None,
        }
    }

    /// The files that a pattern may mean.
    fn by(survey: &Survey<'a>, pattern: &Pattern) -> Found<'a>
        ensures { result ≡ found_by survey.now pattern.now }
    {
        let name = pattern.bytes();
        Found {
            file: first_file(survey, pattern),
            respelled: respelled_file(survey, name),
            deleted: deleted_file(survey, name),
        }
    }
}

/// The name of the first file that an argument finds, in text form: `read` stores by default in the
/// host file with this name. None if there is no such file.
///
/// An `Err` comes only if there is no memory for the argument's bytes or for the name.
pub fn default_name(
    alloc: Global,
    image: &Image,
    argument: &str,
) -> Result<Option<Vec<u8>>, AllocError>
    ensures { IfOk result (λ name. IsDefaultName image.now argument.now (option_map (λ name. name.items) name)) }
{
    let found = Found::of(alloc, image, argument)?;
    match &found.file {
        Some(entry) => Ok(Some(to_text(alloc, entry.name())?)),
        None => Ok(None),
    }
}

/// How many files a disk lists, a damaged one too.
pub fn file_count(image: &Image) -> usize
    ensures { result ≡ file_count image.now }
{
    let mut count = 0;
    for entry in Survey::of(image).slots() {
        if entry.used() {
            count += 1;
        }
    }
    count
}

/// The first file whose name a pattern matches.
fn first_file<'a>(survey: &Survey<'a>, pattern: &Pattern) -> Option<Entry<'a>>
    ensures { result ≡ first_file survey.now pattern.now }
{
    for entry in survey.slots() {
        if entry.used() && matches(pattern, entry.name()) {
            return Some(entry);
        }
    }
    None
}

/// The first file whose name is this one in other letters.
fn respelled_file<'a>(survey: &Survey<'a>, name: &[u8]) -> Option<Entry<'a>>
    ensures { result ≡ respelled_file survey.now name.now }
{
    for entry in survey.slots() {
        if entry.used() && is_in_other_letters(entry.name(), name) {
            return Some(entry);
        }
    }
    None
}

/// The first deleted file that had this name.
fn deleted_file<'a>(survey: &Survey<'a>, name: &[u8]) -> Option<Entry<'a>>
    ensures { result ≡ deleted_file survey.now name.now }
{
    for entry in survey.slots() {
        if is_deleted_as(&entry, name) {
            return Some(entry);
        }
    }
    None
}

/// Whether an entry is that of a deleted file that had this name.
pub(crate) fn is_deleted_as(entry: &Entry, name: &[u8]) -> bool
    ensures { result ≡ is_deleted_as name.now entry.now }
{
    is_scratched(entry) && entry.name() == name
}

/// Whether a name is another one, with capitals and small letters exchanged.
fn is_in_other_letters(name: &[u8], other: &[u8]) -> bool
    ensures { result ≡ is_in_other_letters name.now other.now }
{
    name != other && has_same_letters(name, other)
}

/// Whether two names are the same but for capitals and small letters.
fn has_same_letters(name: &[u8], other: &[u8]) -> bool
    ensures { result ≡ has_same_letters name.now other.now }
{
    let mut left = name;
    let mut right = other;
    while let ([first, more @ ..], [second, rest @ ..]) = (left, right) {
        if small_letter(*first) != small_letter(*second) {
            return false;
        }
        left = more;
        right = rest;
    }
    left.is_empty() && right.is_empty()
}

/// The small letter of PETSCII for a capital; any other byte as it is.
fn small_letter(byte: u8) -> u8
    ensures { result ≡ small_letter byte }
{
    match byte {
        0xc1..=0xda => byte - 0x80,
        0x61..=0x7a => byte - 0x20,
        _ => byte,
    }
}
