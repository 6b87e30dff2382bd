//! The values of the arguments of a line.
#![tactic(auto, unfolding(crate::specs::Arguments::host_in, crate::specs::Arguments::number_in, crate::specs::Arguments::block_argument, crate::specs::Arguments::at_comma, crate::specs::Arguments::after_slash))]

ghost use Rattle.std.specs.Prelude.{◌≡◌, ◌<◌, IfOk, Result, ◌==◌, true, length, map, option_map, position};
ghost use Rattle.script_lines.specs.Arguments.{host_in, number_in, block_argument, can_be_id, at_comma, kind_of_letter, name_and_kind_in, after_slash, new_name, name_and_kind_of};
ghost use Rattle.script_lines.specs.ArgumentTexts.{texts, name_and_kind, items, Reads, ReadsEach};
ghost use Rattle.petscii.specs.TextForm.{HasOneReading};
ghost use Rattle.d64_files.specs.Name.{is_name};
ghost use Rattle.d64_files.specs.Pattern.{is_pattern};

use crate::status::Status;
use d64_files::{Kind, Name, Pattern};
use d64_image::{BlockNo, Image};
use petscii::{from_text, one_outcome};
use script_text::number::number;
use std::alloc::Global;

/// The most bytes of the name of a host file.
pub const HOST_NAME_BYTES: usize = 255;

/// The name of a host file, of 1 to 255 bytes.
pub fn host_in(argument: &str) -> Result<&str, Status>
    ensures { texts result ≡ host_in argument.now }
{
    if argument.is_empty() || argument.len() > HOST_NAME_BYTES {
        return Err(Status::BadName);
    }
    Ok(argument)
}

/// A number of one to three digits, of value at most 255.
pub fn number_in(argument: &str) -> Result<u8, Status>
    ensures { result ≡ number_in argument.now }
{
    number(argument.as_bytes()).ok_or(Status::SyntaxError)
}

/// The block of an image at a track and a sector. Both arguments are read before the image is used.
#[tactic(auto, unfolding(crate::specs::Arguments::block_argument, d64_files::specs::Chain::block_in))]
pub fn block_in(image: &Image, track: &str, sector: &str) -> Result<BlockNo, Status>
    ensures block { result ≡ block_argument image.now track.now sector.now }
    ensures held { IfOk result (λ block. block < length image.now) }
{
    let track = number_in(track)?;
    let sector = number_in(sector)?;
    d64_files::block_in(image, track, sector).ok_or(Status::IllegalBlock { track, sector })
}

/// The bytes that an argument stands for in text form.
fn bytes_in(alloc: Global, argument: &[u8]) -> Result<Vec<u8>, Status>
    ensures read { Reads (λ bytes. true) argument.now (items result) }
    ensures one { HasOneReading argument.now }
{
    one_outcome(argument);
    match from_text(alloc, argument) {
        Ok(bytes) => Ok(bytes),
        Err(fault) => Err(Status::from(fault)),
    }
}

/// The name of a disk or a file that an argument stands for.
pub fn name_in(alloc: Global, argument: &[u8]) -> Result<Name, Status>
    ensures { Reads is_name argument.now result }
{
    let bytes = bytes_in(alloc, argument)?;
    match Name::new(bytes.as_slice()) {
        Ok(name) => Ok(name),
        Err(_) => Err(Status::BadName),
    }
}

/// The pattern that an argument stands for, with which the names of files are compared.
pub fn pattern_in(alloc: Global, argument: &str) -> Result<Pattern, Status>
    ensures { Reads is_pattern argument.now result }
{
    let bytes = bytes_in(alloc, argument.as_bytes())?;
    match Pattern::new(bytes.as_slice()) {
        Ok(pattern) => Ok(pattern),
        Err(_) => Err(Status::BadName),
    }
}

/// The patterns that arguments stand for, from left to right. The error is that of the first
/// argument that is no pattern.
pub fn patterns_in(alloc: Global, arguments: &[&str]) -> Result<Vec<Pattern>, Status>
    ensures { ReadsEach is_pattern (map (λ argument. argument.now) arguments.now) (items result) }
{
    let mut patterns = Vec::new(alloc);
    for argument in arguments {
        let pattern = pattern_in(alloc, argument)?;
        match patterns.push(pattern) {
            Ok(()) => {}
            Err(_) => return Err(Status::OutOfMemory),
        }
    }
    Ok(patterns)
}

/// The id of a disk that an argument stands for: two bytes that are allowed in names.
pub fn id_in(alloc: Global, argument: &[u8]) -> Result<[u8; 2], Status>
    ensures { Reads can_be_id argument.now result }
{
    let bytes = bytes_in(alloc, argument)?;
    let id = match bytes.as_slice().as_array() {
        Some(id) => *id,
        None => return Err(Status::BadName),
    };
    match Name::new(&id) {
        Ok(_) => Ok(id),
        Err(_) => Err(Status::BadName),
    }
}

/// An argument split in two at its first comma, or None if it has no comma.
pub fn at_comma(argument: &[u8]) -> Option<(&[u8], &[u8])>
    ensures { option_map (λ parts. (parts.0.now, parts.1.now)) result ≡ at_comma argument.now }
{
    let comma = first_comma(argument)?;
    Some((&argument[..comma], &argument[comma + 1..]))
}

/// The place of the first comma.
fn first_comma(argument: &[u8]) -> Option<usize>
    ensures { result ≡ position (λ byte. byte == 44) argument.now }
{
    argument.iter().position(|byte| *byte == b',')
}

/// The kind that a letter stands for.
fn kind_of_letter(argument: &[u8]) -> Option<Kind>
    ensures { result ≡ kind_of_letter argument.now }
{
    match argument {
        b"p" => Some(Kind::Prg),
        b"s" => Some(Kind::Seq),
        b"u" => Some(Kind::Usr),
        b"l" => Some(Kind::Rel),
        _ => None,
    }
}

/// The name and the kind of a file in an argument that may be split at its first comma. The kind is
/// PRG if it isn't.
pub fn name_and_kind_in(argument: &[u8]) -> Result<(&[u8], Kind), Status>
    ensures { name_and_kind result ≡ name_and_kind_in argument.now }
{
    let Some((name, letter)) = at_comma(argument) else {
        return Ok((argument, Kind::Prg));
    };
    match kind_of_letter(letter) {
        Some(kind) => Ok((name, kind)),
        None => Err(Status::SyntaxError),
    }
}

/// The part of an argument after its last `/`, or all of it if it has no `/`.
pub fn after_slash(argument: &[u8]) -> &[u8]
    ensures { result.now ≡ after_slash argument.now }
{
    match argument.rsplit(|byte| *byte == b'/').next() {
        Some(part) => part,
        None => argument,
    }
}

/// The argument that names a new file, or else the name of its host file without the folders.
pub fn new_name<'a>(host: &'a str, argument: Option<&'a str>) -> &'a [u8]
    ensures { result.now ≡ new_name host.now (option_map (λ argument. argument.now) argument.entry) }
{
    match argument {
        Some(argument) => argument.as_bytes(),
        None => after_slash(host.as_bytes()),
    }
}

/// The name and the kind of a new file, by its argument. If there is no argument, the name is that
/// of its host file without the folders, and the kind is PRG.
pub fn name_and_kind_of<'a>(
    host: &'a str,
    argument: Option<&'a str>,
) -> Result<(&'a [u8], Kind), Status>
    ensures { name_and_kind result ≡ name_and_kind_of host.now (option_map (λ argument. argument.now) argument.entry) }
{
    match argument {
        Some(argument) => name_and_kind_in(argument.as_bytes()),
        None => Ok((after_slash(host.as_bytes()), Kind::Prg)),
    }
}
