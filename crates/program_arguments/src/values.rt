//! The values that were given for an argument of a subcommand.

ghost use Rattle.std.specs.Prelude.{◌≡◌, ◌==◌, IfOk, IsSome, Some, length, map, option_map, string_bytes};
ghost use Rattle.clap.specs.Words.{found_of, first_of, rows_of};
ghost use Rattle.program_arguments.specs.Values.{all_given, has_flag};

use clap::ArgMatches;
use std::alloc::{AllocError, Global};

/// Returns a copy of the value that is given to an argument.
pub(crate) fn value(
    alloc: Global,
    arguments: &ArgMatches,
    id: &str,
) -> Result<Option<String>, AllocError>
    ensures { IfOk result (λ value. option_map string_bytes value ≡ first_of id.now (rows_of (found_of arguments.now))) }
{
    match given(arguments, id) {
        Some(text) => Ok(Some(String::from_str(alloc, text)?)),
        None => Ok(None),
    }
}

/// Returns the value that is given to an argument.
pub(crate) fn given<'a>(arguments: &ArgMatches<'a>, id: &str) -> Option<&'a str>
    ensures { option_map (λ text. text.now) result ≡ first_of id.now (rows_of (found_of arguments.now)) }
{
    arguments.get_str(id)
}

/// Returns a copy of the value that is given to an argument that must have one.
pub(crate) fn required_value(
    alloc: Global,
    arguments: &ArgMatches,
    id: &str,
) -> Result<String, AllocError>
    requires { IsSome (first_of id.now (rows_of (found_of arguments.now))) }
    ensures { IfOk result (λ value. first_of id.now (rows_of (found_of arguments.now)) ≡ Some (string_bytes value)) }
{
    let Some(text) = given(arguments, id) else {
        unreachable!()
    };
    String::from_str(alloc, text)
}

/// Returns copies of the values that are given to an argument of several; none without it.
pub(crate) fn values(
    alloc: Global,
    arguments: &ArgMatches,
    id: &str,
) -> Result<Vec<String>, AllocError>
    ensures { IfOk result (λ values. map string_bytes values.items ≡ all_given id.now (rows_of (found_of arguments.now))) }
{
    match arguments.get_strs(id) {
        Some(texts) => copied(alloc, texts),
        None => Ok(Vec::new(alloc)),
    }
}

/// Whether an argument of several is given no value.
pub(crate) fn lacks_values(arguments: &ArgMatches, id: &str) -> bool
    ensures { result ≡ (length (all_given id.now (rows_of (found_of arguments.now))) == 0) }
{
    match arguments.get_strs(id) {
        Some(texts) => texts.is_empty(),
        None => true,
    }
}

/// Whether a flag is given.
pub(crate) fn has_flag(arguments: &ArgMatches, id: &str) -> bool
    ensures { result ≡ has_flag id.now (rows_of (found_of arguments.now)) }
{
    matches!(given(arguments, id), Some("true"))
}

/// Returns copies of the texts.
fn copied(alloc: Global, texts: &[&str]) -> Result<Vec<String>, AllocError>
    ensures { IfOk result (λ copies. map string_bytes copies.items ≡ map (λ text. text.now) texts.now) }
{
    let mut copies = Vec::with_capacity(alloc, texts.len())?;
    for text in texts {
        copies.push(String::from_str(alloc, text)?)?;
    }
    Ok(copies)
}
