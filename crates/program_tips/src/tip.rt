//! The tip: what was probably meant, as it is typed.
ghost use Rattle.std.specs.Prelude.{◌≡◌, ◌++◌, IfOk, OnOk, map, string_bytes};
ghost use Rattle.std.specs.List.{before_first, position, position_or_len};
ghost use Rattle.program_tips.specs.Meant.{is_option};
ghost use Rattle.program_tips.specs.Tip.{cut, dash_c_text, has_byte, has_meaning, is_bare, is_quoted, line_argument, line_arguments, line_of_arguments, meant_line, needs_quotes, shell_argument, shell_text, tip_about, tip_start, tip_text, typed};

use crate::meant::{Meant, is_option};
use std::alloc::{AllocError, Global};

/// The most characters of an argument that a tip shows.
const SHOWN_CHARACTERS: usize = 64;

impl<'a> Meant<'a> {
    /// Returns a message with the tip after it: the shell on this image, with the line that the
    /// arguments make up to the first that is an option, or with `list` if that line is empty.
    pub(crate) fn after(&self, alloc: Global, message: &str) -> Result<String, AllocError>
        ensures { IfOk result (λ text. string_bytes text ≡ message.now ++ tip_text self.now.image.now (map (λ argument. argument.now) self.now.rest.now)) }
    {
        let line = meant_line(alloc, self.rest)?;
        let mut text = String::from_str(alloc, message)?;
        push_tip(&mut text, self.image, line.as_str())?;
        Ok(text)
    }
}

/// Returns the line that arguments make up to the first that is an option; `list` if it is empty.
fn meant_line(alloc: Global, arguments: &[&str]) -> Result<String, AllocError>
    ensures { IfOk result (λ line. string_bytes line ≡ meant_line (map (λ argument. argument.now) arguments.now)) }
{
    let line = line_of_arguments(alloc, before_options(arguments))?;
    if line.is_empty() {
        return String::from_str(alloc, "list");
    }
    Ok(line)
}

/// Returns the line that arguments make. The first begins it as it is, since it may be all of the
/// line.
fn line_of_arguments(alloc: Global, arguments: &[&str]) -> Result<String, AllocError>
    ensures { IfOk result (λ line. string_bytes line ≡ line_of_arguments (map (λ argument. argument.now) arguments.now)) }
{
    let [first, rest @ ..] = arguments else {
        return Ok(String::new(alloc));
    };
    let mut line = String::from_str(alloc, first)?;
    push_arguments(&mut line, rest)?;
    Ok(line)
}

/// Appends arguments to a line, each after a space.
fn push_arguments(line: &mut String, arguments: &[&str]) -> Result<(), AllocError>
    ensures { OnOk result (string_bytes line.new ≡ string_bytes line.old ++ line_arguments (map (λ argument. argument.now) arguments.now)) }
{
    for argument in arguments {
        push_line_argument(line, argument)?;
    }
    Ok(())
}

/// Appends an argument to a line, after a space: in quotes, if it would be none or several without.
#[tactic(auto, unfolding(crate::specs::Tip::line_argument))]
fn push_line_argument(line: &mut String, argument: &str) -> Result<(), AllocError>
    ensures { OnOk result (string_bytes line.new ≡ string_bytes line.old ++ line_argument argument.now) }
{
    line.push_str(" ")?;
    if !needs_quotes(argument) {
        return line.push_str(argument);
    }
    line.push_str("\"")?;
    line.push_str(argument)?;
    line.push_str("\"")
}

/// Whether an argument is in quotes in a line: it is empty or has a space, and has no quote, which
/// no argument of a line has.
#[tactic(auto, unfolding(crate::specs::Tip::needs_quotes))]
fn needs_quotes(argument: &str) -> bool
    ensures { result ≡ needs_quotes argument.now }
{
    (argument.is_empty() || has_byte(argument, b' ')) && !has_byte(argument, b'"')
}

/// Whether an argument has a byte.
fn has_byte(argument: &str, byte: u8) -> bool
    ensures { result ≡ has_byte byte argument.now }
{
    argument.as_bytes().contains(&byte)
}

/// Returns the arguments before the first that is an option.
fn before_options<'a>(arguments: &'a [&'a str]) -> &'a [&'a str]
    ensures { map (λ argument. argument.now) result.now ≡ before_first is_option (map (λ argument. argument.now) arguments.now) }
{
    &arguments[..count_before_options(arguments)]
}

/// How many arguments are before the first that is an option.
fn count_before_options(arguments: &[&str]) -> usize
    ensures { result ≡ position_or_len (λ argument. is_option argument.now) arguments.now }
{
    first_option(arguments).unwrap_or(arguments.len())
}

/// The place of the first argument that is an option.
fn first_option(arguments: &[&str]) -> Option<usize>
    ensures { result ≡ position (λ argument. is_option argument.now) arguments.now }
{
    arguments.iter().position(|argument| is_option(argument))
}

/// Appends a tip: the shell on this image, with this line.
#[tactic(auto, unfolding(crate::specs::Tip::tip_about))]
fn push_tip(text: &mut String, image: &str, line: &str) -> Result<(), AllocError>
    ensures { OnOk result (string_bytes text.new ≡ string_bytes text.old ++ tip_about image.now line.now) }
{
    push_shell(text, image)?;
    push_line(text, line)
}

/// Appends the shell on this image, as it is typed.
#[tactic(auto, unfolding(crate::specs::Tip::shell_text))]
fn push_shell(text: &mut String, image: &str) -> Result<(), AllocError>
    ensures { OnOk result (string_bytes text.new ≡ string_bytes text.old ++ shell_text image.now) }
{
    push_start(text)?;
    push_argument(text, image)
}

/// Appends what a tip begins with.
#[tactic(auto, unfolding(crate::specs::Tip::tip_start))]
fn push_start(text: &mut String) -> Result<(), AllocError>
    ensures { OnOk result (string_bytes text.new ≡ string_bytes text.old ++ tip_start) }
{
    text.push_str("\n\n  tip: to run a line on an image: d64sh shell ")
}

/// Appends this line behind it.
#[tactic(auto, unfolding(crate::specs::Tip::dash_c_text))]
fn push_line(text: &mut String, line: &str) -> Result<(), AllocError>
    ensures { OnOk result (string_bytes text.new ≡ string_bytes text.old ++ dash_c_text line.now) }
{
    text.push_str(" -c ")?;
    push_argument(text, line)
}

/// Appends an argument as it is typed for a shell of the host: between apostrophes unless all its
/// bytes are bare, and cut if it is long.
#[tactic(auto, unfolding(crate::specs::Tip::shell_argument))]
fn push_argument(text: &mut String, argument: &str) -> Result<(), AllocError>
    ensures { OnOk result (string_bytes text.new ≡ string_bytes text.old ++ shell_argument argument.now) }
{
    if !is_quoted(argument) {
        return push_cut(text, argument);
    }
    text.push_str("'")?;
    push_cut(text, argument)?;
    text.push_str("'")
}

/// Whether an argument is between apostrophes in a line for a shell of the host.
#[tactic(auto, unfolding(crate::specs::Tip::is_quoted))]
fn is_quoted(argument: &str) -> bool
    ensures { result ≡ is_quoted argument.now }
{
    argument.is_empty() || has_meaning(argument)
}

/// Whether a byte of an argument has a meaning of its own there.
fn has_meaning(argument: &str) -> bool
    ensures { result ≡ has_meaning argument.now }
{
    argument.bytes().any(|byte| !is_bare(byte))
}

/// Whether a byte has no meaning of its own in a line for a shell of the host.
#[tactic(auto, unfolding(crate::specs::Tip::is_bare))]
fn is_bare(byte: u8) -> bool
    ensures { result ≡ is_bare byte }
{
    byte.is_ascii_alphanumeric() || b"./_-+,".contains(&byte)
}

/// Appends the first characters of an argument, and `..` if it has more.
fn push_cut(text: &mut String, argument: &str) -> Result<(), AllocError>
    ensures { OnOk result (string_bytes text.new ≡ string_bytes text.old ++ cut argument.now) }
{
    for (count, character) in argument.chars().enumerate() {
        if count == SHOWN_CHARACTERS {
            return text.push_str("..");
        }
        push_typed(text, character)?;
    }
    Ok(())
}

/// Appends a character as it is typed between apostrophes, of which it may be one.
fn push_typed(text: &mut String, character: char) -> Result<(), AllocError>
    ensures { OnOk result (string_bytes text.new ≡ string_bytes text.old ++ typed character) }
{
    match character {
        '\'' => text.push_str("'\\''"),
        _ => text.push(character),
    }
}
