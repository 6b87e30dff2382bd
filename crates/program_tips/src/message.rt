//! The message of an error of `clap`, and the tip after it.
ghost use Rattle.std.specs.Prelude.{◌≡◌, IfOk, option_map, string_bytes};
ghost use Rattle.program_tips.specs.Meant.{meant_parts};
ghost use Rattle.program_tips.specs.Message.{message_line, message_of, message_with, without_label};

use crate::meant::Meant;
use std::alloc::{AllocError, Global};

/// Returns the message of an error of `clap` with this text, and after it the tip about what was
/// probably meant, if anything was.
pub fn message_with(
    alloc: Global,
    text: &str,
    meant: Option<Meant<'_>>,
) -> Result<String, AllocError>
    ensures { IfOk result (λ message. string_bytes message ≡ message_with text.now (option_map meant_parts meant.entry)) }
{
    match meant {
        Some(meant) => meant.after(alloc, message_of(text)),
        None => String::from_str(alloc, message_of(text)),
    }
}

/// Returns the message of an error of `clap`: the first line of its text, after `error: `.
fn message_of(text: &str) -> &str
    ensures { result.now ≡ message_of text.now }
{
    without_label(message_line(text))
}

/// Returns the first line of a text.
fn message_line(text: &str) -> &str
    ensures { result.now ≡ message_line text.now }
{
    text.lines().next().unwrap_or("")
}

/// Returns what follows `error: ` in a line, or the whole line if it does not begin so.
#[tactic(auto, unfolding(crate::specs::Message::without_label))]
fn without_label(line: &str) -> &str
    ensures { result.now ≡ without_label line.now }
{
    line.strip_prefix("error: ").unwrap_or(line)
}
