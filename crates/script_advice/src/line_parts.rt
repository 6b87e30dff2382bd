//! The parts of a line that an explanation needs.
ghost use Rattle.std.specs.Prelude.{◌≡◌, ◌≤◌, ℕ, List, [], All, length, drop};
ghost use Rattle.script_text.specs.HeldLine.{HoldsText};
ghost use Rattle.script_text.specs.Words.{IsPrintable};
ghost use Rattle.script_advice.specs.LineParts.{first_of, parts_of_words, parts_of_text, parts_of_line};

use script_text::held_line::HeldLine;
use script_text::words::{Words, as_text};
use std::marker::Model;

/// The command and the first four arguments of a line; a missing one is empty.
#[derive(Drop)]
pub struct LineParts<'a> {
    /// The command.
    pub command: &'a str,
    pub first: &'a str,
    pub second: &'a str,
    pub third: &'a str,
    pub fourth: &'a str,
    /// How many parts the line has: its command and its arguments.
    pub count: usize,
}

impl<'a> Model for LineParts<'a> {
    ghost use Rattle.script_advice.specs.LineParts.{LineParts};

    ghost Value = { LineParts };

    ghost view = { λ s. record { command = s.command.now; first = s.first.now; second = s.second.now; third = s.third.now; fourth = s.fourth.now; count = s.count } };
}

impl<'a> LineParts<'a> {
    /// A line with nothing on it.
    fn nothing() -> LineParts<'a>
        ensures { result ≡ parts_of_words [] }
    {
        LineParts {
            command: "",
            first: "",
            second: "",
            third: "",
            fourth: "",
            count: 0,
        }
    }

    /// The parts of a line that was read to its end; nothing if it is too long, or has a byte or a
    /// quote that no line has.
    pub fn of(line: &'a HeldLine) -> LineParts<'a>
        ensures { (raw : List ℕ) → HoldsText line.now raw → result ≡ parts_of_line raw }
    {
        match line.text() {
            Some(text) => LineParts::in_text(text),
            None => LineParts::nothing(),
        }
    }

    /// The parts of a text; nothing if it has a byte or a quote that no line has.
    fn in_text(text: &'a [u8]) -> LineParts<'a>
        requires { length text.now ≤ 1024 }
        ensures { result ≡ parts_of_text text.now }
    {
        match Words::of(text) {
            Ok(words) => LineParts::of_words(words),
            Err(_) => LineParts::nothing(),
        }
    }

    /// The parts of a line, of which the first is the command.
    fn of_words(words: Words<'a>) -> LineParts<'a>
        requires { All (All IsPrintable) words }
        ensures { result ≡ parts_of_words words.entry }
    {
        let mut words = words;
        let count = words.len();
        LineParts {
            command: next_word(&mut words),
            first: next_word(&mut words),
            second: next_word(&mut words),
            third: next_word(&mut words),
            fourth: next_word(&mut words),
            count,
        }
    }
}

/// The next part, which is empty if there is none.
fn next_word<'a>(words: &mut Words<'a>) -> &'a str
    requires { All (All IsPrintable) words.old }
    ensures word { result.now ≡ first_of words.old }
    ensures rest { words.new ≡ drop 1 words.old }
    ensures printable { All (All IsPrintable) words.new }
{
    match words.next() {
        Some(word) => as_text(word),
        None => "",
    }
}
