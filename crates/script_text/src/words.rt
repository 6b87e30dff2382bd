//! The words of a line of a script: what is between its spaces, or in quotes.
ghost use Rattle.std.specs.Prelude.{◌≡◌, ◌<◌, ◌≤◌, nat_le, if◌then◌else◌, [], length, position, All, Some, None, true, option_map, IfSome, IfOk, OnErr};
ghost use Rattle.std.specs.Iterator.{YieldsFirstRef, item_count};
ghost use Rattle.std.specs.List.{list_all};
ghost use Rattle.script_text.specs.RawLines.{line_limit};
ghost use Rattle.script_text.specs.Words.{IsPrintable, is_printable, is_quote, ends_word, ends_run, first_word, quoted_word, bare_word, word_before, split_words, words_of_line, HasWordsOfRule};

use crate::raw_lines::LINE_BYTES;
use std::marker::Model;
use std::str;
use thiserror::Error;

/// The most words that a line has, since there is a space between two words.
pub const MAX_WORDS: usize = 512;

/// The error of a line that can't be split into words.
#[derive(Clone, Copy, Debug, PartialEq, Eq, Error)]
#[error("the line has a byte that is not printable ASCII, or a quote inside of a word")]
pub struct NoWords;

/// The words of a line that are left, in order. A quoted word comes without its quotes.
#[derive(Drop)]
pub struct Words<'a> {
    rest: &'a [u8],
    /// How many words are left.
    left: usize,
}

impl<'a> Model for Words<'a> {
    ghost use Rattle.std.specs.Prelude.{◌≡◌, List, ℕ, length, Some, option_map};
    ghost use Rattle.script_text.specs.Words.{split_words, words_left};

    ghost Value = { List (List ℕ) };

    ghost view = { λ walk. words_left walk.rest.now };

    ghost invariant = { λ walk. option_map length (split_words walk.rest.now) ≡ Some walk.left };
}

impl<'a> Words<'a> {
    /// Splits a line into its words, at its spaces. An error comes if the line has more than
    /// `LINE_BYTES` bytes, if a byte is no printable ASCII character, or if a quote neither begins
    /// a word nor ends it. It allocates nothing.
    #[tactic(auto, unfolding(crate::specs::Words::words_of_line))]
    pub fn of(line: &'a [u8]) -> Result<Words<'a>, NoWords>
        ensures words { IfOk result (λ words. Some words ≡ (if nat_le (length line.now) line_limit then words_of_line line.now else None)) }
        ensures none { OnErr result (None ≡ (if nat_le (length line.now) line_limit then words_of_line line.now else None)) }
        ensures printable { IfOk result (λ words. All (All IsPrintable) words) }
        ensures len { IfOk result (λ words. length words ≤ MAX_WORDS) }
    {
        if line.len() > LINE_BYTES {
            return Err(NoWords);
        }
        if !is_printable_line(line) {
            return Err(NoWords);
        }
        match word_count(line) {
            Some(left) => Ok(Words { rest: line, left }),
            None => Err(NoWords),
        }
    }

    /// How many words are left.
    pub fn len(&self) -> usize
        ensures { result ≡ length self.now }
    {
        self.left
    }
}

impl<'a> Iterator for Words<'a> {
    type Item = &'a [u8];

    ghost next_gives = { YieldsFirstRef (λ left. left) };

    ghost remaining = { item_count (λ left. left) };

    fn next(&mut self) -> Option<&'a [u8]> {
        match first_word(after_spaces(self.rest)) {
            Some((word, rest)) => {
                self.rest = rest;
                self.left -= 1;
                Some(word)
            }
            None => None,
        }
    }
}

/// The words of a line follow the rule: each is a run of bytes other than spaces and quotes, or the
/// part between two quotes, before a space or the line's end. At most one list of words does so.
#[inline]
pub fn words_of_rule(line: &[u8])
    ensures { HasWordsOfRule line.now }
{}

/// Whether all bytes of a line are printable ASCII characters.
fn is_printable_line(line: &[u8]) -> bool
    ensures { result ≡ list_all is_printable line.now }
{
    line.iter().all(|byte| (b' '..=b'~').contains(byte))
}

/// How many words a line has, or None if a quote is misplaced.
fn word_count(line: &[u8]) -> Option<usize>
    requires short { length line.now ≤ 1024 }
    ensures count { result ≡ option_map length (split_words line.now) }
    ensures few { IfSome result (λ count. count ≤ MAX_WORDS) }
{
    let mut rest = line;
    let mut count = 0;
    while let Some((first, after)) = rest.split_first() {
        if *first == b' ' {
            rest = after;
        } else {
            let Some((_, left)) = first_word(rest) else {
                return None;
            };
            rest = left;
            count += 1;
        }
    }
    Some(count)
}

/// The rest of a text after the spaces with which it begins.
fn after_spaces(text: &[u8]) -> &[u8]
    ensures words { split_words result.now ≡ split_words text.now }
    ensures begun { ends_word result.now ≡ true → result.now ≡ [] }
{
    let mut rest = text;
    while let Some((first, after)) = rest.split_first() {
        if *first != b' ' {
            return rest;
        }
        rest = after;
    }
    rest
}

/// The word with which a text begins, and what follows it; None if a quote is misplaced.
fn first_word(text: &[u8]) -> Option<(&[u8], &[u8])>
    ensures { option_map (λ first. (first.0.now, first.1.now)) result ≡ first_word text.now }
{
    match text {
        [] => None,
        [b'"', quoted @ ..] => quoted_word(quoted),
        _ => bare_word(text),
    }
}

/// The word that follows an opening quote, and what follows the closing quote.
#[tactic(auto, unfolding(crate::specs::Words::quoted_word))]
fn quoted_word(text: &[u8]) -> Option<(&[u8], &[u8])>
    ensures { option_map (λ first. (first.0.now, first.1.now)) result ≡ quoted_word text.now }
{
    let end = closing_quote(text)?;
    word_before(&text[..end], &text[end + 1..])
}

/// The place of the next quote.
fn closing_quote(text: &[u8]) -> Option<usize>
    ensures place { result ≡ position is_quote text.now }
    ensures inside { IfSome result (λ place. place < length text.now) }
{
    text.iter().position(|byte| *byte == b'"')
}

/// The word made of a run of bytes other than spaces and quotes, and what follows the word.
#[tactic(auto, using(crate::proofs::Runs::unwrap_or_position), unfolding(crate::specs::Words::bare_word))]
fn bare_word(text: &[u8]) -> Option<(&[u8], &[u8])>
    ensures { option_map (λ first. (first.0.now, first.1.now)) result ≡ bare_word text.now }
{
    let end = run_end(text).unwrap_or(text.len());
    word_before(&text[..end], &text[end..])
}

/// The place of the next space or quote.
fn run_end(text: &[u8]) -> Option<usize>
    ensures place { result ≡ position ends_run text.now }
    ensures inside { IfSome result (λ place. place < length text.now) }
{
    text.iter().position(|byte| *byte == b' ' || *byte == b'"')
}

/// A word and what follows it, if a word can end there: before a space or at the line's end.
fn word_before<'a>(word: &'a [u8], rest: &'a [u8]) -> Option<(&'a [u8], &'a [u8])>
    ensures { option_map (λ first. (first.0.now, first.1.now)) result ≡ word_before word.now rest.now }
{
    match rest {
        [] | [b' ', ..] => Some((word, rest)),
        _ => None,
    }
}

/// A word of a line, whose bytes are ASCII, as a text.
pub fn as_text(word: &[u8]) -> &str
    requires { All IsPrintable word.now }
    ensures { result.now ≡ word.now }
{
    str::from_utf8(word).unwrap()
}
