//! The lines that made the changes of a session.
ghost use Rattle.std.specs.Prelude.{◌≡◌, ◌≢◌, ◌≤◌, ◌<◌, ◌+◌, ℕ, [], ◌∷◌, ◌++◌, length, None, Vec, MatchResult, option_copied};
ghost use Rattle.script_hints.specs.LineStart.{shown_raw_line};
ghost use Rattle.script_hints.specs.Past.{IsKnownAfter, known_line};

use crate::line_start::shown_line;
use std::alloc::{AllocError, Global};

/// The lines that made the changes from some number on, as they are shown. A line for which there
/// was no memory is missing.
#[derive(Drop)]
pub(crate) struct Past {
    alloc: Global,
    first: usize,
    lines: Vec<Vec<u8>>,
}

impl Past {
    /// No lines.
    pub(crate) fn new(alloc: Global) -> Past
        ensures { (number : ℕ) → known_line result number ≡ None }
    {
        Past {
            alloc,
            first: 0,
            lines: Vec::new(alloc),
        }
    }

    /// The line that made the change with this number, counted from 0.
    pub(crate) fn known_line(&self, number: usize) -> Option<&[u8]>
        ensures { option_copied result ≡ known_line self.now number }
    {
        let place = number.checked_sub(self.first)?;
        self.lines.get(place).map(|line| line.as_slice())
    }

    /// Keeps the line that made the change with this number, if there is memory. The lines of later
    /// changes are dropped.
    pub(crate) fn record(&mut self, number: usize, line: &[u8])
        ensures known { (other : ℕ) → IsKnownAfter self.old number (shown_raw_line line.now) other (known_line self.new other) }
        ensures kept { (other : ℕ) → self.old.first ≤ number → number ≤ self.old.first + length self.old.lines.items → other < number
            → known_line self.new other ≡ known_line self.old other }
    {
        let place = self.place_for(number);
        self.lines.truncate(place);
        let _ = self.push(line);
    }

    /// The place for the line of the change with this number. If lines before it are missing, it is
    /// the first.
    fn place_for(&mut self, number: usize) -> usize
        ensures lines { self.new.lines ≡ self.old.lines }
        ensures place { self.new.first + result ≡ number }
        ensures follows { result ≤ length self.old.lines.items }
        ensures first { result ≢ 0 → self.new.first ≡ self.old.first }
        ensures next { self.old.first ≤ number → number ≤ self.old.first + length self.old.lines.items → self.new.first ≡ self.old.first }
    {
        match number.checked_sub(self.first) {
            Some(place) if place <= self.lines.len() => place,
            _ => {
                self.first = number;
                0
            }
        }
    }

    /// Appends a line.
    fn push(&mut self, line: &[u8]) -> Result<(), AllocError>
        ensures first { self.new.first ≡ self.old.first }
        ensures pushed { MatchResult result
            (λ _. (shown : Vec ℕ Global) × (self.new.lines.items ≡ self.old.lines.items ++ shown ∷ []) × (shown.items ≡ shown_raw_line line.now))
            (λ _. self.new.lines.items ≡ self.old.lines.items) }
    {
        let shown = shown_line(self.alloc, line)?;
        match self.lines.push(shown) {
            Ok(()) => Ok(()),
            Err(_) => Err(AllocError),
        }
    }
}
