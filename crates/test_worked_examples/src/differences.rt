//! The differences between a case and what it expects.

use std::alloc::{AllocError, Global};
use std::fmt::Debug;

/// The differences of a case, one on each line.
#[derive(Drop)]
pub struct Differences {
    alloc: Global,
    lines: Vec<String>,
}

impl Differences {
    pub fn none(alloc: Global) -> Differences {
        Differences {
            alloc,
            lines: Vec::new(alloc),
        }
    }

    pub fn is_any(&self) -> bool {
        !self.lines.is_empty()
    }

    pub fn lines(&self) -> &[String] {
        self.lines.as_slice()
    }

    /// Adds what is found instead of what is expected at this line of the case.
    pub fn add(
        &mut self,
        line: usize,
        what: &str,
        found: &str,
        wanted: &str,
    ) -> Result<(), AllocError> {
        let difference = format!(in self.alloc; "line {line}: {what}: {found}, not {wanted}")?;
        self.lines.push(difference)?;
        Ok(())
    }

    /// Adds a value that is not as expected.
    pub fn look_at_values<T: Debug + PartialEq>(
        &mut self,
        line: usize,
        what: &str,
        found: &T,
        wanted: &T,
    ) -> Result<(), AllocError> {
        if found == wanted {
            return Ok(());
        }
        let difference = format!(in self.alloc; "line {line}: {what}: {found:?}, not {wanted:?}")?;
        self.lines.push(difference)?;
        Ok(())
    }

    /// Adds the first line of a text that is not as expected.
    pub fn look_at_lines(
        &mut self,
        line: usize,
        what: &str,
        found: &[u8],
        wanted: &[u8],
    ) -> Result<(), AllocError> {
        if found == wanted {
            return Ok(());
        }
        let mut wanted_lines = wanted.split(|byte| *byte == b'\n');
        for found_line in found.split(|byte| *byte == b'\n') {
            let wanted_line = wanted_lines.next();
            if wanted_line != Some(found_line) {
                return self.add(line, what, text_of(Some(found_line)), text_of(wanted_line));
            }
        }
        self.add(line, what, text_of(None), text_of(wanted_lines.next()))
    }

    /// Adds the first byte that is not as expected, or the numbers of bytes if they differ.
    pub fn look_at_bytes(
        &mut self,
        line: usize,
        what: &str,
        found: &[u8],
        wanted: &[u8],
    ) -> Result<(), AllocError> {
        let pairs = found.iter().zip(wanted).enumerate();
        for (place, (one, other)) in pairs {
            if one != other {
                let difference = format!(in self.alloc;
                    "line {line}: {what}: byte {place} is {one:02x}, not {other:02x}"
                )?;
                self.lines.push(difference)?;
                return Ok(());
            }
        }
        self.look_at_values(line, what, &found.len(), &wanted.len())
    }
}

/// Returns a line as it is printed.
fn text_of(line: Option<&[u8]>) -> &str {
    match line {
        None | Some([]) => "no line",
        Some(bytes) => str::from_utf8(bytes).unwrap_or("bytes that are no text"),
    }
}
