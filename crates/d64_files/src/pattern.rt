//! Patterns, and which names they match.
ghost use Rattle.std.specs.Prelude.{◌≡◌, ◌↔◌, IsTrue, IsOk, is_ok, IfOk, IfErr};
ghost use Rattle.d64_files.specs.Label.{IsLabelFault, separators};
ghost use Rattle.d64_files.specs.Pattern.{IsPattern, is_pattern, Matches, matches as is_match};

use crate::label::{BadName, MAX_LEN, label};
use arrayvec::ArrayVec;
use std::marker::Model;

/// The bytes that no pattern has: those that no name has, except the wildcards.
const FORBIDDEN: &[u8; 6] = b"=:,\"\r\xA0";

/// A pattern that selects files by their names (1541 User's Guide): 1 to 16 bytes of PETSCII other
/// than `=` `:` `,` `"`, $0D and $A0.
#[derive(Clone, Debug, Drop, PartialEq, Eq, Hash)]
pub struct Pattern {
    text: ArrayVec<u8, MAX_LEN>,
}

impl Model for Pattern {
    ghost use Rattle.std.specs.Prelude.{ℕ, List};
    ghost use Rattle.d64_files.specs.Pattern.{IsPattern};

    ghost Value = { List ℕ };

    ghost view = { λ pattern. pattern.text.items };

    ghost invariant = { λ pattern. IsPattern pattern.text.items };

    ghost inverse = { λ bytes. record { text = record { items = bytes } } };
}

impl Pattern {
    /// Makes a pattern of these bytes. It allocates nothing.
    ///
    /// The error is `Empty` if there is no byte, `TooLong` if there are more than 16, and otherwise
    /// `Forbidden` if one of them is `=` `:` `,` `"`, $0D or $A0.
    pub fn new(bytes: &[u8]) -> Result<Pattern, BadName>
        ensures accepted { IsOk result ↔ IsPattern bytes.now }
        ensures test { is_ok result ≡ is_pattern bytes.now }
        ensures bytes { IfOk result (λ pattern. pattern ≡ bytes.now) }
        ensures fault { IfErr result (IsLabelFault separators bytes.now) }
    {
        let text = label(bytes, FORBIDDEN)?;
        Ok(Pattern { text })
    }

    /// The 1 to 16 bytes of the pattern.
    pub fn bytes(&self) -> &[u8]
        ensures bytes { result.now ≡ self.now }
        ensures pattern { IsPattern self.now }
    {
        self.text.as_slice()
    }
}

/// Whether the pattern matches the name (1541 User's Guide): `?` stands for exactly one byte, `*`
/// for any rest, and every other byte for itself. What follows a `*` is ignored.
pub fn matches(pattern: &Pattern, name: &[u8]) -> bool
    ensures cases { IsTrue result ↔ Matches pattern.now name.now }
    ensures test { result ≡ is_match pattern.now name.now }
{
    let mut rest = name;
    for expected in pattern.bytes() {
        if *expected == b'*' {
            return true;
        }
        let Some((first, after)) = rest.split_first() else {
            return false;
        };
        if *expected != b'?' && *expected != *first {
            return false;
        }
        rest = after;
    }
    rest.is_empty()
}
