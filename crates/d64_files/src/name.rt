//! The names of files and disks.
ghost use Rattle.std.specs.Prelude.{◌≡◌, ◌↔◌, IsOk, is_ok, IfOk, IfErr};
ghost use Rattle.d64_files.specs.Label.{IsLabelFault};
ghost use Rattle.d64_files.specs.Name.{IsName, is_name, name_in, filled_field, forbidden_in_names};

use crate::label::{BadName, MAX_LEN, label};
use arrayvec::ArrayVec;
use std::marker::Model;

/// The bytes that no name has: the wildcards of patterns, the separators of the drive's commands,
/// and the byte that fills the field of a name.
const FORBIDDEN: &[u8; 8] = b"*?=:,\"\r\xA0";

/// The byte that fills the field of a name, a shifted space.
pub const FILLER: u8 = 0xA0;

/// The name in a field, which is filled with $A0: the bytes up to the first of these, or all of
/// them.
pub fn name_in(field: &[u8]) -> &[u8]
    ensures { result.now ≡ name_in field.now }
{
    match field.iter().position(|byte| *byte == FILLER) {
        Some(end) => &field[..end],
        None => field,
    }
}

/// The name of a file or a disk (1541 User's Guide): 1 to 16 bytes of PETSCII other than `*` `?`
/// `=` `:` `,` `"`, $0D and $A0.
#[derive(Clone, Debug, Drop, PartialEq, Eq, Hash)]
pub struct Name {
    text: ArrayVec<u8, MAX_LEN>,
}

impl Model for Name {
    ghost use Rattle.std.specs.Prelude.{ℕ, List};
    ghost use Rattle.d64_files.specs.Name.{IsName};

    ghost Value = { List ℕ };

    ghost view = { λ name. name.text.items };

    ghost invariant = { λ name. IsName name.text.items };

    ghost inverse = { λ bytes. record { text = record { items = bytes } } };
}

impl Name {
    /// Makes a name of these bytes. It allocates nothing.
    ///
    /// The error is `Empty` if there is no byte, `TooLong` if there are more than 16, and otherwise
    /// `Forbidden` if one of them is `*` `?` `=` `:` `,` `"`, $0D or $A0.
    pub fn new(bytes: &[u8]) -> Result<Name, BadName>
        ensures accepted { IsOk result ↔ IsName bytes.now }
        ensures test { is_ok result ≡ is_name bytes.now }
        ensures bytes { IfOk result (λ name. name ≡ bytes.now) }
        ensures fault { IfErr result (IsLabelFault forbidden_in_names bytes.now) }
    {
        let text = label(bytes, FORBIDDEN)?;
        Ok(Name { text })
    }

    /// The 1 to 16 bytes of the name.
    pub fn bytes(&self) -> &[u8]
        ensures bytes { result.now ≡ self.now }
        ensures name { IsName self.now }
    {
        self.text.as_slice()
    }

    /// The 16 bytes of a name's field: the name, and then shifted spaces ($A0) (1541 User's Guide).
    pub fn field(&self) -> [u8; MAX_LEN]
        ensures { result ≡ filled_field self.now }
    {
        let name = self.bytes();
        let mut field = [FILLER; MAX_LEN];
        field[..name.len()].copy_from_slice(name);
        field
    }

    /// Does nothing: its contract states what a name is, for callers that need it in a proof.
    pub fn known_name(&self)
        ensures { IsName self.now }
    {
        self.bytes();
    }
}
