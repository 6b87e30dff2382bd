//! Fields of a row of CSV, by what they hold.
ghost use Rattle.std.specs.Prelude.{◌≡◌, [], ◌∷◌, ◌++◌, map, decimal, OnOk};
ghost use Rattle.hex.specs.Hex.{encode_lower};
ghost use Rattle.petscii.specs.Spelling.{spelling};
ghost use Rattle.out_json_csv.specs.Pairs.{pair_field as pair_text_of};
ghost use Rattle.out_json_csv.specs.Rows.{truth_text as truth_text_of, host_field};

use crate::csv_row::CsvRow;
use crate::hexadecimal::spell_hexadecimal;
use crate::name::spell;
use crate::pair::pair_text;
use host_storage::push_shown;
use itoa::Buffer;
use std::alloc::AllocError;
use std::str;

/// Returns `true` or `false`.
fn truth_text(value: bool) -> &'static [u8]
    ensures { result.now ≡ truth_text_of value }
{
    if value { b"true" } else { b"false" }
}

impl CsvRow {
    /// Appends fields.
    pub fn push_fields(&mut self, fields: &[&[u8]]) -> Result<(), AllocError>
        ensures { OnOk result (self.new ≡ self.old ++ map (λ f. f.now) fields.now) }
    {
        for field in fields {
            self.push_field(field)?;
        }
        Ok(())
    }

    /// Appends `true` or `false`.
    pub fn push_boolean(&mut self, value: bool) -> Result<(), AllocError>
        ensures { OnOk result (self.new ≡ self.old ++ truth_text_of value ∷ []) }
    {
        self.push_field(truth_text(value))
    }

    /// Appends a number in decimal.
    pub fn push_number(&mut self, number: u64) -> Result<(), AllocError>
        ensures { OnOk result (self.new ≡ self.old ++ decimal number ∷ []) }
    {
        let mut digits = Buffer::new();
        self.push_field(digits.format(number).as_bytes())
    }

    /// Appends a name in text form.
    pub fn push_name(&mut self, scratch: &mut Vec<u8>, name: &[u8]) -> Result<(), AllocError>
        ensures { OnOk result (self.new ≡ self.old ++ spelling name.now ∷ []) }
    {
        spell(scratch, name)?;
        self.push_field(scratch.as_slice())
    }

    /// Appends a name of the host; a name that is not UTF-8 as it is shown in text.
    pub fn push_host_name(&mut self, scratch: &mut Vec<u8>, name: &[u8]) -> Result<(), AllocError>
        ensures { OnOk result (self.new ≡ self.old ++ host_field name.now ∷ []) }
    {
        match str::from_utf8(name) {
            Ok(_) => self.push_field(name),
            Err(_) => {
                scratch.clear();
                push_shown(scratch, name)?;
                self.push_field(scratch.as_slice())
            }
        }
    }

    /// Appends bytes in hexadecimal digits.
    pub fn push_hexadecimal(
        &mut self,
        scratch: &mut Vec<u8>,
        bytes: &[u8],
    ) -> Result<(), AllocError>
        ensures { OnOk result (self.new ≡ self.old ++ encode_lower bytes.now ∷ []) }
    {
        spell_hexadecimal(scratch, bytes)?;
        self.push_field(scratch.as_slice())
    }

    /// Appends a pair of track and sector.
    pub fn push_pair(&mut self, track: u8, sector: u8) -> Result<(), AllocError>
        ensures { OnOk result (self.new ≡ self.old ++ pair_text_of (track, sector) ∷ []) }
    {
        let text = pair_text(track, sector);
        self.push_field(text.as_str().as_bytes())
    }
}
