//! The read errors of a dump.
ghost use Rattle.std.specs.Prelude.{◌≡◌, OnOk, option_map};
ghost use Rattle.d64_survey.specs.Flaws.{any_unreadable};
ghost use Rattle.d64_survey.specs.ReadErrors.{code_of, read_errors};

use crate::dump::{Dump, is_read_error};
use crate::pushing::push_if;
use d64_image::BlockNo;
use std::alloc::AllocError;

/// A block that could not be read without an error.
#[derive(Clone, Copy, Debug, PartialEq, Eq)]
pub struct ReadError {
    /// The block.
    pub block: BlockNo,
    /// Its read code, which is that of an error.
    pub code: u8,
}

/// The read code of a block; 0, which is no error, if there are no codes.
pub fn code_of(codes: Option<&[u8]>, block: BlockNo) -> u8
    ensures { result ≡ code_of (option_map (λ codes. codes.now) codes.entry) block }
{
    match codes {
        Some(codes) => match codes.get(block.index()) {
            Some(code) => *code,
            None => 0,
        },
        None => 0,
    }
}

/// Whether one of the blocks has a read error.
pub fn any_unreadable(codes: Option<&[u8]>, blocks: &[BlockNo]) -> bool
    ensures { result ≡ any_unreadable (option_map (λ codes. codes.now) codes.entry) blocks.now }
{
    blocks
        .iter()
        .any(|block| is_read_error(code_of(codes, *block)))
}

impl Dump {
    /// Replaces the list by the blocks with a read error, ascending, with their codes. Only the
    /// list allocates.
    pub fn list_read_errors(&self, errors: &mut Vec<ReadError>) -> Result<(), AllocError>
        ensures { OnOk result (errors.new.items ≡ read_errors self.now) }
    {
        let codes = self.codes();
        errors.clear();
        for block in self.image().blocks() {
            let code = code_of(codes, block);
            push_if(errors, ReadError { block, code }, is_read_error(code))?;
        }
        Ok(())
    }
}
