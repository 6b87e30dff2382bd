//! The reasons why a text is not the text form of any bytes.

ghost use Rattle.std.specs.Prelude.{◌≡◌, alloc_error};
ghost use Rattle.petscii.specs.declared.fault.TextFault.TheVariants.{Memory};

use std::alloc::{AllocError, AllocFailed};
use thiserror::Error;

/// The leftmost fault of a text. A place is an offset in bytes from the text's start, from 0.
#[derive(Clone, Copy, Debug, PartialEq, Eq, Error)]
pub enum TextFault {
    /// The part between the `{` at this place and the next `}` is neither the name of a control
    /// code nor a value.
    #[error("at offset {place}: unknown name in braces; write a control code, as {{clr}}, or a byte's value, as {{$93}}")]
    UnknownName { place: usize },
    /// No `}` follows the `{` at this place.
    #[error("at offset {place}: the {{ is not closed by a }}")]
    OpenBrace { place: usize },
    /// The byte at this place spells nothing, like a `}` without a `{`, a `|` or a line end.
    #[error("at offset {place}: no byte has this character; write the byte's value, as {{$7c}}")]
    BadByte { place: usize },
    /// There is no memory for the bytes.
    #[error("out of memory")]
    Memory(AllocError),
}

impl From<AllocError> for TextFault {
    ghost from_gives = { λ error fault. fault ≡ Memory error };

    fn from(error: AllocError) -> TextFault {
        TextFault::Memory(error)
    }
}

impl From<AllocFailed<u8>> for TextFault {
    ghost from_gives = { λ _ fault. fault ≡ Memory alloc_error };

    fn from(_failed: AllocFailed<u8>) -> TextFault {
        TextFault::Memory(AllocError)
    }
}
