//! Outcomes of calls of the system, without the errors themselves.

ghost use Rattle.std.specs.Prelude.{◌≡◌, Ok, Err, MatchResult};
ghost use Rattle.std.specs.IoError.{error_kind};

use crate::host::HostFault;
use std::io::{self, ErrorKind};

/// The outcome of a call, with the kind of an error in its place.
pub fn by_kind<T>(outcome: io::Result<T>) -> Result<T, ErrorKind>
    ensures { MatchResult outcome (λ value. result ≡ Ok value) (λ error. result ≡ Err (error_kind error)) }
{
    match outcome {
        Ok(value) => Ok(value),
        Err(error) => Err(error.kind()),
    }
}

/// The outcome of a call, with the fault of the device in place of an error.
pub fn or_device<T>(outcome: io::Result<T>) -> Result<T, HostFault>
    ensures { MatchResult outcome (λ value. result ≡ Ok value) (λ _. result ≡ Err HostFault.Device) }
{
    match outcome {
        Ok(value) => Ok(value),
        Err(_) => Err(HostFault::Device),
    }
}
