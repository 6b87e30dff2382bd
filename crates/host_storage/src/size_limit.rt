//! The limit of the system on the size of a file. A write at the limit ends the process by a
//! signal, so the limit is looked up before a write.

ghost use Rattle.std.specs.Prelude.{◌≡◌, ◌^◌, ◌-◌, nat_le, unwrap_or};
ghost use Rattle.host_storage.specs.System.{is_at_limit};

use crate::process_status::number_after;
use crate::standard_streams::StandardStream;
use std::cell::Cell;
use std::rt::Files;

/// How many bytes the system allows a file of this process. The system is asked once, before the
/// first write, so that reading does not wait for it.
#[derive(Default, Drop)]
pub struct SizeLimit(Cell<Option<u64>>);

impl SizeLimit {
    /// The number of bytes that are allowed.
    fn bytes<R: Files>(&self, rt: &R) -> u64 {
        if let Some(bytes) = self.0.get() {
            return bytes;
        }
        let bytes = limit_of(number_after(rt, "/proc/self/limits", "Max file size"));
        self.0.set(Some(bytes));
        bytes
    }

    /// Whether a file can have this many bytes.
    pub fn holds<R: Files>(&self, rt: &R, length: u64) -> bool {
        is_within_limit(self.bytes(rt), length)
    }

    /// Whether a standard stream goes to a file that has reached the limit: a write to it would end
    /// the process by a signal.
    pub fn is_reached_by<R: Files>(&self, rt: &R, stream: StandardStream) -> bool {
        let limit = self.bytes(rt);
        if limit == u64::MAX {
            return false;
        }
        match stream.metadata(rt) {
            Some(found) if found.is_file() => {
                is_at_limit(limit, found.len(), stream.position(rt))
            }
            _ => false,
        }
    }
}

/// The number of bytes that the system shows, or the greatest number if it shows none: there is no
/// limit, or it does not say.
fn limit_of(found: Option<u64>) -> u64
    ensures { result ≡ unwrap_or found (2 ^ 64 - 1) }
{
    found.unwrap_or(u64::MAX)
}

/// Whether a limit allows a file of this length.
fn is_within_limit(limit: u64, length: u64) -> bool
    ensures { result ≡ nat_le length limit }
{
    length <= limit
}

/// Whether a file of this length, in which the next byte goes to a position, has reached the limit.
fn is_at_limit(limit: u64, length: u64, position: u64) -> bool
    ensures { result ≡ is_at_limit limit length position }
{
    limit <= length.max(position)
}
