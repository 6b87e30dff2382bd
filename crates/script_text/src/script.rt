//! Reading a whole script or text, within its limits.

ghost use Rattle.std.specs.Prelude.{◌≡◌, ◌≤◌, true, false, IfOk, vec_len, MatchBool};
ghost use Rattle.host_storage.specs.Input.{IsUnread, IsUnreadable, reading_of, input_limit};
ghost use Rattle.script_text.specs.Script.{IsReadFrom};

use host_storage::{INPUT_BYTES, INPUT_READS, InputStream, READ_BYTES};
use std::alloc::{AllocError, Global};
use std::io::Read;

/// What was read of a script.
#[derive(Drop)]
pub struct Script {
    /// The bytes that were read, at most `INPUT_BYTES`.
    pub bytes: Vec<u8>,
    /// Whether the end was found within the limits.
    pub whole: bool,
}

impl Script {
    /// A script that was read to its end.
    fn to_its_end(bytes: Vec<u8>) -> Self
        ensures { result ≡ record { bytes = bytes; whole = true } }
    {
        Script { bytes, whole: true }
    }

    /// What was read of a script before its reading stopped.
    fn cut_short(bytes: Vec<u8>) -> Self
        ensures { result ≡ record { bytes = bytes; whole = false } }
    {
        Script {
            bytes,
            whole: false,
        }
    }
}

/// Reads an input to its end, as a script. Nothing was read of it before. A read that fails stops
/// it, also one that is interrupted.
///
/// If memory runs out, nothing is promised of what the reader has left.
pub fn read_input<R: Read>(
    alloc: Global,
    input: &mut InputStream<'_, R>,
) -> Result<Script, AllocError>
    requires { IsUnread (reading_of input.old.reads input.old.came input.old.has_failed) }
    ensures same { input.new.reader.ghost_name ≡ input.old.reader.ghost_name }
    ensures read { IfOk result (IsReadFrom (R.remaining input.old.reader.now) (R.remaining input.new.reader.now)) }
    ensures bounded { IfOk result (λ script. vec_len script.bytes ≤ input_limit) }
    ensures ended { IfOk result (λ script. MatchBool script.whole (input.new.has_failed ≡ false)
        (IsUnreadable (reading_of input.new.reads input.new.came input.new.has_failed))) }
{
    let mut bytes = Vec::new(alloc);
    let mut buffer = [0; READ_BYTES];
    for _ in 0..INPUT_READS {
        let count = match input.read(&mut buffer) {
            Ok(0) => return Ok(Script::to_its_end(bytes)),
            Ok(count) => count,
            Err(_) => return Ok(Script::cut_short(bytes)),
        };
        let room = INPUT_BYTES - bytes.len();
        bytes.extend_from_slice(&buffer[..count.min(room)])?;
        if count > room {
            return Ok(Script::cut_short(bytes));
        }
    }
    Ok(Script::cut_short(bytes))
}
