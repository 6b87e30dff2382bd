//! Resuming histories from readers.
ghost use Rattle.std.specs.Prelude.{◌≡◌, ◌+◌, ◌<◌, ◌≤◌, [], length, take, OnOk, IfOk, IfErr, Err};
ghost use Rattle.std.specs.Io.KnownBytes.{Consumes, IsAtEnd, Keeps};
ghost use Rattle.d64_image.specs.Disk.{Bytes, AreBytes};
ghost use Rattle.d64_history.specs.FromReader.{GivesAtMost, IsReadFault, IsReadOf, IsRestFault, NotesReads};
ghost use Rattle.d64_history.specs.Held.{IsHeld, held_history};
ghost use Rattle.d64_history.specs.declared.from_reader.SessionReadFault.TheVariants.{Device};

use crate::held::HeldHistory;
use crate::read_note::ReadNote;
use crate::resume_fault::ResumeFault;
use crate::resuming::Resuming;
use d64_image::known_bytes;
use std::alloc::Global;
use std::io::Read;
use thiserror::Error;

/// How many bytes are read at once, at most.
const PIECE_BYTES: usize = 16_384;

/// Why a reader gives no history.
#[derive(Clone, Copy, Debug, PartialEq, Eq, Error)]
pub enum SessionReadFault {
    /// A read failed.
    #[error("a read failed")]
    Device,
    /// There are more bytes than allowed.
    #[error("the session file is too long")]
    TooLong,
    /// The bytes are no session file, or there is no memory for the history.
    #[error(transparent)]
    Resume(ResumeFault),
}

impl From<ResumeFault> for SessionReadFault {
    ghost use Rattle.std.specs.Prelude.{◌≡◌};
    ghost use Rattle.d64_history.specs.declared.from_reader.SessionReadFault.TheVariants.{Resume};

    ghost from_gives = { λ fault reported. reported ≡ Resume fault };

    fn from(fault: ResumeFault) -> SessionReadFault {
        SessionReadFault::Resume(fault)
    }
}

/// Reads a piece into the front of the buffer, and takes its length off the bytes that may still be
/// read. Returns that length, which is 0 at the end.
fn read_piece<R: Read>(
    reader: &mut R,
    note: &mut ReadNote,
    buffer: &mut [u8; PIECE_BYTES],
    left: &mut u32,
) -> Result<usize, SessionReadFault>
    ensures within { IfOk result (λ count. count ≤ length buffer.new) }
    ensures piece { IfOk result (λ count. Consumes (R.remaining reader.old) (R.remaining reader.new) (take count buffer.new)) }
    ensures end { IfOk result (λ count. count ≡ 0 → IsAtEnd (R.remaining reader.new)) }
    ensures bytes { AreBytes buffer.new }
    ensures left { IfOk result (λ count. count + left.new ≡ left.old) }
    ensures fault { IfErr result (λ fault. IsRestFault (R.remaining reader.old) left.old fault) }
    ensures device { result ≡ Err Device → Keeps (R.remaining reader.old) (R.remaining reader.new) }
    ensures noted { NotesReads note.old note.new result }
{
    let outcome = note.read(reader, buffer);
    known_bytes(buffer);
    match outcome {
        Ok(count) if count > *left as usize => Err(SessionReadFault::TooLong),
        Ok(count) => {
            *left -= count as u32;
            Ok(count)
        }
        Err(_) => Err(SessionReadFault::Device),
    }
}

/// Reads all that is left, up to a number of bytes, only for the fault that this may give.
fn read_past<R: Read>(
    reader: &mut R,
    note: &mut ReadNote,
    buffer: &mut [u8; PIECE_BYTES],
    limit: u32,
) -> Result<(), SessionReadFault>
    ensures end { OnOk result ((more : Bytes)
        × Consumes (R.remaining reader.old) (R.remaining reader.new) more
        × IsAtEnd (R.remaining reader.new)
        × AreBytes more
        × (length more ≤ limit)) }
    ensures fault { IfErr result (λ fault. IsRestFault (R.remaining reader.old) limit fault) }
    ensures device { result ≡ Err Device → GivesAtMost limit (R.remaining reader.old) (R.remaining reader.new) }
    ensures noted { NotesReads note.old note.new result }
{
    let mut left = limit;
    for _ in 0..u64::MAX {
        if read_piece(reader, note, buffer, &mut left)? == 0 {
            return Ok(());
        }
    }
    unreachable!()
}

/// Reads all that is left, up to a number of bytes, into a session file that has none yet. The
/// fault of a read that fails, or of a byte too many, comes before any fault of the bytes.
fn read_all<R: Read>(
    file: &mut Resuming,
    reader: &mut R,
    note: &mut ReadNote,
    limit: u32,
) -> Result<(), SessionReadFault>
    requires { file.old ≡ [] }
    ensures read { OnOk result (Consumes (R.remaining reader.old) (R.remaining reader.new) file.new
        × IsAtEnd (R.remaining reader.new)
        × AreBytes file.new
        × (length file.new ≤ limit)) }
    ensures fault { IfErr result (λ fault. IsReadFault (R.remaining reader.old) limit fault) }
    ensures device { result ≡ Err Device → GivesAtMost limit (R.remaining reader.old) (R.remaining reader.new) }
    ensures noted { NotesReads note.old note.new result }
{
    let mut buffer = [0; PIECE_BYTES];
    let mut left = limit;
    for _ in 0..u64::MAX {
        let count = read_piece(reader, note, &mut buffer, &mut left)?;
        if count == 0 {
            return Ok(());
        }
        if let Err(fault) = file.push(&buffer[..count]) {
            read_past(reader, note, &mut buffer, left)?;
            return Err(SessionReadFault::from(fault));
        }
    }
    unreachable!()
}

/// Resumes the history of the session file that a reader gives, of at most `limit` bytes. The file
/// is read to its end, so that the fault of a read that fails, or of a byte too many, comes before
/// any fault of the bytes; the note says whether a read failed. It allocates what is held of the
/// history.
pub fn resume_from<R: Read>(
    alloc: Global,
    reader: &mut R,
    note: &mut ReadNote,
    limit: u32,
) -> Result<HeldHistory, SessionReadFault>
    ensures held { IfOk result IsHeld }
    ensures session { IfOk result (λ held. IsReadOf (R.remaining reader.old) limit (held_history held)) }
    ensures fault { IfErr result (λ fault. IsReadFault (R.remaining reader.old) limit fault) }
    ensures device { result ≡ Err Device → GivesAtMost limit (R.remaining reader.old) (R.remaining reader.new) }
    ensures noted { NotesReads note.old note.new result }
{
    let mut file = Resuming::new(alloc);
    read_all(&mut file, reader, note, limit)?;
    Ok(file.finish()?)
}
