//! Resuming sessions from session files.
ghost use Rattle.std.specs.Prelude.{◌≡◌, Err, IfOk, IfErr};
ghost use Rattle.d64_history.specs.FromReader.{GivesAtMost, IsReadFault, IsReadOf, NotesReads};
ghost use Rattle.d64_history.specs.declared.from_reader.SessionReadFault.TheVariants.{Device};
ghost use Rattle.d64_history.specs.ResumeFault.{first_resume_fault, resume_refused_by};
ghost use Rattle.d64_history.specs.SessionFile.{file_of, IsSession};

use crate::session::Session;
use d64_history::{ReadNote, ResumeFault, SessionReadFault};
use std::alloc::Global;
use std::io::Read;

/// Resumes the session whose file these bytes are. An error is the first fault found in reading
/// them, or that memory is out, which may come in place of any result. It allocates the session,
/// and one more image while it reads.
pub fn resume(alloc: Global, bytes: &[u8]) -> Result<Session, ResumeFault>
    ensures refused { resume_refused_by result (first_resume_fault bytes.now) ≡ first_resume_fault bytes.now }
    ensures file { IfOk result (λ session. file_of session ≡ bytes.now) }
    ensures session { IfOk result IsSession }
{
    let held = d64_history::resume(alloc, bytes)?;
    Ok(Session::of_held(alloc, held))
}

/// Resumes the session of the file that a reader gives, of at most `limit` bytes. The file is read
/// to its end, so that the fault of a read that fails, or of a byte too many, comes before any
/// fault of the bytes; the note says whether a read failed. It allocates what the session holds.
pub fn resume_from<R: Read>(
    alloc: Global,
    reader: &mut R,
    note: &mut ReadNote,
    limit: u32,
) -> Result<Session, SessionReadFault>
    ensures session { IfOk result (λ session. IsReadOf (R.remaining reader.old) limit session) }
    ensures fault { IfErr result (λ fault. IsReadFault (R.remaining reader.old) limit fault) }
    ensures device { result ≡ Err Device → GivesAtMost limit (R.remaining reader.old) (R.remaining reader.new) }
    ensures noted { NotesReads note.old note.new result }
{
    let held = d64_history::resume_from(alloc, reader, note, limit)?;
    Ok(Session::of_held(alloc, held))
}
