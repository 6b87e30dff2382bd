//! Resuming session files, piece by piece.
ghost use Rattle.std.specs.Prelude.{◌≡◌, ◌++◌, ◌≤◌, Some, [], length, drop, IfOk, IfErr, OnOk};
ghost use Rattle.d64_image.specs.Disk.{Bytes};
ghost use Rattle.d64_history.specs.Held.{IsHeld, held_history};
ghost use Rattle.d64_history.specs.ResumeFault.{first_resume_fault, resume_refused_by, reported_by, parts_at};
ghost use Rattle.d64_history.specs.declared.resuming.TheConstants.{PART_BYTES};
ghost use Rattle.d64_history.specs.Resuming.{AreStarted, Fails, IsEndOf, IsStarted, given_bytes};
ghost use Rattle.d64_history.specs.SessionFile.{file_of, IsSession};

use crate::file_parts::{FileParts, read_records, read_start};
use crate::held::HeldHistory;
use crate::leading::lead_away;
use crate::resume_fault::ResumeFault;
use d64_image::{BLOCK_BYTES, BLOCKS};
use std::alloc::Global;
use std::marker::Model;

/// How many bytes are enough to read a part of a session file: a record of all blocks of a disk,
/// and the index of one block more.
const PART_BYTES: usize = 4 + BLOCKS * (2 + BLOCK_BYTES);

/// How many bytes are held before parts are read of them: twice as many as a part may need, so that
/// no more bytes are moved to the front than were read.
const HELD_BYTES: usize = 2 * PART_BYTES;

/// A session file that is given in pieces: what was read of it, and the bytes that are not yet
/// enough to be read.
#[derive(Drop)]
pub struct Resuming {
    alloc: Global,
    parts: Option<FileParts>,
    rest: Vec<u8>,
}

impl Model for Resuming {
    ghost use Rattle.d64_image.specs.Disk.{Bytes};
    ghost use Rattle.d64_history.specs.Resuming.{AreStarted, given_bytes};

    ghost Value = { Bytes };

    ghost view = { λ file. given_bytes file.parts file.rest.items };

    ghost invariant = { λ file. AreStarted file.parts };
}

/// Removes bytes from the front.
fn drop_front(bytes: &mut Vec<u8>, count: usize)
    requires { count ≤ length bytes.old.items }
    ensures { bytes.new.items ≡ drop count bytes.old.items }
{
    let left = bytes.len() - count;
    bytes.copy_within(count.., 0);
    bytes.truncate(left);
}

impl Resuming {
    /// A session file of which no byte was given. It allocates nothing.
    pub fn new(alloc: Global) -> Resuming
        ensures { result ≡ [] }
    {
        Resuming {
            alloc,
            parts: None,
            rest: Vec::new(alloc),
        }
    }

    /// Takes the next bytes of the file. An error is the first fault found in reading them,
    /// whatever comes after them, or that memory is out. It allocates what the session holds.
    pub fn push(&mut self, piece: &[u8]) -> Result<(), ResumeFault>
        ensures given { OnOk result (self.new ≡ self.old ++ piece.now) }
        ensures refused { IfErr result (λ fault. (more : Bytes) → reported_by fault (first_resume_fault (self.old ++ piece.now ++ more)) ≡ first_resume_fault (self.old ++ piece.now ++ more)) }
    {
        self.rest.extend_from_slice(piece)?;
        self.read_on()
    }

    /// Reads all parts for which there are enough bytes, once `HELD_BYTES` are held.
    fn read_on(&mut self) -> Result<(), ResumeFault>
        ensures given { OnOk result (self.new ≡ self.old) }
        ensures refused { IfErr result (λ fault. (more : Bytes) → Fails fault (parts_at (self.old ++ more))) }
    {
        if self.rest.len() < HELD_BYTES {
            return Ok(());
        }
        let (mut parts, after) = started(self.alloc, self.parts.take(), self.rest.as_slice())?;
        let after = read_records(self.alloc, &mut parts, after, PART_BYTES)?;
        let taken = self.rest.len() - after.len();
        self.parts = Some(parts);
        drop_front(&mut self.rest, taken);
        Ok(())
    }

    /// The history whose file these bytes were. An error is the first fault found in reading them,
    /// or that memory is out, which may come in place of any result. It allocates one more image
    /// while it checks the records.
    pub fn finish(self) -> Result<HeldHistory, ResumeFault>
        ensures refused { resume_refused_by result (first_resume_fault self) ≡ first_resume_fault self }
        ensures held { IfOk result IsHeld }
        ensures file { IfOk result (λ held. file_of (held_history held) ≡ self) }
        ensures session { IfOk result (λ held. IsSession (held_history held)) }
    {
        history_of_parts(self.alloc, self.parts, self.rest.as_slice())
    }
}

/// The parts before the records, read now unless they were read before, and the bytes after them.
fn started(
    alloc: Global,
    parts: Option<FileParts>,
    rest: &[u8],
) -> Result<(FileParts, &[u8]), ResumeFault>
    requires { AreStarted parts }
    ensures started { IfOk result (λ x. IsStarted x.0) }
    ensures given { IfOk result (λ x. given_bytes (Some x.0) x.1.now ≡ given_bytes parts rest.now) }
    ensures end { IfOk result (λ x. IsEndOf x.1.now rest.now) }
    ensures fault { IfErr result (λ fault. Fails fault (parts_at (given_bytes parts rest.now))) }
    ensures early { PART_BYTES ≤ length rest.now → IfErr result (λ fault. (more : Bytes) → Fails fault (parts_at (given_bytes parts rest.now ++ more))) }
{
    match parts {
        Some(parts) => Ok((parts, rest)),
        None => read_start(alloc, rest),
    }
}

/// The history of the parts that were read of a file, and of the bytes after them.
fn history_of_parts(
    alloc: Global,
    parts: Option<FileParts>,
    rest: &[u8],
) -> Result<HeldHistory, ResumeFault>
    requires { AreStarted parts }
    ensures refused { resume_refused_by result (first_resume_fault (given_bytes parts rest.now)) ≡ first_resume_fault (given_bytes parts rest.now) }
    ensures held { IfOk result IsHeld }
    ensures file { IfOk result (λ held. file_of (held_history held) ≡ given_bytes parts rest.now) }
    ensures session { IfOk result (λ held. IsSession (held_history held)) }
{
    let (mut parts, rest) = started(alloc, parts, rest)?;
    let after = read_records(alloc, &mut parts, rest, 0)?;
    if !after.is_empty() {
        return Err(ResumeFault::Trailing);
    }
    let done = parts.done as usize;
    if !lead_away(alloc, &parts.image, &parts.records, done)? {
        return Err(ResumeFault::BadRecord);
    }
    Ok(HeldHistory {
        image: parts.image,
        records: parts.records,
        done,
    })
}

/// The history whose session file these bytes are. An error is the first fault found in reading
/// them, or that memory is out, which may come in place of any result. It allocates the history,
/// and one more image while it reads.
pub fn resume(alloc: Global, bytes: &[u8]) -> Result<HeldHistory, ResumeFault>
    ensures refused { resume_refused_by result (first_resume_fault bytes.now) ≡ first_resume_fault bytes.now }
    ensures held { IfOk result IsHeld }
    ensures file { IfOk result (λ held. file_of (held_history held) ≡ bytes.now) }
    ensures session { IfOk result (λ held. IsSession (held_history held)) }
{
    history_of_parts(alloc, None, bytes)
}
