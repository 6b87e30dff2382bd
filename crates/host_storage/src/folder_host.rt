//! A host over the files of the system, in the current folder.

ghost use Rattle.std.specs.Prelude.{◌≡◌, ◌≢◌, ◌+◌, ◌<◌, ◌≤◌, ◌↔◌, ◌++◌, length, take, vec_len, None, Err, IfOk, IfErr, IfSome, OnOk, OnErr, MatchResult};
ghost use Rattle.std.specs.Io.KnownBytes.{Consumes, IsAtEnd, Keeps};
ghost use Rattle.std.specs.IoError.{error_kind};
ghost use Rattle.host_storage.specs.Folders.{failures_after_making};
ghost use Rattle.host_storage.specs.Host.{failures_after};

use crate::host::{FolderFault, Host, HostFault, Obstacle, WriteObstacle};
use crate::retrying::Retrying;
use crate::standard_streams::StandardStreams;
use crate::whole_store::store_file;
use crate::writes::Writes;
use crate::{look, new_entry, whole_file};
use std::alloc::{AllocError, Global};
use std::fs::File;
use std::io::{self, ErrorKind, Read};
use std::marker::Model;
use std::os::fd::AsFd;
use std::path::Path;
use std::rt::Files;

/// How many bytes each read of a file asks for. An image of 35 tracks takes twelve reads, of which
/// the last finds the end.
const FILE_READ_BYTES: usize = 16_384;

/// The files of the system, by their paths from the current folder.
/// It exposes no files to proofs, since others write to them too. A store replaces an existing file
/// in one step, or leaves it unchanged; a new file is removed again if writing it fails. What is
/// made new does not wait for the disk, unless it is to be made whole.
#[derive(Drop)]
pub struct FolderHost<R> {
    rt: R,
    /// The buffer for reads, from the first read on. It is kept, so that it is cleared once and not
    /// for each file.
    buffer: Option<Box<[u8; FILE_READ_BYTES]>>,
    writes: Writes,
    /// What is open as the standard streams, from the first store on.
    streams: Option<StandardStreams>,
    failures: u64,
}

impl<R> Model for FolderHost<R> {
    ghost use Rattle.std.specs.Prelude.{ℕ};

    ghost Value = { ℕ };

    ghost view = { λ host. host.failures };
}

impl<R: Files + Drop> FolderHost<R> {
    /// A host over the files of this runtime, which has counted no failure.
    pub fn new(rt: R) -> FolderHost<R>
        ensures { result ≡ 0 }
    {
        FolderHost {
            rt,
            buffer: None,
            writes: Writes::default(),
            streams: None,
            failures: 0,
        }
    }
}

impl<R: Files + Drop> Host for FolderHost<R>
where
    R::File: AsFd,
{
    type File = Retrying<R::File>;

    ghost state = { λ count. record { files = None; failures = count } };

    fn fetch(&mut self, alloc: Global, name: &str, limit: usize) -> Result<Vec<u8>, HostFault> {
        let mut bytes = Vec::new(alloc);
        let outcome = read_file(&self.rt, name, &mut self.buffer, limit, &mut bytes);
        count_failure(&mut self.failures, &outcome);
        match outcome {
            Ok(()) => Ok(bytes),
            Err(fault) => Err(fault),
        }
    }

    fn fill(&mut self, name: &str, limit: usize, bytes: &mut Vec<u8>) -> Result<(), HostFault> {
        if look::is_named_pipe(&self.rt, name) {
            self.count_failed_read();
            return Err(HostFault::Device);
        }
        let outcome = read_file(&self.rt, name, &mut self.buffer, limit, bytes);
        count_failure(&mut self.failures, &outcome);
        outcome
    }

    fn open(&mut self, name: &str) -> Result<Retrying<R::File>, HostFault> {
        let outcome = open_file(&self.rt, name);
        count_failure(&mut self.failures, &outcome);
        outcome
    }

    fn count_failed_read(&mut self) {
        self.failures = self.failures.saturating_add(1);
    }

    fn store(&mut self, alloc: Global, name: &str, bytes: &[u8]) -> Result<(), HostFault> {
        self.writes.begin();
        let rt = &self.rt;
        let streams = self
            .streams
            .get_or_insert_with(|| StandardStreams::of_process(rt));
        let outcome = store_file(rt, alloc, &self.writes, streams, name, bytes);
        count_failure(&mut self.failures, &outcome);
        outcome
    }

    fn is_there(&self, path: &str) -> bool {
        new_entry::is_there(&self.rt, path)
    }

    fn obstacle(&self, path: &str) -> Option<Obstacle> {
        look::obstacle(&self.rt, path)
    }

    fn write_obstacle(&self, path: &str) -> Option<WriteObstacle> {
        match self.writes.obstacle() {
            Some(seen) => Some(seen),
            None => look::write_obstacle(&self.rt, path),
        }
    }

    fn make_folder(&mut self, path: &str) -> Result<(), FolderFault> {
        self.writes.begin();
        let outcome = new_entry::make_folder(&self.rt, &self.writes, path);
        count_refusal(&mut self.failures, &outcome);
        outcome
    }

    fn make_file(&mut self, path: &str, bytes: &[u8]) -> Result<(), FolderFault> {
        self.writes.begin();
        let path = Path::new(path);
        let outcome = new_entry::make_file(&self.rt, &self.writes, path, bytes);
        count_refusal(&mut self.failures, &outcome);
        outcome
    }

    fn make_whole_file(
        &mut self,
        alloc: Global,
        path: &str,
        bytes: &[u8],
    ) -> Result<(), FolderFault> {
        self.writes.begin();
        let path = Path::new(path);
        let outcome = whole_file::make_whole_file(&self.rt, alloc, &self.writes, path, bytes);
        count_refusal(&mut self.failures, &outcome);
        outcome
    }

    fn extend_file(&mut self, path: &str, bytes: &[u8]) -> Result<(), FolderFault> {
        self.writes.begin();
        let outcome = new_entry::extend_file(&self.rt, &self.writes, path, bytes);
        count_refusal(&mut self.failures, &outcome);
        outcome
    }

    fn rename_folder(&mut self, from: &str, to: &str) -> Result<(), FolderFault> {
        self.writes.begin();
        let outcome = new_entry::rename_folder(&self.rt, &self.writes, from, to);
        count_refusal(&mut self.failures, &outcome);
        outcome
    }

    fn failures(&self) -> u64 {
        self.failures
    }
}

/// Counts an outcome if it is a failure of the device.
fn count_failure<T>(failures: &mut u64, outcome: &Result<T, HostFault>)
    ensures { failures.new ≡ failures_after failures.old outcome.now }
{
    if let Err(HostFault::Device) = outcome {
        *failures = failures.saturating_add(1);
    }
}

/// Counts an outcome of a call that makes something new, if it is a failure of the device.
fn count_refusal(failures: &mut u64, outcome: &Result<(), FolderFault>)
    ensures { failures.new ≡ failures_after_making failures.old outcome.now }
{
    if let Err(FolderFault::Device) = outcome {
        *failures = failures.saturating_add(1);
    }
}

/// Replaces `bytes` by the bytes of the file at this path.
fn read_file<R: Files>(
    rt: &R,
    path: &str,
    buffer: &mut Option<Box<[u8; FILE_READ_BYTES]>>,
    limit: usize,
    bytes: &mut Vec<u8>,
) -> Result<(), HostFault>
    ensures { OnOk result (length bytes.new.items ≤ limit) }
{
    let mut file = open_file(rt, path)?;
    if buffer.is_none() {
        match Box::new(*bytes.allocator(), [0; FILE_READ_BYTES]) {
            Ok(cleared) => *buffer = Some(cleared),
            Err(failed) => return Err(HostFault::Memory(AllocError::from(failed))),
        }
    }
    match buffer {
        Some(buffer) => read_to_end(&mut file, &mut **buffer, limit, bytes),
        None => unreachable!(),
    }
}

/// Opens the file at this path for reading.
fn open_file<R: Files>(rt: &R, path: &str) -> Result<Retrying<R::File>, HostFault>
    ensures { result ≢ Err HostFault.TooLong }
{
    opened(File::open(rt, path))
}

/// The outcome of an opening, by what the system says: a file whose reads are repeated after an
/// interruption, or the fault.
fn opened<F: Drop>(outcome: io::Result<F>) -> Result<Retrying<F>, HostFault>
    ensures { MatchResult outcome (λ file. MatchResult result (λ opened. opened.0 ≡ file) (λ _. ⊥)) (λ error. (error_kind error ≡ ErrorKind.NotFound → result ≡ Err HostFault.Missing) × (error_kind error ≢ ErrorKind.NotFound → result ≡ Err HostFault.Device)) }
{
    match outcome {
        Ok(file) => Ok(Retrying(file)),
        Err(error) => Err(open_fault(error.kind())),
    }
}

/// The fault of a file that could not be opened: the path leads to no file, or anything else that
/// the system reports.
fn open_fault(kind: ErrorKind) -> HostFault
    ensures missing { (result ≡ HostFault.Missing) ↔ (kind ≡ ErrorKind.NotFound) }
    ensures device { kind ≢ ErrorKind.NotFound → result ≡ HostFault.Device }
{
    match kind {
        ErrorKind::NotFound => HostFault::Missing,
        _ => HostFault::Device,
    }
}

/// Replaces `bytes` by all that a file has left. The read that passes the limit is the last one.
fn read_to_end<F: Read>(
    file: &mut F,
    buffer: &mut [u8],
    limit: usize,
    bytes: &mut Vec<u8>,
) -> Result<(), HostFault>
    requires { 0 < length buffer.old }
    ensures within { OnOk result (length bytes.new.items ≤ limit) }
    ensures whole { OnOk result (IfSome (F.remaining file.old) (λ rest. bytes.new.items ≡ rest)) }
    ensures too_long { result ≡ Err HostFault.TooLong → IfSome (F.remaining file.old) (λ rest. limit < length rest) }
    ensures never_missing { result ≢ Err HostFault.Missing }
{
    bytes.clear();
    for _ in 0..u64::MAX {
        if read_piece(file, buffer, limit, bytes)? == 0 {
            return Ok(());
        }
    }
    unreachable!()
}

/// Appends what one read of a file gives, if there are at most `limit` bytes with it, and returns
/// how many bytes that is: 0 at the end.
fn read_piece<F: Read>(
    file: &mut F,
    buffer: &mut [u8],
    limit: usize,
    bytes: &mut Vec<u8>,
) -> Result<usize, HostFault>
    requires { vec_len bytes.old ≤ limit }
    ensures buffer { length buffer.new ≡ length buffer.old }
    ensures within { OnOk result (vec_len bytes.new ≤ limit) }
    ensures more { IfOk result (λ count. vec_len bytes.new ≡ vec_len bytes.old + count) }
    ensures read { IfOk result (λ count. bytes.new.items ≡ bytes.old.items ++ take count buffer.new × Consumes (F.remaining file.old) (F.remaining file.new) (take count buffer.new) × (count ≡ 0 → 0 < length buffer.new → IsAtEnd (F.remaining file.new))) }
    ensures too_long { result ≡ Err HostFault.TooLong → IfSome (F.remaining file.old) (λ rest. limit < length bytes.old.items + length rest) }
    ensures device { result ≡ Err HostFault.Device → Keeps (F.remaining file.old) (F.remaining file.new) }
    ensures never_missing { result ≢ Err HostFault.Missing }
{
    let Ok(count) = file.read(buffer) else {
        return Err(HostFault::Device);
    };
    match add_piece(bytes, &buffer[..count], limit) {
        Ok(()) => Ok(count),
        Err(fault) => Err(fault),
    }
}

/// Appends a piece that was read, if there are at most `limit` bytes with it.
fn add_piece(bytes: &mut Vec<u8>, piece: &[u8], limit: usize) -> Result<(), HostFault>
    requires { vec_len bytes.old ≤ limit }
    ensures added { OnOk result (bytes.new.items ≡ bytes.old.items ++ piece.now) }
    ensures within { OnOk result (vec_len bytes.new ≤ limit) }
    ensures refused { OnErr result (bytes.new.items ≡ bytes.old.items) }
    ensures too_long { (result ≡ Err HostFault.TooLong) ↔ (limit < vec_len bytes.old + length piece.now) }
    ensures never_missing { IfErr result (λ fault. fault ≢ HostFault.Missing) }
    ensures never_device { IfErr result (λ fault. fault ≢ HostFault.Device) }
{
    if piece.len() > limit - bytes.len() {
        return Err(HostFault::TooLong);
    }
    bytes.extend_from_slice(piece).map_err(HostFault::Memory)
}
