//! Calls of hosts.

use crate::end::{Bench, End};
use crate::texts::TEXT;
use host_memory::MemoryHost;
use host_storage::{Host, HostFault};
use std::alloc::{AllocError, Global};
use std::test::Fail;

/// The bytes of the host file `block`.
const BLOCK: &[u8; 256] = &[1; 256];

/// A call of a host in memory that has files.
#[derive(Clone, Copy)]
pub enum HostCall {
    Fetch,
    Open,
    Store,
    /// Those that take no memory.
    Others,
}

impl HostCall {
    pub fn of(call: &str) -> Option<HostCall> {
        match call {
            "MemoryHost::fetch" => Some(HostCall::Fetch),
            "MemoryHost::open" => Some(HostCall::Open),
            "MemoryHost::store" => Some(HostCall::Store),
            "MemoryHost" => Some(HostCall::Others),
            _ => None,
        }
    }
}

/// Puts the files `one`, `block` and `text` on a host.
fn fill(host: &mut MemoryHost) -> Result<(), AllocError> {
    host.put("one", &[51])?;
    host.put("block", BLOCK)?;
    host.put("text", TEXT)
}

/// Returns a host with the files `one`, `block` and `text`.
pub fn host(alloc: Global) -> Result<MemoryHost, AllocError> {
    let mut host = MemoryHost::new(alloc);
    fill(&mut host)?;
    Ok(host)
}

/// Whether the host has the files that it was made with, and none named `new`.
pub fn is_as_it_was(host: &MemoryHost) -> bool {
    host.file("one") == Some([51].as_slice())
        && host.file("block") == Some(BLOCK.as_slice())
        && host.file("text") == Some(TEXT.as_slice())
        && host.file("new").is_none()
}

/// Puts the first file on a host.
pub fn put(bench: &Bench) -> End {
    let mut host = MemoryHost::new(bench.alloc());
    bench.begin();
    match host.put("new", BLOCK) {
        Ok(()) => End::Accepted,
        Err(_) => End::out_of_memory(host.file("new").is_none(), "there is a file"),
    }
}

pub fn called(bench: &Bench, call: HostCall) -> Result<End, Fail> {
    let mut host = host(bench.alloc())?;
    bench.begin();
    let end = match call {
        HostCall::Fetch => fetch(bench.alloc(), &mut host),
        HostCall::Open => open(&mut host),
        HostCall::Store => store(bench.alloc(), &mut host),
        HostCall::Others => others(bench.alloc(), &mut host),
    };
    Ok(match end {
        Ok(end) => end,
        Err(HostFault::Memory(_)) => {
            End::out_of_memory(is_as_it_was(&host), "the files are not as they were")
        }
        Err(_) => End::Refused,
    })
}

fn fetch(alloc: Global, host: &mut MemoryHost) -> Result<End, HostFault> {
    Ok(End::Made(host.fetch(alloc, "block", 256)?.len()))
}

/// Opens a file, whose reader has a copy of its bytes.
fn open(host: &mut MemoryHost) -> Result<End, HostFault> {
    Ok(End::Made(host.open("block")?.len()))
}

/// Stores a file in place of another.
fn store(alloc: Global, host: &mut MemoryHost) -> Result<End, HostFault> {
    host.store(alloc, "one", BLOCK)?;
    Ok(End::Accepted)
}

/// Calls `new`, `file`, `fail_at` and `failures`.
fn others(alloc: Global, host: &mut MemoryHost) -> Result<End, HostFault> {
    host.fail_at(1);
    let is_refused = host.fetch(alloc, "one", 1).is_err();
    Ok(End::returned(
        is_refused
            && host.failures() == 1
            && host.file("one") == Some([51].as_slice())
            && MemoryHost::new(alloc).file("one").is_none(),
    ))
}
