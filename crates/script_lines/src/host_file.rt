//! Files of the host, as they are fetched.
ghost use Rattle.host_storage.specs.Host.{fetched_bytes};
ghost use Rattle.script_lines.specs.Act.{FetchesFile};

use d64_image::known_bytes;
use host_storage::{Host, HostFault};
use std::alloc::Global;

/// The most bytes that a command accepts of a host file.
pub const HOST_FILE_BYTES: usize = 1_048_576;

/// The bytes of a host file, at most `limit` of them.
pub fn fetch<H: Host>(
    alloc: Global,
    host: &mut H,
    name: &str,
    limit: usize,
) -> Result<Vec<u8>, HostFault>
    ensures { FetchesFile
        (H.state host.old)
        name.now limit (fetched_bytes result)
        (H.state host.new) }
{
    let bytes = host.fetch(alloc, name, limit)?;
    known_bytes(&bytes);
    Ok(bytes)
}
