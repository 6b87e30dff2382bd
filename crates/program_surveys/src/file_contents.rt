//! What is read of a file by a task that reads its files whole, and what is printed and reported of a
//! file that cannot be read or is not a dump.
ghost use Rattle.std.specs.Prelude.{◌≡◌, ◌++◌, [], Ok, IfErr, IfOk, OnOk};
ghost use Rattle.program_surveys.specs.FileContents.{IsReadAs, contents_by, contents_fault_line, printed_contents_fault};

use d64_g64::is_dump;
use host_storage::{Host, HostFault, INPUT_BYTES};
use out_json_csv::{Scratch, no_dump_json, unread_json};
use out_messages::{unread_line, wrong_length_line};
use program_arguments::DiffForm;
use program_console::{Reason, StreamFault, push_known_reason, reason_of};
use std::alloc::{AllocError, Global};

/// Returns the bytes of a file of the host, or why it cannot be read, as far as the host can say. A
/// file that cannot be opened without waiting, such as a named pipe, cannot be read.
pub fn read_contents<H: Host>(
    alloc: Global,
    name: &str,
    host: &mut H,
) -> Result<Result<Vec<u8>, Option<Reason>>, StreamFault>
    ensures read { IfOk result (λ contents. IsReadAs name.now (H.state host.old)
        (contents_by (λ bytes. bytes.items) contents) (H.state host.new)) }
    ensures memory { IfErr result (λ fault. (fault ≡ StreamFault.Memory)
        × (H.state host.new ≡ H.state host.old)) }
{
    let mut bytes = Vec::new(alloc);
    match host.fill(name, INPUT_BYTES, &mut bytes) {
        Ok(()) => Ok(Ok(bytes)),
        Err(HostFault::Memory(_)) => Err(StreamFault::Memory),
        Err(fault) => Ok(Err(reason_of(host, name, fault))),
    }
}

/// Puts the line on standard error of a file that has these bytes and is not a dump, or cannot be
/// read, for a reason that may be known, into an empty buffer. Of a dump there is no line.
pub fn push_fault_line(
    out: &mut Vec<u8>,
    name: &[u8],
    contents: Result<&[u8], Option<Reason>>,
) -> Result<(), AllocError>
    ensures { out.old.items ≡ [] → OnOk result (out.new.items ≡ contents_fault_line name.now (contents_by (λ bytes. bytes.now) contents.entry)) }
{
    match contents {
        Ok(bytes) if is_dump(bytes) => Ok(()),
        Ok(bytes) => wrong_length_line(out, name, bytes),
        Err(reason) => {
            unread_line(out, name)?;
            push_known_reason(out, reason)
        }
    }
}

/// Appends the object of a file with these bytes, if they are not a dump.
fn print_wrong_length(
    scratch: &mut Scratch,
    name: &[u8],
    bytes: &[u8],
    out: Vec<u8>,
) -> Result<Vec<u8>, AllocError>
    ensures { IfOk result (λ text. text.items ≡ out.items ++ printed_contents_fault DiffForm.Json name.now (Ok bytes.now)) }
{
    if is_dump(bytes) {
        return Ok(out);
    }
    no_dump_json(scratch, name, bytes, out)
}

/// Appends what is printed of a file that cannot be read or is not a dump.
pub fn print_fault(
    form: DiffForm,
    scratch: &mut Scratch,
    name: &[u8],
    contents: Result<&[u8], Option<Reason>>,
    out: Vec<u8>,
) -> Result<Vec<u8>, AllocError>
    ensures { IfOk result (λ text. text.items ≡ out.items ++ printed_contents_fault form name.now (contents_by (λ bytes. bytes.now) contents.entry)) }
{
    match (form, contents) {
        (DiffForm::Text, _) => Ok(out),
        (DiffForm::Json, Err(_)) => unread_json(scratch, name, out),
        (DiffForm::Json, Ok(bytes)) => print_wrong_length(scratch, name, bytes, out),
    }
}
