//! Writing what is printed, and whether it was delivered.

ghost use Rattle.std.specs.Prelude.{◌≡◌, true, false, OnOk, OnErr};
ghost use Rattle.std.specs.Io.KnownBytes.{Appends, Keeps};
ghost use Rattle.host_storage.specs.Output.{AppendsPart, FailsWith, Writes, account_of};

use std::io::Write;
use thiserror::Error;

/// A write failed, or wrote nothing.
#[derive(Debug, Drop, Error)]
#[error("the output took no more bytes")]
pub struct WriteFault;

/// A writer that knows whether all that was written was delivered, and whether a call failed.
#[derive(Drop)]
pub struct OutputStream<'w, W: Write> {
    writer: &'w mut W,
    is_delivered: bool,
    has_failed: bool,
}

impl<'w, W: Write> OutputStream<'w, W> {
    /// An output to which nothing was written.
    pub fn new(writer: &'w mut W) -> Self
        ensures same { result.writer.ghost_name ≡ writer.entry.ghost_name }
        ensures kept { result.writer.now ≡ writer.old }
        ensures delivered { result.is_delivered ≡ true }
        ensures unfailed { result.has_failed ≡ false }
    {
        OutputStream {
            writer,
            is_delivered: true,
            has_failed: false,
        }
    }

    /// Whether all that was written has been delivered.
    pub fn is_delivered(&self) -> bool
        ensures { result ≡ self.now.is_delivered }
    {
        self.is_delivered
    }

    /// Writes all of the bytes. If a write fails or writes nothing, a first part of them was
    /// written.
    pub fn write(&mut self, bytes: &[u8]) -> Result<(), WriteFault>
        ensures same { self.new.writer.ghost_name ≡ self.old.writer.ghost_name }
        ensures ok { OnOk result (Appends (W.contents self.old.writer.now) (W.contents self.new.writer.now) bytes.now) }
        ensures err { OnErr result (AppendsPart (W.contents self.old.writer.now) (W.contents self.new.writer.now) bytes.now) }
        ensures failed { FailsWith result self.old.has_failed self.new.has_failed }
        ensures undelivered { self.new.is_delivered ≡ false }
        ensures either { Writes (account_of (W.contents self.old.writer.now) self.old.has_failed) (account_of (W.contents self.new.writer.now) self.new.has_failed) bytes.now }
    {
        self.is_delivered = false;
        match write_bytes(self.writer, bytes) {
            Ok(()) => Ok(()),
            Err(fault) => {
                self.has_failed = true;
                Err(fault)
            }
        }
    }

    /// Delivers all that was written.
    pub fn flush(&mut self) -> Result<(), WriteFault>
        ensures same { self.new.writer.ghost_name ≡ self.old.writer.ghost_name }
        ensures kept { Keeps (W.contents self.old.writer.now) (W.contents self.new.writer.now) }
        ensures delivered { OnOk result (self.new.is_delivered ≡ true) }
        ensures undelivered { OnErr result (self.new.is_delivered ≡ self.old.is_delivered) }
        ensures failed { FailsWith result self.old.has_failed self.new.has_failed }
    {
        match self.writer.flush() {
            Ok(()) => {
                self.is_delivered = true;
                Ok(())
            }
            Err(_) => {
                self.has_failed = true;
                Err(WriteFault)
            }
        }
    }
}

/// Writes all of the bytes. If a write fails or writes nothing, a first part of them was written.
pub fn write_bytes<W: Write>(writer: &mut W, bytes: &[u8]) -> Result<(), WriteFault>
    ensures ok { OnOk result (Appends (W.contents writer.old) (W.contents writer.new) bytes.now) }
    ensures err { OnErr result (AppendsPart (W.contents writer.old) (W.contents writer.new) bytes.now) }
{
    let mut rest = bytes;
    while !rest.is_empty() {
        match writer.write(rest) {
            Ok(0) | Err(_) => return Err(WriteFault),
            Ok(count) => rest = &rest[count..],
        }
    }
    Ok(())
}
