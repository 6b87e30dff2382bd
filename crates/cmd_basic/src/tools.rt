//! The tools: the listing of a BASIC program, and the program of a BASIC text, from all of an input
//! to all of an output.

ghost use Rattle.std.specs.Prelude.{◌≡◌, ◌≤◌, false, length, IfOk, IfErr, OnOk};
ghost use Rattle.host_storage.specs.Input.{IsUnread, IsUnreadable, reading_of, input_limit};
ghost use Rattle.cmd_basic.specs.declared.tools.ToolFault.TheVariants.{Read};
ghost use Rattle.cmd_basic.specs.Tools.{ToolMakes, Refuses, HasRead, ReadsNot, HasWritten, ReadsWith, RanTool, WritesWith, start_of};

use cbm_text::{BasicFault, ListFault, crunch, list};
use host_storage::{InputStream, OutputStream};
use script_text::script::read_input;
use std::alloc::{AllocError, Global};
use std::io::{Read, Write};
use thiserror::Error;

/// A tool.
#[derive(Clone, Copy, PartialEq, Eq)]
pub enum Tool {
    /// Lists a BASIC program file as text.
    Petcat,
    /// Makes the program file of a BASIC text, loaded at `start`.
    Crunch { start: u16 },
}

/// Why a tool has not written all that it makes of its input.
#[derive(Clone, Copy, Debug, PartialEq, Eq, Error)]
pub enum ToolFault {
    /// A read failed, or the input has more than 16,777,216 bytes or takes more than 1,000,000
    /// reads. Nothing is written.
    #[error("the input cannot be read to its end")]
    Read,
    /// A write failed, or took nothing. A first part of the result is written.
    #[error("the output could not be written")]
    Write,
    /// Memory ran out. Nothing is written.
    #[error("out of memory")]
    Memory(AllocError),
    /// The input is no BASIC text. Nothing is written.
    #[error("{0}")]
    Text(BasicFault),
    /// The input is no BASIC program. Nothing is written.
    #[error("{0}")]
    NotBasic(ListFault),
}

/// Reads a program file to its end and writes it as text.
pub fn petcat_run<R: Read, W: Write>(
    alloc: Global,
    reader: &mut R,
    writer: &mut W,
) -> Result<(), ToolFault>
    ensures { RanTool Tool.Petcat (R.remaining reader.old) (R.remaining reader.new) (W.contents writer.old) (W.contents writer.new) result }
{
    let mut input = InputStream::new(reader);
    let mut output = OutputStream::new(writer);
    Tool::Petcat.run(alloc, &mut input, &mut output)
}

/// Reads a BASIC text to its end and writes its program file, loaded at `start`.
pub fn crunch_run<R: Read, W: Write>(
    alloc: Global,
    start: u16,
    reader: &mut R,
    writer: &mut W,
) -> Result<(), ToolFault>
    ensures { RanTool (Tool.Crunch start) (R.remaining reader.old) (R.remaining reader.new) (W.contents writer.old) (W.contents writer.new) result }
{
    let mut input = InputStream::new(reader);
    let mut output = OutputStream::new(writer);
    Tool::Crunch { start }.run(alloc, &mut input, &mut output)
}

impl Tool {
    /// Reads an input to its end and writes what the tool makes of it.
    pub(crate) fn run<R: Read, W: Write>(
        self,
        alloc: Global,
        input: &mut InputStream<'_, R>,
        output: &mut OutputStream<'_, W>,
    ) -> Result<(), ToolFault>
        requires unread { IsUnread (reading_of input.old.reads input.old.came input.old.has_failed) }
        ensures input { input.new.reader.ghost_name ≡ input.old.reader.ghost_name }
        ensures output { output.new.writer.ghost_name ≡ output.old.writer.ghost_name }
        ensures ran { RanTool self (R.remaining input.old.reader.now) (R.remaining input.new.reader.now) (W.contents output.old.writer.now) (W.contents output.new.writer.now) result }
        ensures reads { ReadsWith result (reading_of input.new.reads input.new.came input.new.has_failed) }
        ensures writes { WritesWith result output.old.has_failed output.new.has_failed }
    {
        let bytes = whole_input(alloc, input)?;
        self.write(alloc, &bytes, output)
    }

    /// Writes what the tool makes of an input. `Read` is never returned.
    pub(crate) fn write<W: Write>(
        self,
        alloc: Global,
        input: &[u8],
        output: &mut OutputStream<'_, W>,
    ) -> Result<(), ToolFault>
        ensures output { output.new.writer.ghost_name ≡ output.old.writer.ghost_name }
        ensures written { HasWritten self input.now (W.contents output.old.writer.now) (W.contents output.new.writer.now) result }
        ensures writes { WritesWith result output.old.has_failed output.new.has_failed }
    {
        let made = self.output(alloc, input)?;
        match output.write(&made) {
            Ok(()) => Ok(()),
            Err(_) => Err(ToolFault::Write),
        }
    }

    /// Returns the address at which the tool's program is loaded; `petcat` makes none.
    pub(crate) fn start(self) -> u16
        ensures { result ≡ start_of self }
    {
        match self {
            Tool::Petcat => 0,
            Tool::Crunch { start } => start,
        }
    }

    /// Returns what the tool makes of an input; never `Read` or `Write`.
    pub(crate) fn output(self, alloc: Global, input: &[u8]) -> Result<Vec<u8>, ToolFault>
        ensures made { IfOk result (λ output. ToolMakes self input.now output.items) }
        ensures refused { IfErr result (Refuses self input.now) }
    {
        match self {
            Tool::Petcat => match list(alloc, input) {
                Ok(text) => Ok(text),
                Err(ListFault::Memory(error)) => Err(ToolFault::Memory(error)),
                Err(fault) => Err(ToolFault::NotBasic(fault)),
            },
            Tool::Crunch { start } => match crunch(alloc, start, input) {
                Ok(file) => Ok(file),
                Err(BasicFault::Memory(error)) => Err(ToolFault::Memory(error)),
                Err(fault) => Err(ToolFault::Text(fault)),
            },
        }
    }
}

/// Returns all that the reader has, under the limits of a script, or `Read` or `Memory`.
pub(crate) fn whole_input<R: Read>(
    alloc: Global,
    input: &mut InputStream<'_, R>,
) -> Result<Vec<u8>, ToolFault>
    requires unread { IsUnread (reading_of input.old.reads input.old.came input.old.has_failed) }
    ensures input { input.new.reader.ghost_name ≡ input.old.reader.ghost_name }
    ensures read { IfOk result (λ bytes. HasRead (R.remaining input.old.reader.now) (R.remaining input.new.reader.now) bytes.items) }
    ensures fault { IfErr result (ReadsNot (R.remaining input.old.reader.now) (R.remaining input.new.reader.now)) }
    ensures unfailed { OnOk result (input.new.has_failed ≡ false) }
    ensures unreadable { IfErr result (λ fault. fault ≡ Read → IsUnreadable (reading_of input.new.reads input.new.came input.new.has_failed)) }
{
    let script = match read_input(alloc, input) {
        Ok(script) => script,
        Err(error) => return Err(ToolFault::Memory(error)),
    };
    if script.whole {
        return Ok(script.bytes);
    }
    Err(ToolFault::Read)
}
