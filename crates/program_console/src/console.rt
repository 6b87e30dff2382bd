//! `Console`: the input and the two outputs of the program.
ghost use Rattle.std.specs.Prelude.{◌≡◌, false, true, OnOk, OnErr};
ghost use Rattle.std.specs.Io.KnownBytes.{Appends};
ghost use Rattle.host_storage.specs.Output.{AppendsPart, FailsWith};

use host_storage::{InputStream, OutputStream, WriteFault};
use std::io::{Read, Write};

/// The two outputs of the program.
#[derive(Drop)]
pub struct Outputs<'s, W: Write, F: Write> {
    /// The standard output, to which results are printed.
    pub output: OutputStream<'s, W>,
    /// The standard error, on which faults are reported.
    pub faults: OutputStream<'s, F>,
}

impl<'s, W: Write, F: Write> Outputs<'s, W, F> {
    ghost use Rattle.program_console.specs.Console.{SameWriters};

    /// Prints all of the bytes, and flushes the standard output. If that fails, a first part of
    /// them was printed.
    pub fn print(&mut self, bytes: &[u8]) -> Result<(), WriteFault>
        ensures same { SameWriters self.old self.new }
        ensures silent { self.new.faults ≡ self.old.faults }
        ensures ok { OnOk result (Appends (W.contents self.old.output.writer.now) (W.contents self.new.output.writer.now) bytes.now) }
        ensures err { OnErr result (AppendsPart (W.contents self.old.output.writer.now) (W.contents self.new.output.writer.now) bytes.now) }
        ensures delivered { OnOk result (self.new.output.is_delivered ≡ true) }
        ensures failed { FailsWith result self.old.output.has_failed self.new.output.has_failed }
    {
        self.output.write(bytes)?;
        self.output.flush()
    }
}

/// The input and the outputs of the program, on a reader and two writers that it borrows.
#[derive(Drop)]
pub struct Console<'s, R: Read, W: Write, F: Write> {
    /// The standard input.
    pub input: InputStream<'s, R>,
    /// The standard output and the standard error.
    pub outputs: Outputs<'s, W, F>,
}

impl<'s, R: Read, W: Write, F: Write> Console<'s, R, W, F> {
    /// Returns the console of these streams.
    pub fn new(
        input: InputStream<'s, R>,
        output: OutputStream<'s, W>,
        faults: OutputStream<'s, F>,
    ) -> Self
        ensures input { result.input ≡ input.entry }
        ensures output { result.outputs.output ≡ output.entry }
        ensures faults { result.outputs.faults ≡ faults.entry }
    {
        Console {
            input,
            outputs: Outputs { output, faults },
        }
    }
}
