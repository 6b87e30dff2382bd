//! What a handler returns: the status of a line, and what it prints.
ghost use Rattle.std.specs.Prelude.{◌≡◌, OnOk, OnErr};
ghost use Rattle.std.specs.Io.KnownBytes.{Appends};
ghost use Rattle.host_storage.specs.Output.{AppendsPart, FailsWith};

use crate::status::Status;
use d64_image::{BlockNo, Image};
use host_storage::{OutputStream, WriteFault};
use script_text::dump::dump;
use std::io::Write;

/// What a line prints before its status line.
#[derive(Drop)]
pub enum Output {
    Nothing,
    /// The sixteen lines that show a block of the present image. Its number costs less to pass on
    /// than its bytes.
    Block(BlockNo),
    /// Other lines.
    Text(Vec<u8>),
}

impl Output {
    ghost use Rattle.script_lines.specs.Response.{output_bytes};

    /// Writes the output, for this as the present image.
    fn write<W: Write>(
        &self,
        output: &mut OutputStream<'_, W>,
        image: &Image,
    ) -> Result<(), WriteFault>
        ensures same { output.new.writer.ghost_name ≡ output.old.writer.ghost_name }
        ensures ok { OnOk result (Appends (W.contents output.old.writer.now) (W.contents output.new.writer.now) (output_bytes image.now self.now)) }
        ensures err { OnErr result (AppendsPart (W.contents output.old.writer.now) (W.contents output.new.writer.now) (output_bytes image.now self.now)) }
        ensures failed { FailsWith result output.old.has_failed output.new.has_failed }
    {
        match self {
            Output::Block(at) if image.holds(*at) => {
                output.write(dump(image.sector(*at)).as_slice())
            }
            Output::Nothing | Output::Block(_) => output.write(b""),
            Output::Text(text) => output.write(text.as_slice()),
        }
    }
}

/// The response to a line: an output, and then a status line.
#[derive(Drop)]
pub struct Response {
    pub output: Output,
    pub status: Status,
    /// Whether the run ends with this line.
    pub closes: bool,
}

impl Response {
    ghost use Rattle.std.specs.Prelude.{List, ℕ, false};
    ghost use Rattle.script_lines.specs.declared.status.Status.TheVariants.{Done};
    ghost use Rattle.script_lines.specs.Act.{plain_response, printed_bytes};
    ghost use Rattle.script_lines.specs.Response.{line_response, shown_response};

    /// A status with no output.
    pub fn plain(status: Status) -> Response
        ensures { (image : List (List ℕ)) → shown_response image result ≡ plain_response status }
    {
        Response {
            output: Output::Nothing,
            status,
            closes: false,
        }
    }

    /// The response to a line: that of an accepted one, or the status of a refusal with no output.
    pub fn of(response: Result<Response, Status>) -> Response
        ensures { (image : List (List ℕ)) → shown_response image result ≡ line_response image response }
    {
        match response {
            Ok(response) => response,
            Err(status) => Response::plain(status),
        }
    }

    /// Lines of text, for a line that was accepted.
    pub fn text(text: Vec<u8>) -> Response
        ensures { (image : List (List ℕ)) → shown_response image result ≡ record { output = text.items; status = Done; closes = false } }
    {
        Response {
            output: Output::Text(text),
            status: Status::Done,
            closes: false,
        }
    }

    /// Writes the output and the status line, for this as the present image. If a write fails, a
    /// part of them was written.
    pub fn write<W: Write>(
        &self,
        output: &mut OutputStream<'_, W>,
        image: &Image,
    ) -> Result<(), WriteFault>
        ensures same { output.new.writer.ghost_name ≡ output.old.writer.ghost_name }
        ensures ok { OnOk result (Appends (W.contents output.old.writer.now) (W.contents output.new.writer.now) (printed_bytes (shown_response image.now self.now))) }
        ensures err { OnErr result (AppendsPart (W.contents output.old.writer.now) (W.contents output.new.writer.now) (printed_bytes (shown_response image.now self.now))) }
        ensures failed { FailsWith result output.old.has_failed output.new.has_failed }
    {
        self.output.write(output, image)?;
        output.write(self.status.line().as_slice())
    }
}
