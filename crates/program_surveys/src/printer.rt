//! `Printer`: what a subcommand prints of the files of a survey, and which dumps are amiss.
ghost use Rattle.std.specs.Prelude.{◌≡◌, ◌++◌, IfOk};
ghost use Rattle.program_surveys.specs.Printings.{Printing};

use d64_survey::Inspection;
use std::alloc::AllocError;

/// What a subcommand prints of each file of a survey, appended to a text. It is the same whatever
/// was printed before.
pub trait Printer {
    // What it prints, and which dumps are amiss.
    ghost printing: { Self → Printing };

    /// Prints what comes before the first result.
    fn print_heading(&mut self, out: Vec<u8>) -> Result<Vec<u8>, AllocError>
        ensures same { printing self.new ≡ printing self.old }
        ensures printed { IfOk result (λ text. text.items ≡ out.items ++ (printing self.old).heading) };

    /// Prints a dump, which is that of the file with this name and these bytes.
    fn print_dump(
        &mut self,
        name: &[u8],
        bytes: &[u8],
        all: &Inspection,
        out: Vec<u8>,
    ) -> Result<Vec<u8>, AllocError>
        ensures same { printing self.new ≡ printing self.old }
        ensures printed { IfOk result (λ text. text.items ≡ out.items ++ (printing self.old).of_dump name.now bytes.now all.now) };

    /// Prints that a file cannot be read.
    fn print_unread(&mut self, name: &[u8], out: Vec<u8>) -> Result<Vec<u8>, AllocError>
        ensures same { printing self.new ≡ printing self.old }
        ensures printed { IfOk result (λ text. text.items ≡ out.items ++ (printing self.old).of_unread name.now) };

    /// Prints that the bytes of a file are no dump.
    fn print_no_dump(
        &mut self,
        name: &[u8],
        bytes: &[u8],
        out: Vec<u8>,
    ) -> Result<Vec<u8>, AllocError>
        ensures same { printing self.new ≡ printing self.old }
        ensures printed { IfOk result (λ text. text.items ≡ out.items ++ (printing self.old).of_no_dump name.now bytes.now) };

    /// Whether something is wrong with a dump, by the subcommand's own rule.
    fn is_amiss(&self, all: &Inspection) -> bool
        ensures { result ≡ (printing self.now).is_amiss all.now };
}
