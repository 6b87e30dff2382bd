//! What is printed before and after the files of an image.
ghost use Rattle.std.specs.Prelude.{◌≡◌, ◌++◌, OnOk};
ghost use Rattle.out_files.specs.Forms.{before_rows, after_rows};

use crate::missing::push_missing_lines;
use crate::table::push_head_line;
use d64_image::Image;
use d64_survey::Inspection;
use program_arguments::Format;
use std::alloc::AllocError;

/// Appends what is printed of an image before its files.
pub fn print_before(
    form: Format,
    name: &[u8],
    image: &Image,
    out: &mut Vec<u8>,
) -> Result<(), AllocError>
    ensures { OnOk result (out.new.items ≡ out.old.items ++ before_rows form name.now image.now) }
{
    match form {
        Format::Text => push_head_line(out, name, image),
        Format::Json | Format::Csv => Ok(()),
    }
}

/// Appends what is printed of an image after its files.
pub fn print_after(form: Format, all: &Inspection, out: &mut Vec<u8>) -> Result<(), AllocError>
    ensures { OnOk result (out.new.items ≡ out.old.items ++ after_rows form all.now) }
{
    match form {
        Format::Text => push_missing_lines(out, all),
        Format::Json | Format::Csv => Ok(()),
    }
}
