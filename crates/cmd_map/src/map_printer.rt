//! `MapPrinter`: the text or the picture that `map` prints of a dump.
ghost use Rattle.std.specs.Prelude.{◌≡◌};
ghost use Rattle.cmd_map.specs.Pictures.{map_printing};

use crate::text::map_text;
use d64_survey::Inspection;
use out_picture::map_svg;
use program_arguments::PictureForm;
use program_surveys::Printer;
use std::alloc::AllocError;

/// The printer of `map`.
#[derive(Drop)]
pub struct MapPrinter {
    form: PictureForm,
}

impl MapPrinter {
    /// Returns a printer in a form.
    pub fn new(form: PictureForm) -> MapPrinter
        ensures { result.form ≡ form }
    {
        MapPrinter { form }
    }
}

impl Printer for MapPrinter {
    ghost printing = { λ printer. map_printing printer.form };

    fn print_heading(&mut self, out: Vec<u8>) -> Result<Vec<u8>, AllocError> {
        Ok(out)
    }

    fn print_dump(
        &mut self,
        name: &[u8],
        _bytes: &[u8],
        all: &Inspection,
        out: Vec<u8>,
    ) -> Result<Vec<u8>, AllocError> {
        let mut text = out;
        match self.form {
            PictureForm::Text => map_text(name, all, &mut text)?,
            PictureForm::Svg => map_svg(name, all, &mut text)?,
        }
        Ok(text)
    }

    fn print_unread(&mut self, _name: &[u8], out: Vec<u8>) -> Result<Vec<u8>, AllocError> {
        Ok(out)
    }

    fn print_no_dump(
        &mut self,
        _name: &[u8],
        _bytes: &[u8],
        out: Vec<u8>,
    ) -> Result<Vec<u8>, AllocError> {
        Ok(out)
    }

    fn is_amiss(&self, all: &Inspection) -> bool {
        all.is_amiss()
    }
}
