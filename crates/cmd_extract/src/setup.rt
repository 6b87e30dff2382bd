//! `ExtractSetup`: the options of `extract`; and `Task`: an image whose folder is to be made.

use d64_survey::Inspection;
use out_files::Form;
use std::alloc::Global;
use std::marker::Model;

/// The options of an extraction.
#[derive(Drop)]
pub struct ExtractSetup {
    /// The folder below which all is written. It must exist.
    pub into: String,
    /// Whether parts of files without content are written too.
    pub with_parts: bool,
    /// Whether an image whose folder is complete is skipped.
    pub skips: bool,
    /// The form of what is printed, which also says which leftovers are wanted beside files.
    pub form: Form,
}

impl Model for ExtractSetup {
    ghost use Rattle.std.specs.Prelude.{string_bytes};
    ghost use Rattle.cmd_extract.specs.Setup.{ExtractSetupView};

    ghost Value = { ExtractSetupView };

    ghost view = { λ setup. record { into = string_bytes setup.into; with_parts = setup.with_parts; skips = setup.skips; form = setup.form } };
}

/// An image that is unpacked.
#[derive(Drop)]
pub(crate) struct Task<'a, 'd> {
    pub(crate) alloc: Global,
    pub(crate) setup: &'a ExtractSetup,
    /// The name of its file on the host.
    pub(crate) name: &'a str,
    pub(crate) all: &'a Inspection<'d>,
    /// The path of its folder once it is complete.
    pub(crate) done: String,
    /// The path of its folder before that.
    pub(crate) partial: String,
}

impl<'a, 'd> Model for Task<'a, 'd> {
    ghost use Rattle.std.specs.Prelude.{string_bytes};
    ghost use Rattle.cmd_extract.specs.Setup.{TaskView};

    ghost Value = { TaskView };

    ghost view = { λ task. record {
      setup = task.setup.now;
      name = task.name.now;
      dump = task.all.now;
      done = string_bytes task.done;
      partial = string_bytes task.partial;
    } };
}
