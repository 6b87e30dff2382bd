//! `MergeSetup`: what the arguments of `merge` ask for.

use d64_merge::Preference;
use program_arguments::DiffForm;
use std::marker::Model;

/// What a merge is asked for.
#[derive(Drop)]
pub struct MergeSetup {
    /// The file that is made, which must not be there.
    pub out: String,
    /// What is to be done if good copies differ.
    pub preference: Preference,
    /// Whether read codes are left out.
    pub plain: bool,
    /// The form of what is printed.
    pub form: DiffForm,
    /// The files whose dumps are merged, one or more.
    pub names: Vec<String>,
}

impl Model for MergeSetup {
    ghost use Rattle.std.specs.Prelude.{map, string_bytes};
    ghost use Rattle.cmd_merge.specs.Setup.{MergeSetupView};

    ghost Value = { MergeSetupView };

    ghost view = { λ setup. record {
      out = string_bytes setup.out;
      preference = setup.preference;
      plain = setup.plain;
      form = setup.form;
      names = map string_bytes setup.names.items;
    } };
}
