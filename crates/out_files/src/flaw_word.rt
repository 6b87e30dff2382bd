//! The names of the reasons why a file is not whole, as JSON and CSV have them.
ghost use Rattle.std.specs.Prelude.{◌≡◌};
ghost use Rattle.out_files.specs.FlawWords.{flaw_word as flaw_word_of};

use d64_survey::Flaw;

/// Returns the name of a reason.
pub(crate) fn flaw_word(flaw: Flaw) -> &'static str
    ensures { result.now ≡ flaw_word_of flaw }
{
    match flaw {
        Flaw::Unclosed => "open",
        Flaw::Kindless => "kind",
        Flaw::Broken => "chain",
        Flaw::Shared => "shared",
        Flaw::Unreadable => "error",
        Flaw::Missized => "size",
        Flaw::Geos => "geos",
    }
}
