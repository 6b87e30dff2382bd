//! The names of the reasons why a deleted file isn't whole, as JSON and CSV have them.
ghost use Rattle.std.specs.Prelude.{◌≡◌};
ghost use Rattle.out_files.specs.LossWords.{loss_word as loss_word_of};

use d64_scratched::Loss;

/// Returns the name of a reason.
pub(crate) fn loss_word(loss: Loss) -> &'static str
    ensures { result.now ≡ loss_word_of loss }
{
    match loss {
        Loss::Chain => "chain",
        Loss::Reused => "reused",
        Loss::Marked => "marked",
        Loss::Size => "size",
        Loss::Claimed => "claimed",
        Loss::Unreadable => "error",
    }
}
