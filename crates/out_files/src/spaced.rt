//! Words with spaces between them.
ghost use Rattle.std.specs.Prelude.{◌≡◌, ◌++◌, decimal, OnOk};
ghost use Rattle.std.specs.List.{flat_map};
ghost use Rattle.out_files.specs.FlawWords.{flaw_word as flaw_word_of};
ghost use Rattle.out_files.specs.LossWords.{loss_word as loss_word_of};
ghost use Rattle.out_files.specs.FileRow.{after_space, spaced_texts};

use crate::flaw_word::flaw_word;
use crate::loss_word::loss_word;
use d64_scratched::Loss;
use d64_survey::Flaw;
use itoa::Buffer;
use std::alloc::AllocError;

/// Appends a word after a space.
fn push_after_space(text: &mut Vec<u8>, word: &[u8]) -> Result<(), AllocError>
    ensures { OnOk result (text.new.items ≡ text.old.items ++ after_space word.now) }
{
    text.extend_from_slice(b" ")?;
    text.extend_from_slice(word)
}

/// Appends the names of reasons, each after a space.
fn push_flaws(text: &mut Vec<u8>, flaws: &[Flaw]) -> Result<(), AllocError>
    ensures { OnOk result (text.new.items ≡ text.old.items ++ flat_map (λ flaw. after_space (flaw_word_of flaw)) flaws.now) }
{
    for flaw in flaws {
        push_after_space(text, flaw_word(*flaw).as_bytes())?;
    }
    Ok(())
}

/// Replaces the text by the names of reasons, with a space between them.
#[tactic(auto, unfolding(crate::specs::FileRow::spaced_texts))]
pub(crate) fn spell_flaws(text: &mut Vec<u8>, flaws: &[Flaw]) -> Result<(), AllocError>
    ensures { OnOk result (text.new.items ≡ spaced_texts flaw_word_of flaws.now) }
{
    text.clear();
    match flaws {
        [] => Ok(()),
        [first, rest @ ..] => {
            text.extend_from_slice(flaw_word(*first).as_bytes())?;
            push_flaws(text, rest)
        }
    }
}

/// Appends the names of reasons why a deleted file isn't whole, each after a space.
fn push_losses(text: &mut Vec<u8>, losses: &[Loss]) -> Result<(), AllocError>
    ensures { OnOk result (text.new.items ≡ text.old.items ++ flat_map (λ loss. after_space (loss_word_of loss)) losses.now) }
{
    for loss in losses {
        push_after_space(text, loss_word(*loss).as_bytes())?;
    }
    Ok(())
}

/// Replaces the text by these names, with a space between them.
#[tactic(auto, unfolding(crate::specs::FileRow::spaced_texts))]
pub(crate) fn spell_losses(text: &mut Vec<u8>, losses: &[Loss]) -> Result<(), AllocError>
    ensures { OnOk result (text.new.items ≡ spaced_texts loss_word_of losses.now) }
{
    text.clear();
    match losses {
        [] => Ok(()),
        [first, rest @ ..] => {
            text.extend_from_slice(loss_word(*first).as_bytes())?;
            push_losses(text, rest)
        }
    }
}

/// Appends numbers in decimal, each after a space.
fn push_numbers(text: &mut Vec<u8>, numbers: &[u8]) -> Result<(), AllocError>
    ensures { OnOk result (text.new.items ≡ text.old.items ++ flat_map (λ number. after_space (decimal number)) numbers.now) }
{
    for number in numbers {
        let mut digits = Buffer::new();
        push_after_space(text, digits.format(*number).as_bytes())?;
    }
    Ok(())
}

/// Replaces the text by numbers in decimal, with a space between them.
#[tactic(auto, unfolding(crate::specs::FileRow::spaced_texts))]
pub(crate) fn spell_numbers(text: &mut Vec<u8>, numbers: &[u8]) -> Result<(), AllocError>
    ensures { OnOk result (text.new.items ≡ spaced_texts decimal numbers.now) }
{
    text.clear();
    match numbers {
        [] => Ok(()),
        [first, rest @ ..] => {
            let mut digits = Buffer::new();
            text.extend_from_slice(digits.format(*first).as_bytes())?;
            push_numbers(text, rest)
        }
    }
}
