//! Reading an input and cutting it into parts.
ghost use Rattle.std.specs.Prelude.{◌≡◌, ◌≤◌, ◌<◌, ◌+◌, ◌^◌, ℕ, List, [], ◌∷◌, ◌++◌, length, take, true, false, Some, MatchOption, MatchResult, OnErr};
ghost use Rattle.std.specs.ControlFlow.{MatchControlFlow};
ghost use Rattle.host_storage.specs.Input.{IsUnread, IsUnreadable, reading_of, input_limit};
ghost use Rattle.script_text.specs.Parts.{CutsShort, Ends, HasCome, Lacks, parts_of};

use crate::part_handler::PartHandler;
use host_storage::{INPUT_BYTES, INPUT_READS, InputStream, READ_BYTES};
use std::io::Read;
use std::ops::ControlFlow;
use thiserror::Error;

/// An input could not be read to its end: a read failed, or it has more than 16,777,216 bytes or
/// takes more than 1,000,000 reads. All parts that ended within the limits were handled.
#[derive(Clone, Copy, Debug, PartialEq, Eq, Error)]
#[error("the input cannot be read to its end")]
pub struct CutShort;

/// Handles the parts of an input of which nothing was read, each once its separator has come, and
/// returns how the run ended.
///
/// No read is made before the handler is prepared, nor after it has ended the run. Reading
/// allocates nothing.
pub fn read_parts<R: Read, P: PartHandler>(
    input: &mut InputStream<'_, R>,
    separator: u8,
    handler: &mut P,
) -> Result<P::End, CutShort>
    requires unread { IsUnread (reading_of input.old.reads input.old.came input.old.has_failed) }
    requires separator { P.separator handler.old ≡ separator }
    requires delivered { P.is_delivered handler.old }
    requires begun { P.has_come handler.old handler.old [] [] }
    requires few { P.count handler.old ≡ 0 }
    ensures input { input.new.reader.ghost_name ≡ input.old.reader.ghost_name }
    ensures read { MatchResult result (λ _. input.new.has_failed ≡ false) (λ _. IsUnreadable (reading_of input.new.reads input.new.came input.new.has_failed)) }
    ensures ended { MatchResult result
        (λ end. Ends (λ parts. P.has_ended handler.old handler.new parts end) separator (R.remaining input.old.reader.now))
        (λ _. CutsShort (P.has_come handler.old handler.new) separator (R.remaining input.old.reader.now) (R.remaining input.new.reader.now) input.new.has_failed) }
{
    let mut room = INPUT_BYTES;
    let mut buffer = [0; READ_BYTES];
    for _ in 0..INPUT_READS {
        if let ControlFlow::Break(end) = handler.prepare() {
            return Ok(end);
        }
        let count = match input.read_after(handler.output(), &mut buffer) {
            Ok(0) => return Ok(handler.end_input()),
            Ok(count) => count,
            Err(_) => return Err(CutShort),
        };
        let piece = &buffer[..count.min(room)];
        if let ControlFlow::Break(end) = take_piece(handler, separator, piece) {
            return Ok(end);
        }
        if count > room {
            return Err(CutShort);
        }
        room -= count;
    }
    Err(CutShort)
}

/// Handles the parts of a text, as those of an input that has its bytes. No read is made.
pub fn cut_text<P: PartHandler>(
    text: &[u8],
    separator: u8,
    handler: &mut P,
) -> Result<P::End, CutShort>
    requires separator { P.separator handler.old ≡ separator }
    requires begun { P.has_come handler.old handler.old [] [] }
    requires few { P.count handler.old ≡ 0 }
    ensures long { OnErr result (input_limit < length text.now) }
    ensures ended { MatchResult result
        (λ end. P.has_ended handler.old handler.new (parts_of separator text.now) end)
        (λ _. HasCome (P.has_come handler.old handler.new) separator (take input_limit text.now)) }
{
    let piece = &text[..text.len().min(INPUT_BYTES)];
    if let ControlFlow::Break(end) = take_piece(handler, separator, piece) {
        return Ok(end);
    }
    if text.len() > INPUT_BYTES {
        return Err(CutShort);
    }
    Ok(handler.end_input())
}

/// Handles the parts that end in the next piece of an input, up to the run's end, and pushes the
/// bytes that come after the last one.
fn take_piece<P: PartHandler>(handler: &mut P, separator: u8, piece: &[u8]) -> ControlFlow<P::End>
    requires few { P.count handler.old + length piece.now ≤ 2 ^ 32 }
    ensures count { P.count handler.new ≤ P.count handler.old + length piece.now }
    ensures came { (first : P) (before : List ℕ) → P.separator first ≡ separator → HasCome (P.has_come first handler.old) separator before → MatchControlFlow result
        (λ _. HasCome (P.has_come first handler.new) separator (before ++ piece.now))
        (λ end. (more : List ℕ) → P.has_ended first handler.new (parts_of separator ((before ++ piece.now) ++ more)) end) }
{
    let mut rest = piece;
    while let Some((part, others)) = split_once(rest, separator) {
        handler.push(part);
        if let ControlFlow::Break(end) = handler.end_part() {
            return ControlFlow::Break(end);
        }
        rest = others;
    }
    if rest.is_empty() {
        return ControlFlow::Continue(());
    }
    handler.push(rest);
    ControlFlow::Continue(())
}

/// Returns the bytes before the first separator and those after it, if there is one.
fn split_once(bytes: &[u8], separator: u8) -> Option<(&[u8], &[u8])>
    ensures { MatchOption result (Lacks separator bytes.now) (λ cut. Lacks separator cut.0.now × (cut.0.now ++ separator ∷ cut.1.now ≡ bytes.now)) }
{
    let place = bytes.iter().position(|byte| *byte == separator)?;
    Some((&bytes[..place], &bytes[place + 1..]))
}
