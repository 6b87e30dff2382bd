//! The lines of a case that do or check something.

use crate::case::Action;
use crate::fault::CaseFault;
use crate::notation::{bytes_of, number_of, offset_of};
use std::alloc::Global;
use std::rt::Files;

/// Returns what a line does, by its first word and the text after it.
pub fn action_of<R: Files + AllocGlobal>(
    rt: &R,
    word: &str,
    rest: &str,
) -> Result<Action, CaseFault> {
    match word {
        "on" => on(rt.alloc(), rest),
        "image" => image(rt, rest),
        "host" => host(rt, rest),
        "call" => fail_at(rt.alloc(), rest),
        "file" => file(rt, rest),
        "no" => no_file(rt.alloc(), rest),
        "block" => block(rt, rest),
        "records" => records(rt.alloc(), rest),
        _ => Err(CaseFault::UnknownWord(String::from_str(rt.alloc(), word)?)),
    }
}

/// Reads `the folder`.
fn on(alloc: Global, text: &str) -> Result<Action, CaseFault> {
    match text {
        "the folder" => Ok(Action::OnTheFolder),
        _ => Err(CaseFault::unreadable(alloc, text)),
    }
}

/// Reads `= BYTES`.
fn image<R: Files + AllocGlobal>(rt: &R, text: &str) -> Result<Action, CaseFault> {
    match text.strip_prefix("= ") {
        Some(bytes) => Ok(Action::Image {
            bytes: bytes_of(rt, bytes)?,
        }),
        None => Err(CaseFault::unreadable(rt.alloc(), text)),
    }
}

/// Reads `NAME = BYTES` or `NAME at $22 = BYTES`.
fn host<R: Files + AllocGlobal>(rt: &R, text: &str) -> Result<Action, CaseFault> {
    let Some((what, bytes)) = text.split_once(" = ") else {
        return Err(CaseFault::unreadable(rt.alloc(), text));
    };
    let bytes = bytes_of(rt, bytes)?;
    match what.split_once(" at ") {
        Some((name, place)) => Ok(Action::Change {
            name: String::from_str(rt.alloc(), name)?,
            place: offset_of(rt.alloc(), place)?,
            bytes,
        }),
        None => Ok(Action::Put {
            name: String::from_str(rt.alloc(), what)?,
            bytes,
        }),
    }
}

/// Reads `3 of the host fails`.
fn fail_at(alloc: Global, text: &str) -> Result<Action, CaseFault> {
    match text.strip_suffix(" of the host fails") {
        Some(call) => Ok(Action::FailAt {
            call: number_of(alloc, call)?,
        }),
        None => Err(CaseFault::unreadable(alloc, text)),
    }
}

/// Reads `NAME = BYTES` or `NAME is the image`.
fn file<R: Files + AllocGlobal>(rt: &R, text: &str) -> Result<Action, CaseFault> {
    if let Some(name) = text.strip_suffix(" is the image") {
        return Ok(Action::FileIsImage {
            name: String::from_str(rt.alloc(), name)?,
        });
    }
    match text.split_once(" = ") {
        Some((name, bytes)) => Ok(Action::File {
            name: String::from_str(rt.alloc(), name)?,
            bytes: bytes_of(rt, bytes)?,
        }),
        None => Err(CaseFault::unreadable(rt.alloc(), text)),
    }
}

/// Reads `file NAME`.
fn no_file(alloc: Global, text: &str) -> Result<Action, CaseFault> {
    match text.strip_prefix("file ") {
        Some(name) => Ok(Action::NoFile {
            name: String::from_str(alloc, name)?,
        }),
        None => Err(CaseFault::unreadable(alloc, text)),
    }
}

/// Reads `17/0 = BYTES` or `17/0 at $22 = BYTES`.
fn block<R: Files + AllocGlobal>(rt: &R, text: &str) -> Result<Action, CaseFault> {
    let Some((what, bytes)) = text.split_once(" = ") else {
        return Err(CaseFault::unreadable(rt.alloc(), text));
    };
    let (pair, place) = match what.split_once(" at ") {
        Some((pair, place)) => (pair, offset_of(rt.alloc(), place)?),
        None => (what, 0),
    };
    let Some((track, sector)) = pair_of(pair) else {
        return Err(CaseFault::unreadable(rt.alloc(), text));
    };
    Ok(Action::Block {
        track,
        sector,
        place,
        bytes: bytes_of(rt, bytes)?,
    })
}

/// Returns the track and the sector of `17/0`.
fn pair_of(text: &str) -> Option<(u8, u8)> {
    let (track, sector) = text.split_once('/')?;
    Some((track.parse().ok()?, sector.parse().ok()?))
}

/// Reads `1 done, 2 undone`.
fn records(alloc: Global, text: &str) -> Result<Action, CaseFault> {
    match text
        .strip_suffix(" undone")
        .and_then(|text| text.split_once(" done, "))
    {
        Some((done, undone)) => Ok(Action::Records {
            done: number_of(alloc, done)?,
            undone: number_of(alloc, undone)?,
        }),
        None => Err(CaseFault::unreadable(alloc, text)),
    }
}
