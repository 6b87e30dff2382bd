//! Calls on the text form and on BASIC programs.

use crate::disk::PROGRAM;
use crate::end::{Bench, End};
use cbm_text::{BasicFault, ListFault};
use petscii::TextFault;
use std::alloc::Global;

/// A BASIC text of one line.
pub const TEXT: &[u8; 16] = b"10 print\"hello\"\n";

/// The address at which BASIC programs begin.
pub const START: u16 = 0x0801;

/// A call that makes a text, or bytes of one.
#[derive(Clone, Copy)]
pub enum TextCall {
    ToText,
    FromText,
    Crunch,
    List,
}

impl TextCall {
    pub fn of(call: &str) -> Option<TextCall> {
        match call {
            "to_text" => Some(TextCall::ToText),
            "from_text" => Some(TextCall::FromText),
            "crunch" => Some(TextCall::Crunch),
            "list" => Some(TextCall::List),
            _ => None,
        }
    }
}

pub fn made(bench: &Bench, call: TextCall) -> End {
    bench.begin();
    match call {
        TextCall::ToText => to_text(bench.alloc()),
        TextCall::FromText => from_text(bench.alloc()),
        TextCall::Crunch => crunch(bench.alloc()),
        TextCall::List => list(bench.alloc()),
    }
}

fn to_text(alloc: Global) -> End {
    match petscii::to_text(alloc, b"HELLO\x93\x07 LONGER") {
        Ok(text) => End::Made(text.len()),
        Err(_) => End::OutOfMemory,
    }
}

fn from_text(alloc: Global) -> End {
    match petscii::from_text(alloc, b"hello{clr}{$07} longer") {
        Ok(bytes) => End::Made(bytes.len()),
        Err(TextFault::Memory(_)) => End::OutOfMemory,
        Err(_) => End::Refused,
    }
}

fn crunch(alloc: Global) -> End {
    match cbm_text::crunch(alloc, START, TEXT) {
        Ok(file) => End::Made(file.len()),
        Err(BasicFault::Memory(_)) => End::OutOfMemory,
        Err(_) => End::Refused,
    }
}

fn list(alloc: Global) -> End {
    match cbm_text::list(alloc, PROGRAM) {
        Ok(text) => End::Made(text.len()),
        Err(ListFault::Memory(_)) => End::OutOfMemory,
        Err(_) => End::Refused,
    }
}
