//! The texts of faults, as they are shown.

use std::alloc::{AllocError, Global};
use std::fmt::Display;
use std::process::Abort;

/// Whether this is the text of a fault.
fn is_text_of(alloc: Global, fault: &impl Display, text: &str) -> bool {
    match fault.to_string(alloc) {
        Ok(shown) => shown.as_str() == text,
        Err(AllocError) => false,
    }
}

/// Checks the texts of faults.
pub fn have_texts<F: Display>(rt: &(impl Abort + AllocGlobal), rows: &[(F, &str)]) {
    for (fault, text) in rows {
        assert!(rt; is_text_of(rt.alloc(), fault, text), "{text}");
    }
}
