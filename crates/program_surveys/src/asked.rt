//! `Asked`: what a run is asked to process.
use program_console::Reason;

/// What a run is asked to process.
#[derive(Clone, Copy)]
pub(crate) enum Asked<'n> {
    /// The file with this name.
    File(&'n str),
    /// A name that cannot be a file's: how it is shown, and why it cannot.
    NoFile { shown: &'n [u8], reason: Reason },
}
