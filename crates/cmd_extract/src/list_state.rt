//! How far the list of an image's files is written.

/// How far the list of an image's files is written on the host.
#[derive(Clone, Copy, PartialEq, Eq)]
pub(crate) enum ListState {
    /// It is not there yet.
    New,
    /// A first part of it is there.
    Begun,
    /// A part of it could not be written, and the rest is given up.
    GivenUp,
}
