//! Why a file is not whole.

/// A reason why a file is not whole, in the order in which they are listed. The default is the
/// first.
#[derive(Clone, Copy, Debug, Default, PartialEq, Eq)]
pub enum Flaw {
    /// It isn't closed.
    #[default]
    Unclosed,
    /// Its type byte has no kind.
    Kindless,
    /// A way of it isn't a whole chain.
    Broken,
    /// A block of it has more than one owner.
    Shared,
    /// A block of it has a read error.
    Unreadable,
    /// Its ways are whole chains, but the size that the directory shows isn't theirs.
    Missized,
    /// It is a GEOS file, whose records aren't walked, so that it may or may not be whole.
    Geos,
}
