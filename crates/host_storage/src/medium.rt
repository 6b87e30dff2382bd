//! What a name of the host is shown in: a text or JSON.

/// What a name is shown in: a text for people, or JSON.
#[derive(Clone, Copy, PartialEq, Eq)]
pub(crate) enum Medium {
    Text,
    Json,
}
