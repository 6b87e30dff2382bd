//! The name of a list that is being read.
ghost use Rattle.std.specs.Prelude.{◌≡◌, ◌≤◌, [], ◌∷◌, ◌++◌, length, take, MatchOption};
ghost use Rattle.program_surveys.specs.Asked.{request_of};
ghost use Rattle.program_surveys.specs.Names.{requests_of};

use crate::asked::Asked;
use arrayvec::ArrayVec;
use program_console::Reason;
use std::marker::Model;

/// The most bytes of a name.
const NAME_BYTES: usize = 4096;

/// One byte more than a name has, so that a name that is too long is recognised.
const KEPT_BYTES: usize = 4097;

/// The bytes that are shown of a name that is too long.
const SHOWN_BYTES: usize = 64;

/// The bytes of a name as far as they have come, or the first 4,097 of more.
#[derive(Drop)]
pub(crate) struct OpenName {
    bytes: ArrayVec<u8, KEPT_BYTES>,
}

impl Model for OpenName {
    ghost use Rattle.std.specs.Prelude.{ℕ, List, ◌≤◌, length};

    ghost Value = { List ℕ };

    ghost view = { λ name. name.bytes.items };

    ghost invariant = { λ name. length name.bytes.items ≤ 4097 };
}

impl OpenName {
    /// Returns a name of which no byte has come.
    pub(crate) fn new() -> OpenName
        ensures { result ≡ [] }
    {
        OpenName {
            bytes: ArrayVec::new(),
        }
    }

    /// Forgets the name, for the next one.
    pub(crate) fn clear(&mut self)
        ensures { self.new ≡ [] }
    {
        self.bytes.clear();
    }

    /// Takes the next bytes of the name.
    pub(crate) fn push(&mut self, bytes: &[u8])
        ensures { self.new ≡ take 4097 (self.old ++ bytes.now) }
    {
        let room = KEPT_BYTES - self.bytes.len();
        let _ = self
            .bytes
            .try_extend_from_slice(&bytes[..bytes.len().min(room)]);
    }

    /// Returns what the name asks for, or None if no byte has come. A name that is not UTF-8, or
    /// has more than 4,096 bytes, cannot be a file's; of one that is too long the first 64 bytes and
    /// two full stops are shown, and it is not kept.
    pub(crate) fn asked(&mut self) -> Option<Asked<'_>>
        ensures { MatchOption result (requests_of self.old ≡ []) (λ asked. requests_of self.old ≡ request_of asked ∷ []) }
    {
        if self.bytes.is_empty() {
            return None;
        }
        if self.bytes.len() > NAME_BYTES {
            self.bytes.truncate(SHOWN_BYTES);
            let _ = self.bytes.try_extend_from_slice(b"..");
            return Some(Asked::NoFile {
                shown: self.bytes.as_slice(),
                reason: Reason::ListedNameTooLong,
            });
        }
        let bytes = self.bytes.as_slice();
        match str::from_utf8(bytes) {
            Ok(name) => Some(Asked::File(name)),
            Err(_) => Some(Asked::NoFile {
                shown: bytes,
                reason: Reason::NotUtf8,
            }),
        }
    }
}
