//! The slots of a directory, one at a time.
ghost use Rattle.std.specs.Prelude.{◌≡◌, ◌*◌, ◌+◌, ◌≤◌, ◌==◌, ◌||◌, bytes_eq, length, option_map, slice_index};
ghost use Rattle.d64_files.specs.Chain.{block_in};
ghost use Rattle.d64_files.specs.Slot.{type_byte, has_kind, is_used, kind_of, is_locked, is_closed, first_pair, field_of, name_of, side_pair, record_length, geos_type, size_of};

use crate::chain::block_in;
use crate::kind::Kind;
use crate::name::{FILLER, Name, name_in};
use d64_image::{BlockNo, Image};
use std::marker::Model;

/// How many bytes a slot has.
pub(crate) const SLOT_BYTES: usize = 32;

/// The greatest number of a file's kind, that of REL.
pub(crate) const LAST_KIND: u8 = 4;

/// A slot of the directory: its place in the order of the directory's chain, from 0.
#[derive(Clone, Copy, Debug, PartialEq, Eq, PartialOrd, Ord, Hash)]
pub struct SlotNo {
    place: usize,
}

impl Model for SlotNo {
    ghost use Rattle.std.specs.Prelude.{ℕ};

    ghost Value = { ℕ };

    ghost view = { λ slot. slot.place };

    ghost inverse = { λ place. record { place = place } };
}

/// Whether a field ends at a place, or a filler is there.
fn ends_at(field: &[u8], place: usize) -> bool
    requires { place ≤ length field.now }
    ensures { result ≡ ((place == length field.now) || (slice_index field.now place == 0xA0)) }
{
    place == field.len() || field[place] == FILLER
}

impl SlotNo {
    /// The slot at that place.
    pub fn at(place: usize) -> SlotNo
        ensures { result ≡ place }
    {
        SlotNo { place }
    }

    /// The place of the slot, from 0.
    pub fn place(self) -> usize
        ensures { result ≡ self }
    {
        self.place
    }
}

/// An entry of the directory: the 32 bytes of a slot, borrowed from the image (the VICE manual,
/// "The D64 disk image format").
#[derive(Drop)]
pub struct Entry<'a> {
    slot: SlotNo,
    bytes: &'a [u8],
    image: &'a Image,
}

impl<'a> Model for Entry<'a> {
    ghost use Rattle.std.specs.Prelude.{◌≡◌, length};
    ghost use Rattle.d64_files.specs.Slot.{EntryView};

    ghost Value = { EntryView };

    ghost view = { λ entry. record { slot = entry.slot; bytes = entry.bytes.now; image = entry.image.now } };

    ghost invariant = { λ entry. length entry.bytes.now ≡ 32 };
}

impl<'a> Entry<'a> {
    /// The entry of a slot of an image with these 32 bytes.
    pub(crate) fn of(image: &'a Image, slot: SlotNo, bytes: &'a [u8]) -> Entry<'a>
        requires { length bytes.now ≡ 32 }
        ensures { result ≡ record { slot = slot; bytes = bytes.now; image = image.now } }
    {
        Entry { slot, bytes, image }
    }

    /// The slot of the entry.
    pub fn slot(&self) -> SlotNo
        ensures { result ≡ self.now.slot }
    {
        self.slot
    }

    /// Whether the slot is used: its type byte isn't $00.
    pub fn used(&self) -> bool
        ensures { result ≡ is_used self.now.bytes }
    {
        self.bytes[2] != 0
    }

    /// The type byte: the kind's number, and whether the file is locked and closed.
    pub fn type_byte(&self) -> u8
        ensures { result ≡ type_byte self.now.bytes }
    {
        self.bytes[2]
    }

    /// Whether the low four bits of the type byte are the number of a kind. They are in each slot
    /// of a `Directory`.
    pub fn has_kind(&self) -> bool
        ensures { result ≡ has_kind self.now.bytes }
    {
        self.bytes[2] % 16 <= LAST_KIND
    }

    /// The kind of the file, the low four bits of the type byte; DEL if that number has no kind.
    pub fn kind(&self) -> Kind
        ensures { result ≡ kind_of self.now.bytes }
    {
        match self.bytes[2] % 16 {
            1 => Kind::Seq,
            2 => Kind::Prg,
            3 => Kind::Usr,
            LAST_KIND => Kind::Rel,
            _ => Kind::Del,
        }
    }

    /// Whether the file was closed: bit 7 of the type byte is 1.
    pub fn closed(&self) -> bool
        ensures { result ≡ is_closed self.now.bytes }
    {
        self.bytes[2] & (1 << 7) != 0
    }

    /// Whether the file is locked, so that it isn't deleted: bit 6 of the type byte is 1.
    pub fn locked(&self) -> bool
        ensures { result ≡ is_locked self.now.bytes }
    {
        self.bytes[2] & (1 << 6) != 0
    }

    /// The field of the name: 16 bytes, of which the first $A0 ends the name.
    pub fn field(&self) -> &'a [u8]
        ensures value { result.now ≡ field_of self.now.bytes }
        ensures len { length result.now ≡ 16 }
    {
        &self.bytes[5..21]
    }

    /// The name: the field up to its first $A0, or all of it.
    pub fn name(&self) -> &'a [u8]
        ensures { result.now ≡ name_of self.now.bytes }
    {
        name_in(self.field())
    }

    /// Whether the entry has exactly this name.
    pub(crate) fn is_called(&self, name: &Name) -> bool
        ensures { result ≡ bytes_eq (name_of self.now.bytes) name.now }
    {
        let field = self.field();
        let bytes = name.bytes();
        let len = bytes.len();
        if !ends_at(field, len) {
            return false;
        }
        &field[..len] == bytes
    }

    /// The first block of the file, or None if the entry's image has no block of that track and
    /// sector.
    pub fn start(&self) -> Option<BlockNo>
        ensures { result ≡ block_in self.now.image (first_pair self.now.bytes).0 (first_pair self.now.bytes).1 }
    {
        let (track, sector) = self.first_pair();
        block_in(self.image, track, sector)
    }

    /// The track (from 1) and the sector (from 0) of the first block, as the entry has them.
    pub fn first_pair(&self) -> (u8, u8)
        ensures { result ≡ first_pair self.now.bytes }
    {
        (self.bytes[3], self.bytes[4])
    }

    /// The track (from 1) and the sector (from 0) of the first side block of a REL file, as the
    /// entry has them, or None if the track is 0: then there are no side blocks.
    pub fn side_pair(&self) -> Option<(u8, u8)>
        ensures { result ≡ side_pair self.now.bytes }
    {
        if self.bytes[0x15] == 0 {
            None
        } else {
            Some((self.bytes[0x15], self.bytes[0x16]))
        }
    }

    /// The byte $17 of the slot: the length in bytes of a REL file's records.
    pub fn record_length(&self) -> u8
        ensures { result ≡ record_length self.now.bytes }
    {
        self.bytes[0x17]
    }

    /// The byte $18 of the slot: the type of a GEOS file, and 0 for other files.
    pub fn geos_type(&self) -> u8
        ensures { result ≡ geos_type self.now.bytes }
    {
        self.bytes[0x18]
    }

    /// The size of the file in blocks that the directory shows.
    pub fn blocks(&self) -> u16
        ensures { result ≡ size_of self.now.bytes }
    {
        u16::from_le_bytes([self.bytes[0x1E], self.bytes[0x1F]])
    }
}
