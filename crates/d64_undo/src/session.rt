//! Sessions: an image with undo and redo.
ghost use Rattle.std.specs.Prelude.{◌≡◌, ◌+◌, ◌^◌, ◌<◌, ◌≤◌, ◌↔◌, length, option_copied, IsOk, OnOk, OnErr, IfOk};
ghost use Rattle.d64_dos.specs.Change.{change_of};
ghost use Rattle.d64_dos.specs.Command.{image_after, reply_to, refusal_of, IsWithin};
ghost use Rattle.d64_dos.specs.Refusal.{refused_by};
ghost use Rattle.d64_effects.specs.View.{IsSound};
ghost use Rattle.d64_history.specs.Held.{IsHeld, held_history};
ghost use Rattle.d64_history.specs.History.{IsHistory, present_image, new_history, extended_history, undone_history, redone_history, record_len, record_at};
ghost use Rattle.d64_history.specs.SessionFile.{file_of, IsSession};
ghost use Rattle.d64_undo.specs.SoundHistory.{IsSoundHistory, KeepsSound};

use d64_dos::{Command, Refusal, Reply, apply_knowing};
use d64_history::{HeldHistory, session_file};
use d64_image::{BLOCK_BYTES, BlockNo, Image, Patch, PatchList, Place};
use std::alloc::{AllocError, Global};
use std::marker::Model;
use thiserror::Error;

/// The error of an undo: there is no record before the cursor.
#[derive(Clone, Copy, Debug, PartialEq, Eq, Error)]
#[error("nothing to undo")]
pub struct NothingToUndo;

/// The error of a redo: there is no record after the cursor.
#[derive(Clone, Copy, Debug, PartialEq, Eq, Error)]
#[error("nothing to redo")]
pub struct NothingToRedo;

/// An image with its history: all its earlier images, and those that were undone and can be redone.
///
/// The history is a list of whole images with a cursor, which is at the present image. Each
/// accepted command is a record between two images. Only the present image is held whole, and of
/// each record the blocks in which the images before and after it differ.
#[derive(Drop)]
pub struct Session {
    image: Image,
    /// What each command changed: the records that are done lead back from the present image, the
    /// last one first, and those that are undone lead on from it.
    records: PatchList,
    /// The place between the records that are done and those that are undone.
    cursor: Place,
    /// Whether the image is known to be sound: it is after a command that leaves a sound disk.
    is_sound: bool,
    /// The blocks that a command changes while it runs; empty between commands. It is kept, so that
    /// its memory is allocated once.
    change: Patch,
}

impl Model for Session {
    ghost use Rattle.std.specs.Prelude.{◌≡◌, ◌≤◌, true, [], length};
    ghost use Rattle.d64_image.specs.PatchList.{blocks_before};
    ghost use Rattle.d64_effects.specs.View.{IsSound};
    ghost use Rattle.d64_history.specs.History.{History};
    ghost use Rattle.d64_history.specs.Held.{history_of};
    ghost use Rattle.d64_history.specs.Records.{AreRecords};

    ghost Value = { History };

    ghost view = { λ s. history_of s.records s.image s.cursor.number };

    ghost invariant = { λ s. (s.cursor.number ≤ length s.records)
        × AreRecords s.records s.image s.cursor.number
        × (s.cursor.blocks ≡ blocks_before s.records s.cursor.number)
        × (s.is_sound ≡ true → IsSound s.image)
        × (s.change ≡ []) };
}

impl Session {
    /// A session that begins with an image, with nothing to undo or redo. It allocates nothing.
    pub fn new(alloc: Global, image: Image) -> Session
        ensures begun { result ≡ new_history image }
        ensures sound { IsSound image → IsSoundHistory result }
    {
        let records = PatchList::new(alloc);
        let cursor = records.end();
        Session {
            image,
            records,
            cursor,
            is_sound: false,
            change: Patch::new(alloc),
        }
    }

    /// A session with a history that is held.
    pub(crate) fn of_held(alloc: Global, held: HeldHistory) -> Session
        requires { IsHeld held }
        ensures { result ≡ held_history held }
    {
        let cursor = held.records.place_before(held.done);
        Session {
            image: held.image,
            records: held.records,
            cursor,
            is_sound: false,
            change: Patch::new(alloc),
        }
    }

    /// The present image.
    pub fn image(&self) -> &Image
        ensures present { result.now ≡ present_image self.now }
        ensures history { IsHistory self.now }
    {
        &self.image
    }

    /// How many records can be undone.
    pub fn done(&self) -> usize
        ensures { result ≡ self.now.cursor }
    {
        self.cursor.number
    }

    /// How many records can be redone.
    pub fn undone(&self) -> usize
        ensures count { self.now.cursor + result + 1 ≡ length self.now.images }
        ensures within { self.now.cursor + result < 2 ^ 64 }
    {
        self.records.len() - self.cursor.number
    }

    /// In how many blocks the images before and after a record differ, or None from `done + undone`
    /// on. Records are numbered from 0, first those that are done and then those that are undone.
    /// It allocates nothing.
    pub fn record_len(&self, number: usize) -> Option<usize>
        ensures { result ≡ record_len self.now number }
    {
        self.records.len_of(number)
    }

    /// The blocks in which the images before and after a record differ, ascending, each with 256
    /// bytes: those from before the record if it is done, and those from after it if it is undone.
    /// Records are numbered as in `record_len`. It allocates nothing.
    pub fn record_at(&self, number: usize) -> Option<&[(BlockNo, [u8; BLOCK_BYTES])]>
        ensures { option_copied result ≡ record_at self.now number }
    {
        if number < self.records.len() {
            Some(self.records.at(self.records.place_before(number)))
        } else {
            None
        }
    }

    /// The session file: the present image, how many records are done, and all records, the oldest
    /// first, each with the blocks that lead away from the present image. No other history has the
    /// same file. It allocates only the file.
    pub fn keep(&self, alloc: Global) -> Result<Vec<u8>, AllocError>
        ensures file { IfOk result (λ file. file.items ≡ file_of self.now) }
        ensures session { IsSession self.now }
    {
        session_file(alloc, &self.image, self.cursor.number, &self.records)
    }

    /// Runs a command on the present image. If it is accepted, the records after the cursor are
    /// dropped and one is added, also if nothing changed. An error is the first refusal that
    /// applies, and `Memory` only if no other applies; then image, records and cursor are
    /// unchanged. The present image has the block that a block write names.
    ///
    /// If all images of the history are sound, they are all sound after an accepted file command,
    /// and after every refusal.
    pub fn run(&mut self, command: &Command) -> Result<Reply, Refusal>
        requires { IsWithin (present_image self.old) (change_of command.now) }
        ensures refused { refused_by result ≡ refusal_of (present_image self.old) (change_of command.now) }
        ensures reply { IfOk result (λ reply. reply ≡ reply_to (present_image self.old) (change_of command.now)) }
        ensures accepted { OnOk result (self.new ≡ extended_history self.old (image_after (present_image self.old) (change_of command.now))) }
        ensures unchanged { OnErr result (self.new ≡ self.old) }
        ensures kind { length (present_image self.new) ≡ length (present_image self.old) }
        ensures sound { KeepsSound (change_of command.now) result → IsSoundHistory self.old → IsSoundHistory self.new }
    {
        let reply = apply_knowing(&mut self.image, &mut self.change, command, self.is_sound)?;
        let kept = self.records.replace_from(self.cursor, &self.change);
        if kept.is_err() {
            self.change.swap(&mut self.image);
            self.change.clear();
            return Err(Refusal::Memory);
        }
        self.change.clear();
        self.cursor = self.records.end();
        self.is_sound = command.leaves_sound(self.is_sound);
        Ok(reply)
    }

    /// Goes one record back. An error comes if no record is done. It allocates nothing.
    pub fn undo(&mut self) -> Result<(), NothingToUndo>
        ensures possible { IsOk result ↔ (0 < self.old.cursor) }
        ensures moved { OnOk result (self.new ≡ undone_history self.old) }
        ensures unchanged { OnErr result (self.new ≡ self.old) }
        ensures kind { length (present_image self.new) ≡ length (present_image self.old) }
        ensures sound { IsSoundHistory self.old → IsSoundHistory self.new }
    {
        if self.cursor.number == 0 {
            return Err(NothingToUndo);
        }
        let before = self.records.previous(self.cursor);
        self.records.swap(before, &mut self.image);
        self.cursor = before;
        self.is_sound = false;
        Ok(())
    }

    /// Goes one record forward. An error comes if no record is undone. It allocates nothing.
    pub fn redo(&mut self) -> Result<(), NothingToRedo>
        ensures possible { IsOk result ↔ (self.old.cursor + 1 < length self.old.images) }
        ensures moved { OnOk result (self.new ≡ redone_history self.old) }
        ensures unchanged { OnErr result (self.new ≡ self.old) }
        ensures kind { length (present_image self.new) ≡ length (present_image self.old) }
        ensures sound { IsSoundHistory self.old → IsSoundHistory self.new }
    {
        if self.undone() == 0 {
            return Err(NothingToRedo);
        }
        self.records.swap(self.cursor, &mut self.image);
        self.cursor = self.records.next(self.cursor);
        self.is_sound = false;
        Ok(())
    }
}
