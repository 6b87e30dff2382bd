//! Lines that are compared before they are printed, in buffers.
ghost use Rattle.std.specs.Prelude.{◌≡◌, IfOk};
ghost use Rattle.cmd_diff.specs.Changes.{are_alike, disk_object, entry_object};

use crate::objects::{disk_line_json, entry_line_json};
use d64_image::BlockNo;
use d64_inventory::FileRow;
use d64_survey::Inspection;
use std::alloc::{AllocError, Global};
use std::mem;

/// Buffers for lines and lists, which are used for one difference after the next.
#[derive(Drop)]
pub(crate) struct Drafts {
    pub(crate) alloc: Global,
    /// A text for a line.
    pub(crate) text: Vec<u8>,
    /// A line of the old dump.
    pub(crate) old: Vec<u8>,
    /// A line of the new dump.
    pub(crate) new: Vec<u8>,
    /// All lines.
    pub(crate) lines: Vec<u8>,
    /// Blocks that changed.
    pub(crate) blocks: Vec<BlockNo>,
}

impl Drafts {
    /// Returns buffers that have no memory yet.
    pub(crate) fn new(alloc: Global) -> Drafts {
        Drafts {
            alloc,
            text: Vec::new(alloc),
            old: Vec::new(alloc),
            new: Vec::new(alloc),
            lines: Vec::new(alloc),
            blocks: Vec::new(alloc),
        }
    }

    /// Whether the objects of two disks are equal.
    pub(crate) fn is_same_disk(
        &mut self,
        old: &Inspection,
        new: &Inspection,
    ) -> Result<bool, AllocError>
        ensures { IfOk result (λ is_same. is_same ≡ are_alike (disk_object old.now) (disk_object new.now)) }
    {
        let mut first = mem::replace(&mut self.old, Vec::new(self.alloc));
        first.clear();
        let first = disk_line_json(&mut self.text, old, first)?;
        let mut second = mem::replace(&mut self.new, Vec::new(self.alloc));
        second.clear();
        let second = disk_line_json(&mut self.text, new, second)?;
        let is_same = first.as_slice() == second.as_slice();
        self.old = first;
        self.new = second;
        Ok(is_same)
    }

    /// Whether the rows of two files are equal, without the image and the slot.
    pub(crate) fn is_same_entry(&mut self, old: &FileRow, new: &FileRow) -> Result<bool, AllocError>
        ensures { IfOk result (λ is_same. is_same ≡ are_alike (entry_object old.now) (entry_object new.now)) }
    {
        let mut first = mem::replace(&mut self.old, Vec::new(self.alloc));
        first.clear();
        let first = entry_line_json(&mut self.text, old, first)?;
        let mut second = mem::replace(&mut self.new, Vec::new(self.alloc));
        second.clear();
        let second = entry_line_json(&mut self.text, new, second)?;
        let is_same = first.as_slice() == second.as_slice();
        self.old = first;
        self.new = second;
        Ok(is_same)
    }
}
