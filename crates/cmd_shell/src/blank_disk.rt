//! `BlankDisk`: the blank disks that a script can begin with.
ghost use Rattle.std.specs.Prelude.{◌≡◌, IfOk};
ghost use Rattle.cmd_shell.specs.Beginnings.{blank_disk_of, blank_image};

use d64_image::Image;
use std::alloc::{AllocError, Global};

/// A blank disk, by its tracks.
#[derive(Clone, Copy, PartialEq, Eq)]
pub enum BlankDisk {
    Tracks35,
    Tracks40,
}

impl BlankDisk {
    /// Returns the blank disk of 40 tracks if `tracks` is 40, and else that of 35.
    pub fn of(tracks: u8) -> BlankDisk
        ensures { result ≡ blank_disk_of tracks }
    {
        if tracks == 40 {
            BlankDisk::Tracks40
        } else {
            BlankDisk::Tracks35
        }
    }

    /// Returns its image.
    pub(crate) fn image(self, alloc: Global) -> Result<Image, AllocError>
        ensures { IfOk result (λ image. image ≡ blank_image self) }
    {
        match self {
            BlankDisk::Tracks35 => Image::zeroed(alloc),
            BlankDisk::Tracks40 => Image::zeroed40(alloc),
        }
    }
}
