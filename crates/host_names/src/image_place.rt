//! `ImagePlace`: the folders on the host that the files of an image go to, by the path of the
//! image.
ghost use Rattle.std.specs.Prelude.{◌≡◌, ◌++◌, map, string_bytes, IfOk, OnOk};
ghost use Rattle.host_names.specs.ImagePlace.{is_folder, folders_of, last_part, finished_name, unfinished_name};

use std::alloc::{AllocError, Global};

/// The folders for the files of an image, by the image's path.
#[derive(Drop)]
pub struct ImagePlace<'a> {
    /// The folders of the path, without empty parts, `.` and `..`: each lies in the one before it.
    pub folders: Vec<&'a str>,
    /// The last part of the path.
    pub last: &'a str,
}

impl<'a> ImagePlace<'a> {
    /// The folders for the files of the image with this path.
    pub fn of(alloc: Global, path: &'a str) -> Result<ImagePlace<'a>, AllocError>
        ensures folders { IfOk result (λ place. map (λ folder. folder.now) place.folders.items ≡ folders_of path.now) }
        ensures last { IfOk result (λ place. place.last.now ≡ last_part path.now) }
    {
        let mut folders = Vec::new(alloc);
        let mut left = path;
        while let Some((part, rest)) = left.split_once('/') {
            if is_folder(part) {
                folders.push(part)?;
            }
            left = rest;
        }
        Ok(ImagePlace {
            folders,
            last: left,
        })
    }

    /// Appends the name of the image's folder.
    #[tactic(auto, unfolding(crate::specs::ImagePlace::finished_name))]
    pub fn push_name(&self, out: &mut String) -> Result<(), AllocError>
        ensures { OnOk result (string_bytes out.new ≡ string_bytes out.old ++ finished_name self.now.last.now) }
    {
        out.push_str(self.last)?;
        out.push_str(".files")
    }

    /// Appends the name that this folder has until it is complete.
    #[tactic(auto, unfolding(crate::specs::ImagePlace::unfinished_name))]
    pub fn push_partial_name(&self, out: &mut String) -> Result<(), AllocError>
        ensures { OnOk result (string_bytes out.new ≡ string_bytes out.old ++ unfinished_name self.now.last.now) }
    {
        self.push_name(out)?;
        out.push_str(".partial")
    }
}

/// Whether a part of a path names a folder below.
fn is_folder(part: &str) -> bool
    ensures { result ≡ is_folder part.now }
{
    !matches!(part, "" | "." | "..")
}
