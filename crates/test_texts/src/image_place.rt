//! The folders of the files of an image, by its path.

use host_names::ImagePlace;
use std::alloc::{AllocError, Global};

/// Paths of images, and the folders on the way to the files of each, the name of the folder that
/// gets them, and its name until it has all.
const PLACES: [(&str, &str); 8] = [
    ("c.d64", "c.d64.files c.d64.files.partial"),
    ("a/side1.d64", "a side1.d64.files side1.d64.files.partial"),
    (
        "/a//b/./../c/../side1.d64",
        "a b c side1.d64.files side1.d64.files.partial",
    ),
    ("../../x.d64", "x.d64.files x.d64.files.partial"),
    ("...//..a/x", "... ..a x.files x.files.partial"),
    ("a/..", "a ...files ...files.partial"),
    ("a/", "a .files .files.partial"),
    ("", ".files .files.partial"),
];

/// Appends the folders and the two names of an image's path, with a space after each but the last.
fn push_place(place: &ImagePlace<'_>, text: &mut String) -> Result<(), AllocError> {
    for folder in place.folders.iter() {
        text.push_str(folder)?;
        text.push(' ')?;
    }
    place.push_name(text)?;
    text.push(' ')?;
    place.push_partial_name(text)
}

/// Whether these are the folders and the names of an image's path.
fn is_placed(alloc: Global, path: &str, wanted: &str) -> bool {
    match ImagePlace::of(alloc, path) {
        Ok(place) => {
            let mut text = String::new(alloc);
            push_place(&place, &mut text).is_ok() && text.as_str() == wanted
        }
        Err(AllocError) => false,
    }
}

#[test]
fn places_are_below(rt: HostRuntime) {
    for (path, wanted) in &PLACES {
        assert!(rt; is_placed(rt.alloc(), path, wanted), "at {path}");
    }
}
