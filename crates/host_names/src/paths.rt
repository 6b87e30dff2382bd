//! The paths of the folder that the files of an image get, and of these files.
ghost use Rattle.std.specs.Prelude.{◌≡◌, ◌++◌, map, string_bytes, IfOk, OnOk};
ghost use Rattle.host_names.specs.ImagePlace.{finished_name, unfinished_name};
ghost use Rattle.host_names.specs.Paths.{ends_in_slash, path_inside, place_below, path_in};

use crate::image_place::ImagePlace;
use std::alloc::{AllocError, Global};

/// Whether a path ends in a `/`.
fn ends_in_slash(path: &[u8]) -> bool
    ensures { result ≡ ends_in_slash path.now }
{
    match path {
        [.., b'/'] => true,
        _ => false,
    }
}

/// Returns what the paths in a folder begin with: the folder's path, and a `/`, unless it ends in
/// one.
pub fn path_inside(alloc: Global, folder: &str) -> Result<String, AllocError>
    ensures { IfOk result (λ path. string_bytes path ≡ path_inside folder.now) }
{
    let mut path = String::from_str(alloc, folder)?;
    if !ends_in_slash(folder.as_bytes()) {
        path.push('/')?;
    }
    Ok(path)
}

/// Extends the beginning of a path by folders, each of which lies in the one before it.
fn go_below(place: &mut String, folders: &[&str]) -> Result<(), AllocError>
    ensures { OnOk result (string_bytes place.new ≡ place_below (string_bytes place.old) (map (λ folder. folder.now) folders.now)) }
{
    for folder in folders {
        place.push_str(folder)?;
        place.push('/')?;
    }
    Ok(())
}

/// Returns what the paths in the last folder of an image's path begin with, below the chosen
/// folder.
fn place_of(alloc: Global, into: &str, place: &ImagePlace) -> Result<String, AllocError>
    ensures { IfOk result (λ path. string_bytes path ≡ place_below (path_inside into.now) (map (λ folder. folder.now) place.now.folders.items)) }
{
    let mut path = path_inside(alloc, into)?;
    go_below(&mut path, place.folders.as_slice())?;
    Ok(path)
}

/// Returns the path of the folder of the image in this place once it is complete.
pub fn done_path(alloc: Global, into: &str, place: &ImagePlace) -> Result<String, AllocError>
    ensures { IfOk result (λ path. string_bytes path ≡ place_below (path_inside into.now) (map (λ folder. folder.now) place.now.folders.items) ++ finished_name place.now.last.now) }
{
    let mut path = place_of(alloc, into, place)?;
    place.push_name(&mut path)?;
    Ok(path)
}

/// Returns the path of that folder before.
pub fn partial_path(alloc: Global, into: &str, place: &ImagePlace) -> Result<String, AllocError>
    ensures { IfOk result (λ path. string_bytes path ≡ place_below (path_inside into.now) (map (λ folder. folder.now) place.now.folders.items) ++ unfinished_name place.now.last.now) }
{
    let mut path = place_of(alloc, into, place)?;
    place.push_partial_name(&mut path)?;
    Ok(path)
}

/// Replaces a list's contents by the path of a file in a folder.
pub fn put_path(path: &mut Vec<u8>, folder: &str, file: &[u8]) -> Result<(), AllocError>
    ensures { OnOk result (path.new.items ≡ path_in folder.now file.now) }
{
    path.clear();
    path.extend_from_slice(folder.as_bytes())?;
    path.extend_from_slice(b"/")?;
    path.extend_from_slice(file)
}
