//! Dumps of disks: images with the read codes of their blocks.
ghost use Rattle.std.specs.Prelude.{◌≡◌, ◌≤◌, if◌then◌else◌, Some, None, IfOk, IfSome, OnOk, OnErr, is_some, true, length, take, option_map};
ghost use Rattle.d64_image.specs.Image.{is_image_length};
ghost use Rattle.d64_survey.specs.Dump.{IsDump, dump_bytes, image_bytes as image_bytes_in, wrong_dump_length, is_read_error, drive_status};

use d64_image::{Image, ImageFault};
use std::alloc::{AllocError, Global};
use std::marker::Model;
use thiserror::Error;

/// How many bytes a dump of 35 tracks has, without codes and with them.
const BYTES_OF_35: usize = 174_848;

const CODED_BYTES_OF_35: usize = 175_531;

/// How many bytes a dump of 40 tracks has, without codes and with them.
const BYTES_OF_40: usize = 196_608;

const CODED_BYTES_OF_40: usize = 197_376;

/// Why bytes make no dump.
#[derive(Clone, Debug, PartialEq, Eq, Drop, Error)]
pub enum DumpFault {
    /// There are this many bytes. A dump has 174,848, 175,531, 196,608 or 197,376.
    #[error("a dump has 174848, 175531, 196608 or 197376 bytes, and these are {0}")]
    WrongLength(usize),
    #[error("out of memory")]
    Memory(AllocError),
}

/// What a reader made of a disk: an image and, if the reader noted them, one read code for each
/// block (the VICE manual, "The D64 disk image format").
#[derive(Drop)]
pub struct Dump {
    image: Image,
    /// One for each block, or no code at all.
    codes: Vec<u8>,
}

impl Model for Dump {
    ghost use Rattle.d64_survey.specs.Dump.{DumpView, HasCodes, codes_in};

    ghost Value = { DumpView };

    ghost view = { λ dump. record { image = dump.image; codes = codes_in dump.codes.items } };

    ghost invariant = { λ dump. HasCodes dump.image (codes_in dump.codes.items) };
}

impl From<ImageFault> for DumpFault {
    ghost use Rattle.d64_survey.specs.Dump.{dump_fault};
    ghost use Rattle.std.specs.Prelude.{◌≡◌};

    ghost from_gives = { λ error fault. fault ≡ dump_fault error };

    fn from(error: ImageFault) -> DumpFault {
        match error {
            ImageFault::WrongLength(len) => DumpFault::WrongLength(len),
            ImageFault::Memory(error) => DumpFault::Memory(error),
        }
    }
}

/// How many bytes the image has in a dump of `len` bytes, or None if no dump has as many.
pub fn image_bytes(len: usize) -> Option<usize>
    ensures image { result ≡ image_bytes_in len }
    ensures size { IfSome result (λ count. is_image_length count ≡ true) }
    ensures within { IfSome result (λ count. count ≤ len) }
{
    match len {
        BYTES_OF_35 | CODED_BYTES_OF_35 => Some(BYTES_OF_35),
        BYTES_OF_40 | CODED_BYTES_OF_40 => Some(BYTES_OF_40),
        _ => None,
    }
}

/// Whether a read code is that of a read error. Codes 0 and 1 are good.
pub fn is_read_error(code: u8) -> bool
    ensures { result ≡ is_read_error code }
{
    code > 1
}

/// The drive's status of a read code: 20 to 29 for the codes 2 to 11, and 74 for 15 (the 1541
/// User's Guide, "Error messages"). The others have none.
pub fn drive_status(code: u8) -> Option<u8>
    ensures { result ≡ drive_status code }
{
    match code {
        2..=11 => Some(code + 18),
        15 => Some(74),
        _ => None,
    }
}

/// Makes a list at least as long as another one, with bytes of that. It allocates only if the list
/// was never as long.
fn lengthen(list: &mut Vec<u8>, other: &[u8]) -> Result<(), AllocError>
    ensures kept { take (length list.old.items) list.new.items ≡ list.old.items }
    ensures long { OnOk result (length other.now ≤ length list.new.items) }
    ensures unchanged { OnErr result (list.new.items ≡ list.old.items) }
{
    let count = list.len();
    if count < other.len() {
        list.extend_from_slice(&other[count..])?;
    }
    Ok(())
}

/// Overwrites the first bytes of a list that is at least as long.
fn overwrite(list: &mut Vec<u8>, bytes: &[u8])
    requires { length bytes.now ≤ length list.old.items }
    ensures { list.new.items ≡ bytes.now }
{
    list.truncate(bytes.len());
    list.as_mut_slice().copy_from_slice(bytes);
}

impl Dump {
    /// Makes a dump of these bytes. `WrongLength` comes unless there are 174,848 or 196,608 bytes,
    /// those of an image, or 175,531 or 197,376, those of an image and its 683 or 768 codes.
    pub fn from_bytes(alloc: Global, bytes: &[u8]) -> Result<Dump, DumpFault>
        ensures refused { wrong_dump_length result ≡ (if is_some (image_bytes_in (length bytes.now)) then None else Some (length bytes.now)) }
        ensures kept { IfOk result (λ dump. dump_bytes dump ≡ bytes.now) }
        ensures dump { IfOk result IsDump }
    {
        let of_image = match image_bytes(bytes.len()) {
            Some(count) => count,
            None => return Err(DumpFault::WrongLength(bytes.len())),
        };
        let (blocks, codes) = bytes.split_at(of_image);
        let image = Image::from_bytes(alloc, blocks)?;
        match Vec::from_slice(alloc, codes) {
            Ok(codes) => Ok(Dump { image, codes }),
            Err(error) => Err(DumpFault::Memory(error)),
        }
    }

    /// The dump of an image without read codes.
    pub fn from_image(alloc: Global, image: Image) -> Dump
        ensures { result ≡ record { image = image; codes = None } }
    {
        Dump {
            image,
            codes: Vec::new(alloc),
        }
    }

    /// Replaces the dump by the one of these bytes, as `from_bytes` makes it. After an error the
    /// dump is unchanged. It allocates only if the new dump has more blocks or codes than any
    /// before it.
    pub fn refill(&mut self, bytes: &[u8]) -> Result<(), DumpFault>
        ensures refused { wrong_dump_length result ≡ (if is_some (image_bytes_in (length bytes.now)) then None else Some (length bytes.now)) }
        ensures filled { OnOk result (dump_bytes self.new ≡ bytes.now) }
        ensures dump { OnOk result (IsDump self.new) }
        ensures unchanged { OnErr result (self.new ≡ self.old) }
    {
        let of_image = match image_bytes(bytes.len()) {
            Some(count) => count,
            None => return Err(DumpFault::WrongLength(bytes.len())),
        };
        let (blocks, codes) = bytes.split_at(of_image);
        let count = self.codes.len();
        lengthen(&mut self.codes, codes).map_err(DumpFault::Memory)?;
        match self.image.refill(blocks) {
            Ok(()) => {
                overwrite(&mut self.codes, codes);
                Ok(())
            }
            Err(error) => {
                self.codes.truncate(count);
                Err(DumpFault::from(error))
            }
        }
    }

    /// The image.
    pub fn image(&self) -> &Image
        ensures value { result.now ≡ self.now.image }
        ensures dump { IsDump self.now }
    {
        self.image.known_image();
        &self.image
    }

    /// The read codes, one for each block of the image, or None if there are no codes.
    pub fn codes(&self) -> Option<&[u8]>
        ensures codes { option_map (λ codes. codes.now) result ≡ self.now.codes }
        ensures dump { IsDump self.now }
    {
        self.image.known_image();
        if self.codes.is_empty() {
            None
        } else {
            Some(self.codes.as_slice())
        }
    }
}
