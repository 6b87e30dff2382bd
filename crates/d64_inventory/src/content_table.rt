//! The lengths and the digests of contents, found once for each first block.
ghost use Rattle.std.specs.Prelude.{◌≡◌, ◌≤◌, length, option_map};
ghost use Rattle.d64_image.specs.declared.block.TheConstants.{BLOCKS};
ghost use Rattle.d64_files.specs.Chain.{LieIn};
ghost use Rattle.d64_files.specs.FileData.{data_along};
ghost use Rattle.d64_survey.specs.Way.{way};
ghost use Rattle.d64_inventory.specs.Contents.{content_of, digested_content, digested_along};
ghost use Rattle.d64_inventory.specs.ContentTables.{RecordsContents};

use crate::row::Content;
use d64_files::{BlockList, Entry, block_in, data_of};
use d64_image::{BLOCKS, BlockNo, Image};
use d64_survey::{data_pair, walk};
use sha2::{Digest, Sha256};

/// The lengths and digests of the contents along ways, by the first block of each. Ways from the
/// same block are the same way.
#[derive(Drop)]
pub(crate) struct ContentTable {
    contents: [Option<Content>; BLOCKS],
}

/// The length and the digest of the data of blocks of the image, one after another.
fn digest_along(image: &Image, blocks: &[BlockNo]) -> Content
    requires held { LieIn image.now blocks.now }
    requires len { length blocks.now ≤ BLOCKS }
    ensures { result ≡ digested_content (data_along image.now blocks.now) }
{
    let mut hasher = Sha256::new();
    let mut bytes = 0;
    for block in blocks {
        let part = data_of(image.sector(*block));
        hasher.update(part);
        bytes += part.len();
    }
    Content {
        bytes,
        digest: hasher.finalize(),
    }
}

/// The length and the digest of the content along the way from a track and a sector, or None if
/// that isn't a whole chain.
fn digest_from(image: &Image, track: u8, sector: u8) -> Option<Content>
    ensures { result ≡ digested_along image.now (way image.now (track, sector)) }
{
    let mut blocks = BlockList::empty();
    let end = walk(image, track, sector, &mut blocks);
    if end.is_whole() {
        Some(digest_along(image, blocks.as_slice()))
    } else {
        None
    }
}

impl ContentTable {
    /// The empty table.
    pub(crate) fn empty(image: &Image) -> ContentTable
        ensures { RecordsContents image.now result.contents }
    {
        ContentTable {
            contents: [None; BLOCKS],
        }
    }

    /// The length and the digest of the content of a slot's file, or None if it has no content. It
    /// is computed only if it isn't kept for the file's first block.
    pub(crate) fn content(&mut self, image: &Image, entry: &Entry) -> Option<Content>
        requires { RecordsContents image.now self.old.contents }
        ensures content { result ≡ option_map digested_content (content_of image.now entry.now.bytes) }
        ensures kept { RecordsContents image.now self.new.contents }
    {
        match data_pair(entry) {
            Some((track, sector)) => self.content_from(image, track, sector),
            None => None,
        }
    }

    /// The length and the digest of the content along the way from a track and a sector.
    pub(crate) fn content_from(&mut self, image: &Image, track: u8, sector: u8) -> Option<Content>
        requires { RecordsContents image.now self.old.contents }
        ensures content { result ≡ digested_along image.now (way image.now (track, sector)) }
        ensures kept { RecordsContents image.now self.new.contents }
    {
        match block_in(image, track, sector) {
            Some(block) => match self.contents[block.index()] {
                Some(content) => Some(content),
                None => {
                    let content = digest_from(image, track, sector);
                    self.contents[block.index()] = content;
                    content
                }
            },
            None => None,
        }
    }
}
