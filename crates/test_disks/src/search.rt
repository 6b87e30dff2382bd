//! The order in which free blocks are searched.

use d64_image::{BLOCKS, BLOCKS_OF_35, BlockNo, BlockSet};
use d64_map::{pick_dir, pick_first, pick_next};
use std::process::Abort;

/// Returns the blocks from one place up to another.
fn blocks_between(start: usize, end: usize) -> BlockSet {
    let mut blocks = BlockSet::empty();
    for index in start..end {
        if let Some(block) = BlockNo::at(index) {
            blocks.add(block);
        }
    }
    blocks
}

/// Returns all blocks of a disk of 35 tracks.
fn all_blocks() -> BlockSet {
    blocks_between(0, BLOCKS_OF_35)
}

/// What a block is searched for.
#[derive(Clone, Copy)]
enum Use {
    File,
    Directory,
}

/// Returns the block that is picked after another.
fn picked(free: &BlockSet, last: BlockNo, for_what: Use) -> Option<BlockNo> {
    match for_what {
        Use::File => pick_next(free, last),
        Use::Directory => pick_dir(free, last),
    }
}

/// Returns the track and the sector of a block, if there is one.
fn pair_of(block: Option<BlockNo>) -> Option<(u8, u8)> {
    let block = block?;
    Some((block.track(), block.sector()))
}

/// Returns the track and the sector at a place in the order of search among these blocks after a
/// block: the one that is picked once all before it are taken.
fn found(all: BlockSet, from: (u8, u8), place: usize, for_what: Use) -> Option<(u8, u8)> {
    let last = BlockNo::of(from.0, from.1)?;
    let mut free = all;
    for _ in 0..place {
        if let Some(block) = picked(&free, last, for_what) {
            free.remove(block);
        }
    }
    pair_of(picked(&free, last, for_what))
}

/// A block, a place in the order of search after it, and the track and the sector at that place.
type Searched = (u8, u8, usize, u8, u8);

/// On 35 tracks.
const NEXT: [Searched; 23] = [
    (17, 0, 0, 17, 10),
    (17, 0, 1, 17, 11),
    (17, 0, 11, 17, 0),
    (17, 0, 21, 16, 0),
    (17, 0, 357, 19, 0),
    (17, 0, 663, 35, 16),
    (18, 18, 0, 17, 0),
    (18, 18, 21, 19, 0),
    (18, 18, 40, 16, 0),
    (18, 18, 663, 35, 16),
    (19, 0, 0, 19, 10),
    (19, 0, 9, 19, 0),
    (19, 0, 19, 20, 0),
    (19, 0, 663, 1, 20),
    (1, 20, 0, 1, 8),
    (1, 20, 13, 1, 0),
    (1, 20, 21, 19, 0),
    (1, 20, 663, 2, 20),
    (35, 16, 0, 35, 8),
    (35, 16, 9, 35, 0),
    (35, 16, 17, 17, 0),
    (35, 16, 663, 34, 16),
    (1, 11, 0, 1, 0),
];

/// On 40 tracks.
const NEXT_OF_40: [Searched; 10] = [
    (17, 0, 663, 35, 16),
    (17, 0, 664, 36, 0),
    (17, 0, 748, 40, 16),
    (18, 18, 663, 35, 16),
    (18, 18, 664, 36, 0),
    (18, 18, 748, 40, 16),
    (35, 16, 17, 36, 0),
    (35, 16, 102, 17, 0),
    (36, 16, 85, 17, 0),
    (40, 16, 748, 39, 16),
];

/// On 35 tracks, for the directory.
const DIRECTORY: [Searched; 9] = [
    (18, 1, 0, 18, 4),
    (18, 1, 1, 18, 5),
    (18, 1, 15, 18, 0),
    (18, 1, 18, 18, 3),
    (18, 18, 0, 18, 1),
    (18, 18, 18, 18, 0),
    (18, 16, 0, 18, 0),
    (17, 3, 0, 18, 0),
    (17, 3, 18, 18, 18),
];

/// Checks that each block comes at its place among these blocks.
fn come_in_order(rt: &impl Abort, all: BlockSet, rows: &[Searched], for_what: Use) {
    for row in rows {
        assert!(rt;
            found(all, (row.0, row.1), row.2, for_what) == Some((row.3, row.4)),
            "{row:?}"
        );
    }
}

#[test]
fn next_blocks_come_in_the_written_order(rt: HostRuntime) {
    come_in_order(&rt, all_blocks(), &NEXT, Use::File);
    assert!(rt; found(all_blocks(), (17, 0), 664, Use::File).is_none());
}

#[test]
fn tracks_36_to_40_come_in_the_written_order(rt: HostRuntime) {
    let all = blocks_between(0, BLOCKS);
    come_in_order(&rt, all, &NEXT_OF_40, Use::File);
    assert!(rt; found(all, (17, 0), 749, Use::File).is_none());
}

#[test]
fn directory_blocks_come_in_the_written_order(rt: HostRuntime) {
    come_in_order(&rt, all_blocks(), &DIRECTORY, Use::Directory);
    assert!(rt; found(all_blocks(), (18, 1), 19, Use::Directory).is_none());
}

/// Returns the track and the sector of the first block that is picked.
fn first_of(free: &BlockSet) -> Option<(u8, u8)> {
    pair_of(pick_first(free))
}

#[test]
fn the_first_pick_is_the_nearest(rt: HostRuntime) {
    assert!(rt; first_of(&all_blocks()) == Some((17, 0)));
    assert!(rt; first_of(&blocks_between(BLOCKS_OF_35, BLOCKS)) == Some((36, 0)));
    assert!(rt; first_of(&BlockSet::empty()).is_none());
}
