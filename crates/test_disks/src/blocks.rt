//! The blocks of a disk, by track and sector and by their places.

use d64_image::BlockNo;

/// Returns how many sectors a track has, as the 1541 User's Guide lists them; tracks 36 to 40 have
/// as many as the last ones before them.
fn sectors_of_a_track(track: u8) -> u8 {
    match track {
        1..=17 => 21,
        18..=24 => 19,
        25..=30 => 18,
        31..=40 => 17,
        _ => 0,
    }
}

/// Blocks, and the place of each in an image.
const PLACES: [(u8, u8, usize); 5] = [
    (17, 0, 336),
    (18, 0, 357),
    (35, 16, 682),
    (36, 0, 683),
    (40, 16, 767),
];

/// Whether a pair of a track and a sector is the block at a place, and that block is this pair.
fn is_at(track: u8, sector: u8, index: usize) -> bool {
    match BlockNo::of(track, sector) {
        Some(block) => {
            BlockNo::at(index) == Some(block)
                && block.index() == index
                && (block.track(), block.sector()) == (track, sector)
        }
        None => false,
    }
}

/// Whether a pair is the block at a place, or no block if its track has no such sector.
fn is_as_counted(track: u8, sector: u8, count: usize) -> bool {
    if sector < sectors_of_a_track(track) {
        is_at(track, sector, count)
    } else {
        BlockNo::of(track, sector).is_none()
    }
}

#[test]
fn pairs_and_blocks_are_as_a_plain_count_has_them(rt: HostRuntime) {
    let mut count = 0;
    for pair in 0..65536_usize {
        let (track, sector) = ((pair / 256) as u8, (pair % 256) as u8);
        assert!(rt; is_as_counted(track, sector, count), "{pair}");
        if sector < sectors_of_a_track(track) {
            count = count.saturating_add(1);
        }
    }
    assert!(rt; count == 768 && BlockNo::at(count).is_none());
}

#[test]
fn blocks_are_at_their_places(rt: HostRuntime) {
    for row in &PLACES {
        assert!(rt; is_at(row.0, row.1, row.2), "{row:?}");
    }
}
