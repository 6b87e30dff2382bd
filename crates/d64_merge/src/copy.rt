//! The copies of a block: each dump that has the block has one.
ghost use Rattle.std.specs.Prelude.{◌≡◌, ◌≤◌, length};
ghost use Rattle.d64_merge.specs.Copies.{has_block, known_code, is_good, has_bad_checksum, agree, good_count, votes, wins};

use d64_image::BlockNo;
use d64_survey::{Dump, code_of, is_read_error};

/// Whether a dump has a block.
pub fn has_block(dump: &Dump, block: BlockNo) -> bool
    ensures { result ≡ has_block block dump.now }
{
    dump.image().holds(block)
}

/// Returns the read code of a dump's copy of a block, or None if the dump has no codes or doesn't
/// have the block.
pub fn known_code(dump: &Dump, block: BlockNo) -> Option<u8>
    ensures { result ≡ known_code block dump.now }
{
    match dump.codes() {
        Some(codes) => codes.get(block.index()).copied(),
        None => None,
    }
}

/// Whether a dump has a block, and no read error for it.
pub(crate) fn is_good(dump: &Dump, block: BlockNo) -> bool
    ensures { result ≡ is_good block dump.now }
{
    has_block(dump, block) && !is_read_error(code_of(dump.codes(), block))
}

/// Whether a block's checksum was wrong when the dump was read: its read code is 5.
pub(crate) fn has_bad_checksum(dump: &Dump, block: BlockNo) -> bool
    ensures { result ≡ has_bad_checksum block dump.now }
{
    match known_code(dump, block) {
        Some(code) => code == 5,
        None => false,
    }
}

/// Whether the copies of a block in two dumps are good and equal.
fn agree(one: &Dump, other: &Dump, block: BlockNo) -> bool
    ensures { result ≡ agree block one.now other.now }
{
    is_good(one, block)
        && is_good(other, block)
        && other.image().has_bytes(block, one.image().sector(block))
}

/// Returns how many dumps have a good copy of a block.
pub(crate) fn good_count(dumps: &[Dump], block: BlockNo) -> usize
    ensures count { result ≡ good_count block dumps.now }
    ensures few { result ≤ length dumps.now }
{
    dumps.iter().filter(|dump| is_good(dump, block)).count()
}

/// Returns how many good copies of a block are equal to that of a dump, or 0 if that isn't good.
pub(crate) fn votes(dumps: &[Dump], dump: &Dump, block: BlockNo) -> usize
    ensures count { result ≡ votes block dumps.now dump.now }
    ensures few { result ≤ length dumps.now }
{
    dumps
        .iter()
        .filter(|other| agree(dump, other, block))
        .count()
}

/// Whether more than half of the good copies of a block are equal to that of a dump.
pub(crate) fn wins(dumps: &[Dump], dump: &Dump, block: BlockNo) -> bool
    ensures { result ≡ wins block dumps.now dump.now }
{
    good_count(dumps, block) < 2 * votes(dumps, dump, block)
}
