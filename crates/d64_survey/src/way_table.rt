//! What reports need of ways, found once for each block at which ways begin.
ghost use Rattle.std.specs.Prelude.{◌≡◌, ℕ, Option, None, option_map};
ghost use Rattle.d64_survey.specs.Way.{block_at};
ghost use Rattle.d64_survey.specs.Faults.{last_of};
ghost use Rattle.d64_survey.specs.Flaws.{any_shared};
ghost use Rattle.d64_survey.specs.WayFacts.{way_facts, noted_way, RecordsWays};

use crate::fault::LastBlock;
use crate::owner::{data_pair, side_pair};
use crate::read_error::any_unreadable;
use crate::survey::Survey;
use crate::walking::walk;
use crate::way_end::WayEnd;
use d64_files::{BlockList, block_in};
use d64_image::{BLOCKS, BlockNo, Image};

/// What reports need of a way.
#[derive(Clone, Copy)]
pub(crate) struct WayFacts {
    pub(crate) end: WayEnd,
    pub(crate) last: LastBlock,
    /// How many blocks it has.
    pub(crate) blocks: u16,
    /// Whether one of them has more than one owner.
    pub(crate) is_shared: bool,
    /// Whether one of them has a read error.
    pub(crate) is_unreadable: bool,
}

/// What was found of the ways of an image, by the first block of each. Ways from the same block are
/// the same way.
#[derive(Drop)]
pub(crate) struct WayTable {
    ways: [Option<WayFacts>; BLOCKS],
}

/// The last of the blocks of a way.
pub(crate) fn last_of(blocks: &[BlockNo]) -> LastBlock
    ensures { result ≡ last_of blocks.now }
{
    match blocks.last() {
        Some(block) => LastBlock::Block(*block),
        None => LastBlock::Missing,
    }
}

/// Whether one of the blocks has more than one owner.
fn any_shared(survey: &Survey, blocks: &[BlockNo]) -> bool
    ensures { result ≡ any_shared survey.now blocks.now }
{
    blocks.iter().any(|block| survey.is_shared(*block))
}

/// Walks the way from a track and a sector, and returns what it shows.
fn look_along(survey: &Survey, codes: Option<&[u8]>, track: u8, sector: u8) -> WayFacts
    ensures { result ≡ way_facts survey.now (option_map (λ codes. codes.now) codes.entry) (track, sector) }
{
    let mut list = BlockList::empty();
    let end = walk(survey.image(), track, sector, &mut list);
    let blocks = list.as_slice();
    WayFacts {
        end,
        last: last_of(blocks),
        blocks: blocks.len() as u16,
        is_shared: any_shared(survey, blocks),
        is_unreadable: any_unreadable(codes, blocks),
    }
}

impl WayTable {
    /// The table in which no way is noted.
    pub(crate) fn empty() -> WayTable
        ensures { (block : Option ℕ) → noted_way result.ways block ≡ None }
    {
        WayTable {
            ways: [None; BLOCKS],
        }
    }

    /// What the ways of all slots of a survey show, by the dump's read codes, if it has any. It
    /// walks the way from a block once.
    pub(crate) fn of(survey: &Survey, codes: Option<&[u8]>) -> WayTable
        ensures { RecordsWays survey.now (option_map (λ codes. codes.now) codes.entry) result.ways }
    {
        let mut ways = WayTable::empty();
        for entry in survey.slots() {
            ways.note(survey, codes, data_pair(&entry));
            ways.note(survey, codes, side_pair(&entry));
        }
        ways
    }

    /// What is noted of the way from a track and a sector.
    fn noted(&self, image: &Image, track: u8, sector: u8) -> Option<WayFacts>
        ensures { result ≡ noted_way self.now.ways (block_at image.now (track, sector)) }
    {
        match block_in(image, track, sector) {
            Some(block) => self.ways[block.index()],
            None => None,
        }
    }

    /// Notes what the way from a pair shows, if there is a pair whose way isn't noted yet.
    fn note(&mut self, survey: &Survey, codes: Option<&[u8]>, pair: Option<(u8, u8)>)
        requires { RecordsWays survey.now (option_map (λ codes. codes.now) codes) self.old.ways }
        ensures { RecordsWays survey.now (option_map (λ codes. codes.now) codes.entry) self.new.ways }
    {
        match pair {
            Some((track, sector)) => self.note_from(survey, codes, track, sector),
            None => {}
        }
    }

    /// Notes what the way from a track and a sector shows, if the image has such a block whose way
    /// isn't noted yet.
    fn note_from(&mut self, survey: &Survey, codes: Option<&[u8]>, track: u8, sector: u8)
        requires { RecordsWays survey.now (option_map (λ codes. codes.now) codes) self.old.ways }
        ensures { RecordsWays survey.now (option_map (λ codes. codes.now) codes.entry) self.new.ways }
    {
        match block_in(survey.image(), track, sector) {
            Some(block) => {
                if self.ways[block.index()].is_none() {
                    let facts = look_along(survey, codes, track, sector);
                    self.ways[block.index()] = Some(facts);
                }
            }
            None => {}
        }
    }

    /// What the way from a track and a sector shows. It is walked only if that isn't noted.
    pub(crate) fn facts(
        &self,
        survey: &Survey,
        codes: Option<&[u8]>,
        track: u8,
        sector: u8,
    ) -> WayFacts
        requires { RecordsWays survey.now (option_map (λ codes. codes.now) codes) self.now.ways }
        ensures { result ≡ way_facts survey.now (option_map (λ codes. codes.now) codes.entry) (track, sector) }
    {
        match self.noted(survey.image(), track, sector) {
            Some(facts) => facts,
            None => look_along(survey, codes, track, sector),
        }
    }
}
