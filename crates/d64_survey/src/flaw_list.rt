//! The files of an image that are not whole, and why.
ghost use Rattle.std.specs.Prelude.{◌≡◌, ◌+◌, ◌<◌, ◌≤◌, ◌&&◌, not, ◌++◌, length, option_map};
ghost use Rattle.d64_survey.specs.Owners.{blocks_from};
ghost use Rattle.d64_survey.specs.SlotBlocks.{slot_blocks};
ghost use Rattle.d64_survey.specs.Flaws.{is_del_entry, is_geos, is_broken_from, is_broken, any_shared, any_unreadable, is_missized, where_flawed, why, wholeness_by};
ghost use Rattle.d64_survey.specs.WayFacts.{RecordsWays};

use crate::flaw::Flaw;
use crate::owner::{data_pair, side_pair};
use crate::survey::Survey;
use crate::way_table::WayTable;
use arrayvec::ArrayVec;
use d64_files::{Entry, Kind, block_in};
use d64_image::Image;

/// How many flaws there are.
pub const FLAWS: usize = 7;

/// What the ways of a file show.
#[derive(Drop)]
struct Sight {
    blocks: usize,
    is_broken: bool,
    is_shared: bool,
    is_unreadable: bool,
}

/// Whether the type byte of an entry has the number of DEL.
fn is_del(entry: &Entry) -> bool
    ensures { result ≡ is_del_entry entry.now.bytes }
{
    entry.type_byte() % 16 == 0
}

/// Whether a file is a GEOS file.
fn is_geos(image: &Image, entry: &Entry) -> bool
    ensures { result ≡ is_geos image.now entry.now.bytes }
{
    if !matches!(entry.kind(), Kind::Usr) {
        return false;
    }
    if entry.geos_type() == 0 {
        return false;
    }
    match entry.side_pair() {
        Some((track, sector)) => block_in(image, track, sector).is_some(),
        None => false,
    }
}

/// What the way from a pair shows, if there is one.
fn look_along(
    survey: &Survey,
    codes: Option<&[u8]>,
    ways: &WayTable,
    pair: Option<(u8, u8)>,
) -> Sight
    requires { RecordsWays survey.now (option_map (λ codes. codes.now) codes) ways.now.ways }
    ensures blocks { result.blocks ≡ length (blocks_from survey.now pair) }
    ensures few { result.blocks < 65536 }
    ensures broken { result.is_broken ≡ is_broken_from survey.now pair }
    ensures shared { result.is_shared ≡ any_shared survey.now (blocks_from survey.now pair) }
    ensures unreadable { result.is_unreadable ≡ any_unreadable (option_map (λ codes. codes.now) codes.entry) (blocks_from survey.now pair) }
{
    match pair {
        Some((track, sector)) => {
            let facts = ways.facts(survey, codes, track, sector);
            Sight {
                blocks: usize::from(facts.blocks),
                is_broken: !facts.end.is_whole(),
                is_shared: facts.is_shared,
                is_unreadable: facts.is_unreadable,
            }
        }
        None => Sight {
            blocks: 0,
            is_broken: false,
            is_shared: false,
            is_unreadable: false,
        },
    }
}

/// What the ways of a slot's file show.
fn look_at(survey: &Survey, codes: Option<&[u8]>, ways: &WayTable, entry: &Entry) -> Sight
    requires { RecordsWays survey.now (option_map (λ codes. codes.now) codes) ways.now.ways }
    ensures blocks { result.blocks ≡ length (slot_blocks survey.now entry.now.bytes) }
    ensures broken { result.is_broken ≡ is_broken survey.now entry.now.bytes }
    ensures shared { result.is_shared ≡ any_shared survey.now (slot_blocks survey.now entry.now.bytes) }
    ensures unreadable { result.is_unreadable ≡ any_unreadable (option_map (λ codes. codes.now) codes.entry) (slot_blocks survey.now entry.now.bytes) }
{
    let data = look_along(survey, codes, ways, data_pair(entry));
    let side = look_along(survey, codes, ways, side_pair(entry));
    Sight {
        blocks: data.blocks + side.blocks,
        is_broken: data.is_broken || side.is_broken,
        is_shared: data.is_shared || side.is_shared,
        is_unreadable: data.is_unreadable || side.is_unreadable,
    }
}

/// Whether the ways of a slot's file are whole chains, but not as long as the size in the
/// directory. It is false for a GEOS file.
fn is_missized(survey: &Survey, entry: &Entry, sight: &Sight, is_geos: bool) -> bool
    requires blocks { sight.now.blocks ≡ length (slot_blocks survey.now entry.now.bytes) }
    requires broken { sight.now.is_broken ≡ is_broken survey.now entry.now.bytes }
    ensures { result ≡ (not is_geos && is_missized survey.now entry.now.bytes) }
{
    if is_geos {
        return false;
    }
    match data_pair(entry) {
        Some(_) => !sight.is_broken && sight.blocks != usize::from(entry.blocks()),
        None => false,
    }
}

/// Appends a flaw if there is one.
fn flaw_if(list: &mut ArrayVec<Flaw, FLAWS>, flaw: Flaw, is_asked: bool)
    requires { length list.old.items < 7 }
    ensures list { list.new.items ≡ list.old.items ++ where_flawed is_asked flaw }
    ensures few { length list.new.items ≤ length list.old.items + 1 }
{
    if is_asked {
        list.push(flaw);
    }
}

impl Survey<'_> {
    /// Why the file of a slot is not whole, by the dump's read codes, if it has any. The list is
    /// empty for a DEL entry.
    pub fn why(&self, codes: Option<&[u8]>, entry: &Entry) -> ArrayVec<Flaw, FLAWS>
        ensures { result.items ≡ why self.now (option_map (λ codes. codes.now) codes.entry) entry.now.bytes }
    {
        self.why_along(codes, &WayTable::empty(), entry)
    }

    /// Why the file of a slot is not whole, by what is noted of ways.
    pub(crate) fn why_along(
        &self,
        codes: Option<&[u8]>,
        ways: &WayTable,
        entry: &Entry,
    ) -> ArrayVec<Flaw, FLAWS>
        requires { RecordsWays self.now (option_map (λ codes. codes.now) codes) ways.now.ways }
        ensures { result.items ≡ why self.now (option_map (λ codes. codes.now) codes.entry) entry.now.bytes }
    {
        let mut list = ArrayVec::new();
        if is_del(entry) {
            return list;
        }
        let sight = look_at(self, codes, ways, entry);
        let is_geos = is_geos(self.image(), entry);
        let is_missized = is_missized(self, entry, &sight, is_geos);
        flaw_if(&mut list, Flaw::Unclosed, !entry.closed());
        flaw_if(&mut list, Flaw::Kindless, !entry.has_kind());
        flaw_if(&mut list, Flaw::Broken, sight.is_broken);
        flaw_if(&mut list, Flaw::Shared, sight.is_shared);
        flaw_if(&mut list, Flaw::Unreadable, sight.is_unreadable);
        flaw_if(&mut list, Flaw::Missized, is_missized);
        flaw_if(&mut list, Flaw::Geos, is_geos);
        list
    }
}

/// Whether a file with these flaws is whole, or None if that isn't known: for a DEL entry, and for
/// a GEOS file without other flaws.
pub fn wholeness(entry: &Entry, flaws: &[Flaw]) -> Option<bool>
    ensures { result ≡ wholeness_by entry.now.bytes flaws.now }
{
    if is_del(entry) {
        return None;
    }
    match flaws.first() {
        None => Some(true),
        Some(Flaw::Geos) => None,
        Some(_) => Some(false),
    }
}
