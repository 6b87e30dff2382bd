//! The faults of an image, listed.
ghost use Rattle.std.specs.Prelude.{◌≡◌, ◌++◌, OnOk, option_map};
ghost use Rattle.d64_survey.specs.Faults.{count_faults, directory_faults, kind_faults, part_fault, file_faults, shared_faults, free_faults, faults as faults_of};
ghost use Rattle.d64_survey.specs.WayFacts.{RecordsWays};
ghost use Rattle.d64_survey.specs.declared.owner.Part.TheVariants.{Data, Side};

use crate::fault::Fault;
use crate::owner::{Part, pair_of};
use crate::pushing::push_if;
use crate::survey::Survey;
use crate::way_table::{WayTable, last_of};
use d64_files::Entry;
use d64_image::{BlockNo, Image};
use d64_map::{free_count, free_on, free_set};
use std::alloc::AllocError;

/// Lists the tracks whose count byte isn't the number of their sectors that the map marks free.
fn list_counts(image: &Image, faults: &mut Vec<Fault>) -> Result<(), AllocError>
    ensures { OnOk result (faults.new.items ≡ faults.old.items ++ count_faults image.now) }
{
    for track in image.each_track() {
        let count = free_count(image, track);
        let marked = free_on(image, track);
        let fault = Fault::WrongCount(track.number(), count, marked);
        push_if(faults, fault, count != marked)?;
    }
    Ok(())
}

/// Lists the directory, if its way isn't a whole chain.
fn list_directory(survey: &Survey, faults: &mut Vec<Fault>) -> Result<(), AllocError>
    ensures { OnOk result (faults.new.items ≡ faults.old.items ++ directory_faults survey.now) }
{
    let end = survey.directory_end();
    let fault = Fault::BrokenDirectory(last_of(survey.directory()), end);
    push_if(faults, fault, !end.is_whole())
}

/// Lists the slots whose type byte has no kind.
fn list_kinds(survey: &Survey, faults: &mut Vec<Fault>) -> Result<(), AllocError>
    ensures { OnOk result (faults.new.items ≡ faults.old.items ++ kind_faults survey.now) }
{
    for entry in survey.slots() {
        let fault = Fault::UnknownKind(entry.slot(), entry.type_byte());
        push_if(faults, fault, !entry.has_kind())?;
    }
    Ok(())
}

/// Lists the way of a part of a slot's file, if there is one and it isn't a whole chain.
fn list_way(
    survey: &Survey,
    codes: Option<&[u8]>,
    ways: &WayTable,
    entry: &Entry,
    part: Part,
    faults: &mut Vec<Fault>,
) -> Result<(), AllocError>
    requires { RecordsWays survey.now (option_map (λ codes. codes.now) codes) ways.now.ways }
    ensures { OnOk result (faults.new.items ≡ faults.old.items ++ part_fault survey.now (entry.now.slot, entry.now.bytes) part) }
{
    match pair_of(part, entry) {
        Some((track, sector)) => {
            let facts = ways.facts(survey, codes, track, sector);
            let fault = Fault::BrokenFile(entry.slot(), part, facts.last, facts.end);
            push_if(faults, fault, !facts.end.is_whole())
        }
        None => Ok(()),
    }
}

/// Lists the parts of a slot's file whose ways aren't whole chains.
fn list_file(
    survey: &Survey,
    codes: Option<&[u8]>,
    ways: &WayTable,
    entry: &Entry,
    faults: &mut Vec<Fault>,
) -> Result<(), AllocError>
    requires { RecordsWays survey.now (option_map (λ codes. codes.now) codes) ways.now.ways }
    ensures { OnOk result (faults.new.items ≡ faults.old.items ++ (part_fault survey.now (entry.now.slot, entry.now.bytes) Data ++ part_fault survey.now (entry.now.slot, entry.now.bytes) Side)) }
{
    list_way(survey, codes, ways, entry, Part::Data, faults)?;
    list_way(survey, codes, ways, entry, Part::Side, faults)
}

/// Lists the parts of files whose ways aren't whole chains.
fn list_files(
    survey: &Survey,
    codes: Option<&[u8]>,
    ways: &WayTable,
    faults: &mut Vec<Fault>,
) -> Result<(), AllocError>
    requires { RecordsWays survey.now (option_map (λ codes. codes.now) codes) ways.now.ways }
    ensures { OnOk result (faults.new.items ≡ faults.old.items ++ file_faults survey.now) }
{
    for entry in survey.slots() {
        list_file(survey, codes, ways, &entry, faults)?;
    }
    Ok(())
}

/// Lists the blocks with more than one owner.
fn list_shared(survey: &Survey, faults: &mut Vec<Fault>) -> Result<(), AllocError>
    ensures { OnOk result (faults.new.items ≡ faults.old.items ++ shared_faults survey.now) }
{
    for block in BlockNo::all() {
        push_if(faults, Fault::Shared(block), survey.is_shared(block))?;
    }
    Ok(())
}

/// Lists the blocks that have an owner and that the map marks free.
fn list_free(survey: &Survey, faults: &mut Vec<Fault>) -> Result<(), AllocError>
    ensures { OnOk result (faults.new.items ≡ faults.old.items ++ free_faults survey.now) }
{
    let free = free_set(survey.image());
    for block in BlockNo::all() {
        let is_fault = survey.is_owned(block) && free.has(block);
        push_if(faults, Fault::MarkedFree(block), is_fault)?;
    }
    Ok(())
}

impl Survey<'_> {
    /// Replaces the list by the faults of the image, by the numbers of their conditions. Within a
    /// number tracks, slots and blocks rise, and a slot's data comes before its side blocks. Only
    /// the list allocates.
    pub fn list_faults(&self, faults: &mut Vec<Fault>) -> Result<(), AllocError>
        ensures { OnOk result (faults.new.items ≡ faults_of self.now) }
    {
        let ways = WayTable::of(self, None);
        self.list_faults_along(None, &ways, faults)
    }

    /// Lists the faults of the image, by what is noted of its ways.
    pub(crate) fn list_faults_along(
        &self,
        codes: Option<&[u8]>,
        ways: &WayTable,
        faults: &mut Vec<Fault>,
    ) -> Result<(), AllocError>
        requires { RecordsWays self.now (option_map (λ codes. codes.now) codes) ways.now.ways }
        ensures { OnOk result (faults.new.items ≡ faults_of self.now) }
    {
        faults.clear();
        list_counts(self.image(), faults)?;
        list_directory(self, faults)?;
        list_kinds(self, faults)?;
        list_files(self, codes, ways, faults)?;
        list_shared(self, faults)?;
        list_free(self, faults)?;
        Ok(())
    }
}
