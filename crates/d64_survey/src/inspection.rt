//! The inspection of a dump: its survey, its faults and read errors, its doubts, and how many files
//! are whole.
ghost use Rattle.std.specs.Prelude.{◌≡◌, nat_lt, not, length, option_map, IfOk};
ghost use Rattle.d64_survey.specs.Way.{way};
ghost use Rattle.d64_survey.specs.Owners.{pair_of, unowned_count};
ghost use Rattle.d64_survey.specs.Flaws.{why};
ghost use Rattle.d64_survey.specs.ReadErrors.{read_errors};
ghost use Rattle.d64_survey.specs.Faults.{faults as faults_of};
ghost use Rattle.d64_survey.specs.Doubts.{doubts as doubts_of};
ghost use Rattle.d64_survey.specs.Inspection.{entry_count, whole_count, unwhole_count, is_sound as is_sound_in, is_amiss as is_amiss_in};

use crate::doubt::Doubt;
use crate::doubt_list::DOUBTS;
use crate::dump::Dump;
use crate::fault::Fault;
use crate::file_count::{FileCounts, count_files};
use crate::flaw::Flaw;
use crate::flaw_list::FLAWS;
use crate::owner::{Part, pair_of};
use crate::read_error::ReadError;
use crate::survey::Survey;
use crate::way_table::WayTable;
use arrayvec::ArrayVec;
use d64_files::Entry;
use d64_image::Image;
use std::alloc::AllocError;
use std::marker::Model;

/// All that is reported about a dump: its survey, its read codes, and in lists and numbers what is
/// wrong with it. The lists are the caller's, which another inspection fills again.
///
/// In clauses it is the dump itself.
#[derive(Drop)]
pub struct Inspection<'a> {
    survey: Survey<'a>,
    codes: Option<&'a [u8]>,
    ways: WayTable,
    listed_faults: &'a [Fault],
    listed_errors: &'a [ReadError],
    files: FileCounts,
    unowned: usize,
    listed_doubts: ArrayVec<Doubt, DOUBTS>,
}

impl<'a> Model for Inspection<'a> {
    ghost use Rattle.std.specs.Prelude.{◌≡◌, option_map};
    ghost use Rattle.d64_survey.specs.Dump.{DumpView};
    ghost use Rattle.d64_survey.specs.Faults.{faults};
    ghost use Rattle.d64_survey.specs.Doubts.{doubts};
    ghost use Rattle.d64_survey.specs.Owners.{unowned_count};
    ghost use Rattle.d64_survey.specs.ReadErrors.{read_errors};
    ghost use Rattle.d64_survey.specs.Inspection.{AreCounts};
    ghost use Rattle.d64_survey.specs.WayFacts.{RecordsWays};

    ghost Value = { DumpView };

    ghost view = { λ all. record { image = all.survey; codes = option_map (λ codes. codes.now) all.codes } };

    ghost invariant = { λ all. (all.listed_faults.now ≡ faults all.survey)
        × (all.listed_errors.now ≡ read_errors (record { image = all.survey; codes = option_map (λ codes. codes.now) all.codes }))
        × AreCounts (record { image = all.survey; codes = option_map (λ codes. codes.now) all.codes }) all.files
        × (all.unowned ≡ unowned_count all.survey) × (all.listed_doubts.items ≡ doubts all.survey) × RecordsWays all.survey (option_map (λ codes. codes.now) all.codes) all.ways.ways };
}

impl<'a> Inspection<'a> {
    /// Inspects a dump. It replaces what the two lists had, and only they allocate.
    pub fn of(
        dump: &'a Dump,
        faults: &'a mut Vec<Fault>,
        errors: &'a mut Vec<ReadError>,
    ) -> Result<Inspection<'a>, AllocError>
        ensures { IfOk result (λ all. all ≡ dump.now) }
    {
        let survey = Survey::of(dump.image());
        let codes = dump.codes();
        let ways = WayTable::of(&survey, codes);
        survey.list_faults_along(codes, &ways, faults)?;
        dump.list_read_errors(errors)?;
        let files = count_files(&survey, codes, &ways);
        let unowned = survey.unowned();
        let doubts = survey.doubts();
        Ok(Inspection {
            survey,
            codes,
            ways,
            listed_faults: faults.as_slice(),
            listed_errors: errors.as_slice(),
            files,
            unowned,
            listed_doubts: doubts,
        })
    }

    /// The survey of the image.
    pub fn survey(&self) -> &Survey<'a>
        ensures { result.now ≡ self.now.image }
    {
        &self.survey
    }

    /// The image.
    pub fn image(&self) -> &'a Image
        ensures { result.now ≡ self.now.image }
    {
        self.survey.image()
    }

    /// The read codes, one for each block of the image, or None if there are none.
    pub fn codes(&self) -> Option<&'a [u8]>
        ensures { option_map (λ codes. codes.now) result ≡ self.now.codes }
    {
        self.codes
    }

    /// The faults of the image, by the numbers of their conditions.
    pub fn faults(&self) -> &'a [Fault]
        ensures { result.now ≡ faults_of self.now.image }
    {
        self.listed_faults
    }

    /// The blocks with a read error, ascending.
    pub fn read_errors(&self) -> &'a [ReadError]
        ensures { result.now ≡ read_errors self.now }
    {
        self.listed_errors
    }

    /// How many slots of the directory's way are used.
    pub fn entries(&self) -> usize
        ensures { result ≡ entry_count self.now.image }
    {
        self.files.entries
    }

    /// How many files are whole.
    pub fn whole(&self) -> usize
        ensures { result ≡ whole_count self.now }
    {
        self.files.whole
    }

    /// How many files aren't whole. A file of which that isn't known is counted neither here nor as
    /// whole.
    pub fn unwhole(&self) -> usize
        ensures { result ≡ unwhole_count self.now }
    {
        self.files.unwhole
    }

    /// Why the file of a slot is not whole. The list is empty for a DEL entry.
    pub fn why(&self, entry: &Entry) -> ArrayVec<Flaw, FLAWS>
        ensures { result.items ≡ why self.now.image self.now.codes entry.now.bytes }
    {
        self.survey.why_along(self.codes, &self.ways, entry)
    }

    /// How many blocks the way of a part of a slot's file has, or None if the slot has no such
    /// part.
    pub fn way_length(&self, entry: &Entry, part: Part) -> Option<usize>
        ensures { result ≡ option_map (λ pair. length (way self.now.image pair).0) (pair_of part entry.now.bytes) }
    {
        match pair_of(part, entry) {
            Some((track, sector)) => {
                let facts = self.ways.facts(&self.survey, self.codes, track, sector);
                Some(usize::from(facts.blocks))
            }
            None => None,
        }
    }

    /// How many blocks have no owner though the map doesn't mark them free.
    pub fn unowned(&self) -> usize
        ensures { result ≡ unowned_count self.now.image }
    {
        self.unowned
    }

    /// The reasons to doubt the image, in order.
    pub fn doubts(&self) -> &[Doubt]
        ensures { result.now ≡ doubts_of self.now.image }
    {
        self.listed_doubts.as_slice()
    }

    /// Whether the image has no fault.
    pub fn is_sound(&self) -> bool
        ensures { result ≡ is_sound_in self.now.image }
    {
        self.listed_faults.is_empty()
    }

    /// Whether there is a fault, a read error, a file that isn't whole or a doubt.
    pub fn is_amiss(&self) -> bool
        ensures { result ≡ is_amiss_in self.now }
    {
        if !self.is_sound() {
            return true;
        }
        if !self.listed_errors.is_empty() {
            return true;
        }
        if self.files.unwhole > 0 {
            return true;
        }
        !self.listed_doubts.is_empty()
    }
}
