//! How many files a dump has.
ghost use Rattle.std.specs.Prelude.{◌≡◌, ◌+◌, ◌<◌, ◌&&◌, if◌then◌else◌, option_map};
ghost use Rattle.d64_image.specs.declared.block.TheConstants.{BLOCKS};
ghost use Rattle.d64_survey.specs.Inspection.{is_so, is_not_so, AreCounts};
ghost use Rattle.d64_survey.specs.WayFacts.{RecordsWays};

use crate::flaw_list::wholeness;
use crate::survey::Survey;
use crate::way_table::WayTable;

/// How many slots are used, how many of their files are whole, and how many are not.
#[derive(Clone, Copy)]
pub(crate) struct FileCounts {
    pub(crate) entries: usize,
    pub(crate) whole: usize,
    pub(crate) unwhole: usize,
}

impl FileCounts {
    /// Counts a slot.
    fn add(&mut self, is_used: bool, is_whole: Option<bool>)
        requires entries { self.old.entries < 100000000 }
        requires whole { self.old.whole < 100000000 }
        requires unwhole { self.old.unwhole < 100000000 }
        ensures entries { self.new.entries ≡ self.old.entries + (if is_used then 1 else 0) }
        ensures whole { self.new.whole ≡ self.old.whole + (if is_used && is_so is_whole then 1 else 0) }
        ensures unwhole { self.new.unwhole ≡ self.old.unwhole + (if is_used && is_not_so is_whole then 1 else 0) }
    {
        if !is_used {
            return;
        }
        self.entries += 1;
        match is_whole {
            Some(true) => self.whole += 1,
            Some(false) => self.unwhole += 1,
            None => {}
        }
    }
}

/// Counts the files of a dump, by its survey, its read codes and what is noted of its ways.
pub(crate) fn count_files(survey: &Survey, codes: Option<&[u8]>, ways: &WayTable) -> FileCounts
    requires { RecordsWays survey.now (option_map (λ codes. codes.now) codes) ways.now.ways }
    ensures { AreCounts (record { image = survey.now; codes = option_map (λ codes. codes.now) codes.entry }) result }
{
    let mut counts = FileCounts {
        entries: 0,
        whole: 0,
        unwhole: 0,
    };
    for entry in survey.slots() {
        let why = survey.why_along(codes, ways, &entry);
        counts.add(entry.used(), wholeness(&entry, why.as_slice()));
    }
    counts
}
