//! Playing the steps of a case.

use crate::call::{Call, Ending, place_count};
use crate::differences::Differences;
use crate::streams::{Bounded, Pieces, Reads};
use d64_image::{BlockNo, Image};
use d64_shell::{FolderHost, Host, MemoryHost, Session, program, run};
use std::alloc::{AllocError, Global};
use std::fs;
use std::os::fd::AsFd;
use std::rt::Files;
use test_cases::{Action, CaseFault, Run, Step, Unread, WhenFull};

/// The most bytes that the shell may ask for in one read of a script, and the most reads.
const READ_BYTES: usize = 4096;

const READS: u64 = 1_000_000;

/// The result of a call.
#[derive(Drop)]
struct Came {
    output: Bounded,
    faults: Bounded,
    ending: Ending,
    requests: Reads,
}

/// The place of a case: a session, and a host in memory or over the current folder.
#[derive(Drop)]
pub struct Scene<'r, R> {
    rt: &'r R,
    in_folder: bool,
    host: MemoryHost,
    session: Session,
}

impl<'r, R: Files + AllocGlobal> Scene<'r, R>
where
    R::File: AsFd,
{
    /// Returns a blank image, and a host in memory without files.
    fn new(rt: &'r R) -> Result<Scene<'r, R>, AllocError> {
        Ok(Scene {
            rt,
            in_folder: false,
            host: MemoryHost::new(rt.alloc()),
            session: Session::new(rt.alloc(), Image::zeroed(rt.alloc())?),
        })
    }

    /// Plays a step, with `at_most` bytes a read, and a stream that fails anywhere failing after
    /// `place` bytes.
    fn play(
        &mut self,
        step: &Step,
        at_most: usize,
        place: usize,
        differences: &mut Differences,
    ) -> Result<(), CaseFault> {
        match &step.action {
            Action::Run { run } => {
                self.make_call(step.line, Call::first(run, at_most, place), differences)?;
                match Call::second(run, at_most, place) {
                    Some(call) => self.make_call(step.line, call, differences),
                    None => Ok(()),
                }
            }
            Action::OnTheFolder
            | Action::Image { .. }
            | Action::Put { .. }
            | Action::Change { .. }
            | Action::FailAt { .. } => self.prepare(&step.action),
            Action::File { .. }
            | Action::FileIsImage { .. }
            | Action::NoFile { .. }
            | Action::Block { .. }
            | Action::Records { .. } => self.look(step, differences),
        }
    }

    /// Does what comes before a script.
    fn prepare(&mut self, action: &Action) -> Result<(), CaseFault> {
        match action {
            Action::OnTheFolder => self.in_folder = true,
            Action::Image { bytes } => {
                let Ok(image) = Image::from_bytes(self.rt.alloc(), bytes.as_slice()) else {
                    return Err(CaseFault::NoImage(bytes.len()));
                };
                self.session = Session::new(self.rt.alloc(), image);
            }
            Action::Put { name, bytes } => self.host.put(name.as_str(), bytes.as_slice())?,
            Action::Change { name, place, bytes } => {
                self.change(name.as_str(), *place, bytes.as_slice())?;
            }
            Action::FailAt { call } => self.host.fail_at(*call as u64),
            _ => {}
        }
        Ok(())
    }

    /// Gives a host file these bytes from a place on.
    fn change(&mut self, name: &str, place: usize, bytes: &[u8]) -> Result<(), CaseFault> {
        let Some(old) = self.file(name)? else {
            return Err(CaseFault::MissingFile(String::from_str(self.rt.alloc(), name)?));
        };
        let mut new = Vec::from_slice(self.rt.alloc(), up_to(old.as_slice(), place))?;
        new.extend_from_slice(bytes)?;
        new.extend_from_slice(from(old.as_slice(), new.len()))?;
        Ok(self.host.put(name, new.as_slice())?)
    }

    /// Returns the bytes of a host file, if there is one.
    fn file(&self, name: &str) -> Result<Option<Vec<u8>>, AllocError> {
        if self.in_folder {
            return Ok(fs::read(self.rt, name).ok());
        }
        match self.host.file(name) {
            Some(bytes) => Ok(Some(Vec::from_slice(self.rt.alloc(), bytes)?)),
            None => Ok(None),
        }
    }

    /// Checks a host file, a block or the records.
    fn look(&self, step: &Step, differences: &mut Differences) -> Result<(), CaseFault> {
        match &step.action {
            Action::File { name, bytes } => {
                self.look_at_file(
                    step.line,
                    name.as_str(),
                    Some(bytes.as_slice()),
                    differences,
                )
            }
            Action::FileIsImage { name } => {
                let image = self.session.image().bytes();
                self.look_at_file(step.line, name.as_str(), Some(image), differences)
            }
            Action::NoFile { name } => {
                self.look_at_file(step.line, name.as_str(), None, differences)
            }
            Action::Block {
                track,
                sector,
                place,
                bytes,
            } => {
                let Some(block) = BlockNo::of(*track, *sector) else {
                    return Err(CaseFault::NoBlock);
                };
                let image = self.session.image();
                if !image.holds(block) {
                    return Err(CaseFault::NoBlock);
                }
                let found = from(image.sector(block).as_slice(), *place);
                let found = up_to(found, bytes.len());
                Ok(differences.look_at_bytes(step.line, "block", found, bytes.as_slice())?)
            }
            Action::Records { done, undone } => self.look_at_records(
                step.line,
                *done,
                *undone,
                differences,
            ),
            _ => Ok(()),
        }
    }

    /// Checks whether a host file has these bytes, or whether there is no such file.
    fn look_at_file(
        &self,
        line: usize,
        name: &str,
        wanted: Option<&[u8]>,
        differences: &mut Differences,
    ) -> Result<(), CaseFault> {
        let found = self.file(name)?;
        match (found, wanted) {
            (Some(found), Some(wanted)) => {
                differences.look_at_bytes(line, name, found.as_slice(), wanted)?;
            }
            (None, Some(_)) => differences.add(line, name, "no file", "a file")?,
            (Some(_), None) => differences.add(line, name, "a file", "no file")?,
            (None, None) => {}
        }
        Ok(())
    }

    /// Checks how many records are before and after the cursor.
    fn look_at_records(
        &self,
        line: usize,
        done: usize,
        undone: usize,
        differences: &mut Differences,
    ) -> Result<(), CaseFault> {
        let found = (self.session.done(), self.session.undone());
        Ok(differences.look_at_values(line, "records", &found, &(done, undone))?)
    }

    /// Makes a call, and checks its result.
    fn make_call(
        &mut self,
        line: usize,
        call: Call<'_>,
        differences: &mut Differences,
    ) -> Result<(), CaseFault> {
        let came = if self.in_folder {
            let mut host = FolderHost::new(self.rt);
            came_of(self.rt.alloc(), &call, &mut host, &mut self.session)?
        } else {
            came_of(self.rt.alloc(), &call, &mut self.host, &mut self.session)?
        };
        came.look(line, &call, differences)
    }
}

/// Makes a call on this host and this session.
fn came_of<H: Host>(
    alloc: Global,
    call: &Call<'_>,
    host: &mut H,
    session: &mut Session,
) -> Result<Came, AllocError> {
    let mut reader = Pieces::of(call.given, call.at_most, call.reader_fails);
    let mut output = Bounded::with_limit(alloc, call.limit, call.when_full, call.fails_at_flush);
    let mut faults = Bounded::with_limit(alloc, call.faults_limit, WhenFull::TakesNothing, false);
    let ending = match call.arguments {
        Some(arguments) => {
            let arguments: Vec<&str> = arguments.iter().map(|it| it.as_str()).collect(alloc)?;
            let arguments = arguments.as_slice();
            Ending::Status(program(
                alloc,
                arguments,
                &mut reader,
                &mut output,
                &mut faults,
                host,
            ))
        }
        None => Ending::from(run(alloc, &mut reader, &mut output, host, "", session)),
    };
    Ok(Came {
        output,
        faults,
        ending,
        requests: reader.requests(),
    })
}

impl Came {
    /// Checks the output, the faults, the ending, and how the reader was used.
    fn look(
        &self,
        line: usize,
        call: &Call<'_>,
        differences: &mut Differences,
    ) -> Result<(), CaseFault> {
        differences.look_at_lines(line, "printed", self.output.written(), call.responses)?;
        let faults = up_to(call.faults, call.faults_limit);
        differences.look_at_lines(line, "faults", self.faults.written(), faults)?;
        differences.look_at_values(line, "ending", &self.ending, &call.ending)?;
        let within = Reads {
            reads: self.requests.reads.min(READS),
            most: self.requests.most.min(READ_BYTES),
            after_end: false,
        };
        Ok(differences.look_at_values(line, "reads", &self.requests, &within)?)
    }
}

/// Plays a case, with `at_most` bytes a read, and a stream that fails anywhere failing after
/// `place` bytes.
fn play_once<R: Files + AllocGlobal>(
    rt: &R,
    steps: &[Step],
    at_most: usize,
    place: usize,
) -> Result<Differences, Unread>
where
    R::File: AsFd,
{
    let mut differences = Differences::none(rt.alloc());
    let mut scene = Scene::new(rt)?;
    for step in steps {
        match scene.play(step, at_most, place, &mut differences) {
            Ok(()) => {}
            Err(fault) => {
                return Err(Unread {
                    line: step.line,
                    fault,
                });
            }
        }
    }
    Ok(differences)
}

/// Plays a case with `at_most` bytes a read, once for each place at which a stream is to fail, up
/// to the first that finds differences.
fn play_places<R: Files + AllocGlobal>(
    rt: &R,
    steps: &[Step],
    at_most: usize,
) -> Result<Differences, Unread>
where
    R::File: AsFd,
{
    for place in 0..places_of(steps) {
        let differences = play_once(rt, steps, at_most, place)?;
        if differences.is_any() {
            return Ok(differences);
        }
    }
    Ok(Differences::none(rt.alloc()))
}

/// Plays a case with reads of 1, of 7 and of 4,096 bytes, or of as many as it says, up to the first
/// that finds differences.
pub fn play<R: Files + AllocGlobal>(rt: &R, steps: &[Step]) -> Result<Differences, Unread>
where
    R::File: AsFd,
{
    let cuts: &[usize] = if says_reads(steps) {
        &[READ_BYTES]
    } else {
        &[1, 7, READ_BYTES]
    };
    for at_most in cuts {
        let differences = play_places(rt, steps, *at_most)?;
        if differences.is_any() {
            return Ok(differences);
        }
    }
    Ok(Differences::none(rt.alloc()))
}

/// Returns the run of a step, if it is one.
fn run_of(step: &Step) -> Option<&Run> {
    match &step.action {
        Action::Run { run } => Some(run),
        _ => None,
    }
}

/// Whether a case says how many bytes a read gives.
fn says_reads(steps: &[Step]) -> bool {
    steps.iter().any(|step| run_of(step).is_some_and(|run| run.options.at_most.is_some()))
}

/// Returns how often a case is played, once for each place at which a stream is to fail.
fn places_of(steps: &[Step]) -> usize {
    let mut count = 1;
    for step in steps {
        count = count.max(run_of(step).map_or(1, place_count));
    }
    count
}

fn up_to(bytes: &[u8], count: usize) -> &[u8] {
    bytes.get(..count).unwrap_or(bytes)
}

fn from(bytes: &[u8], count: usize) -> &[u8] {
    bytes.get(count..).unwrap_or(&[])
}
