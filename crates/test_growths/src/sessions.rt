//! Calls of sessions.

use crate::commands::{block_write, command_of};
use crate::disk::{PROGRAM, changed_blocks, disk, same, within, write};
use crate::end::{Bench, End};
use d64_dos::{Command, Refusal, Reply};
use d64_image::Image;
use d64_undo::{ReadNote, ResumeFault, Session, SessionReadFault};
use std::alloc::Global;
use std::test::Fail;

/// A session with three records that are done and one that is undone, beside another one like it.
#[derive(Drop)]
pub struct Beside {
    pub session: Session,
    twin: Session,
}

/// Runs a command on a session, whose image has the block that the command names.
fn make(session: &mut Session, command: Result<Command, Fail>) -> Result<(), Fail> {
    let command = command?;
    within(session.image(), &command)?;
    session.run(&command)?;
    Ok(())
}

/// Writes two blocks, then `P`, a BASIC program, and then `X`, which is undone. For a fifth record
/// the session's list has to grow.
fn play(alloc: Global, session: &mut Session) -> Result<(), Fail> {
    make(session, block_write(35, 0))?;
    make(session, block_write(35, 1))?;
    make(session, write(alloc, b"P", PROGRAM))?;
    make(session, write(alloc, b"X", &[7]))?;
    session.undo()?;
    Ok(())
}

/// Returns a session that began with the disk.
fn session(alloc: Global) -> Result<Session, Fail> {
    let mut session = Session::new(alloc, disk(alloc)?);
    play(alloc, &mut session)?;
    Ok(session)
}

impl Beside {
    pub fn new(alloc: Global) -> Result<Beside, Fail> {
        let twin = session(alloc)?;
        Ok(Beside {
            session: session(alloc)?,
            twin,
        })
    }

    /// Whether cursor and image of both are alike.
    fn is_alike(&self) -> bool {
        same(self.session.image(), self.twin.image())
            && (self.session.done(), self.session.undone())
                == (self.twin.done(), self.twin.undone())
    }

    /// Whether both can undo, and are alike then.
    fn undoes(&mut self) -> bool {
        self.session.undo().is_ok() && self.twin.undo().is_ok() && self.is_alike()
    }

    /// Whether both can redo, and are alike then.
    fn redoes(&mut self) -> bool {
        self.session.redo().is_ok() && self.twin.redo().is_ok() && self.is_alike()
    }

    /// Whether cursor, image and history are as they were at first. Goes one record back, and then
    /// to the end.
    pub fn is_as_it_was(&mut self) -> bool {
        (self.session.done(), self.session.undone()) == (3, 1)
            && self.is_alike()
            && self.undoes()
            && self.redoes()
            && self.redoes()
    }

    /// Whether one more record is done, and no undone one is left.
    fn has_one_more(&self) -> bool {
        (self.session.done(), self.session.undone()) == (4, 0)
    }

    /// Returns how a command ended, by its result.
    fn end_of(&mut self, outcome: Result<Reply, Refusal>) -> End {
        match outcome {
            Ok(_) if self.has_one_more() => {
                End::Changed(changed_blocks(self.session.image(), self.twin.image()))
            }
            Ok(_) => End::Wrong("there is not one record more"),
            Err(Refusal::Memory) => {
                End::out_of_memory(self.is_as_it_was(), "the session is not as it was")
            }
            Err(_) => End::Refused,
        }
    }

    /// Returns how a call ended that resumes the session's file.
    fn end_of_resumed(&mut self, resumed: Result<Session, SessionReadFault>) -> End {
        match resumed {
            Ok(session) => {
                self.session = session;
                if self.is_as_it_was() {
                    End::Accepted
                } else {
                    End::Wrong("the session is another one")
                }
            }
            Err(SessionReadFault::Resume(ResumeFault::Memory(_))) => End::OutOfMemory,
            Err(_) => End::Refused,
        }
    }
}

/// Runs the command with a name.
fn make_named(bench: &Bench, name: &str, beside: &mut Beside) -> Result<End, Fail> {
    let command = command_of(bench.alloc(), name)?;
    within(beside.session.image(), &command)?;
    bench.begin();
    let outcome = beside.session.run(&command);
    Ok(beside.end_of(outcome))
}

pub fn run(bench: &Bench, name: &str) -> Result<End, Fail> {
    make_named(bench, name, &mut Beside::new(bench.alloc())?)
}

/// Makes the file of a session.
pub fn keep(bench: &Bench) -> Result<End, Fail> {
    let mut beside = Beside::new(bench.alloc())?;
    bench.begin();
    Ok(match beside.session.keep(bench.alloc()) {
        Ok(file) => End::Made(file.len()),
        Err(_) => End::out_of_memory(beside.is_as_it_was(), "the session is not as it was"),
    })
}

/// Resumes the session of a file, all at once or as a reader gives it.
fn resume(alloc: Global, file: &[u8], is_read: bool) -> Result<Session, SessionReadFault> {
    let mut reader = file;
    if is_read {
        return d64_undo::resume_from(alloc, &mut reader, &mut ReadNote::new(), u32::MAX);
    }
    match d64_undo::resume(alloc, file) {
        Ok(session) => Ok(session),
        Err(fault) => Err(SessionReadFault::Resume(fault)),
    }
}

pub fn resumed(bench: &Bench, is_read: bool) -> Result<End, Fail> {
    let mut beside = Beside::new(bench.alloc())?;
    let file = beside.session.keep(bench.alloc())?;
    bench.begin();
    let resumed = resume(bench.alloc(), &file, is_read);
    Ok(beside.end_of_resumed(resumed))
}

/// Writes a block on a session that was just made from a blank image like the one beside it.
fn write_first(bench: &Bench, session: &mut Session, blank: &Image) -> Result<End, Fail> {
    let command = block_write(17, 0)?;
    within(session.image(), &command)?;
    bench.begin();
    Ok(match session.run(&command) {
        Ok(_) => End::Changed(changed_blocks(session.image(), blank)),
        Err(Refusal::Memory) => End::out_of_memory(
            same(session.image(), blank) && (session.done(), session.undone()) == (0, 0),
            "the session is not as it was",
        ),
        Err(_) => End::Refused,
    })
}

pub fn first_block_write(bench: &Bench) -> Result<End, Fail> {
    let blank = Image::zeroed(bench.alloc())?;
    let mut session = Session::new(bench.alloc(), blank.try_clone(bench.alloc())?);
    write_first(bench, &mut session, &blank)
}

/// Calls `new`, which takes no memory.
pub fn begun(bench: &Bench) -> Result<End, Fail> {
    let image = Image::zeroed(bench.alloc())?;
    bench.begin();
    let session = Session::new(bench.alloc(), image);
    Ok(End::returned((session.done(), session.undone()) == (0, 0)))
}

/// Calls `image`, `undo`, `redo`, `done`, `undone`, `record_len` and `record_at`, which take none.
pub fn without_memory(bench: &Bench) -> Result<End, Fail> {
    let mut beside = Beside::new(bench.alloc())?;
    bench.begin();
    Ok(End::returned(
        beside.session.record_len(2) == Some(3)
            && beside.session.record_at(2).is_some()
            && beside.session.record_at(4).is_none()
            && beside.is_as_it_was(),
    ))
}
