//! The bench on which a call is made, and how the call ends.

use std::alloc::Global;
use std::fmt;

/// The bench on which a call is made: the runtime, and the name of the call with its arguments.
#[derive(Drop)]
pub struct Bench<'a> {
    rt: &'a HostRuntime,
    name: &'a str,
}

impl<'a> Bench<'a> {
    pub fn new(rt: &'a HostRuntime, name: &'a str) -> Bench<'a> {
        Bench { rt, name }
    }

    pub fn rt(&self) -> &'a HostRuntime {
        self.rt
    }

    pub fn alloc(&self) -> Global {
        self.rt.alloc()
    }

    /// Returns the name of the call, and its arguments.
    pub fn name_and_arguments(&self) -> (&'a str, &'a str) {
        match self.name.split_once(' ') {
            Some(parts) => parts,
            None => (self.name, ""),
        }
    }

    /// Prints the name of the call: all that it is lent was made. If that fails, the output is not
    /// the expected one.
    pub fn begin(&self) {
        let name = self.name;
        let _ = print!(self.rt; "{name}: ");
    }
}

/// How a call ended.
#[derive(Drop)]
pub enum End {
    /// It takes no memory, and returned what it should.
    Returned,
    /// It was accepted.
    Accepted,
    /// It made this many bytes.
    Made(usize),
    /// It changed this many blocks of an image.
    Changed(usize),
    /// It returned that memory ran out, and left all that it was lent as it should.
    OutOfMemory,
    /// It refused what it was given.
    Refused,
    /// Something is wrong after it.
    Wrong(&'static str),
}

impl End {
    /// Returns the end of a call that takes no memory, by whether it returned what it should.
    pub fn returned(is_right: bool) -> End {
        if is_right {
            End::Returned
        } else {
            End::Wrong("what it returned")
        }
    }

    /// Returns the end of a call that ran out of memory, by whether all is left as it should be.
    pub fn out_of_memory(is_left: bool, what: &'static str) -> End {
        if is_left {
            End::OutOfMemory
        } else {
            End::Wrong(what)
        }
    }
}

impl fmt::Display for End {
    fn fmt<W: fmt::Write>(&self, f: &mut fmt::Formatter<W>) -> fmt::Result {
        match self {
            End::Returned => write!(f, "returned"),
            End::Accepted => write!(f, "accepted"),
            End::Made(bytes) => write!(f, "made {bytes} bytes"),
            End::Changed(blocks) => write!(f, "changed {blocks} blocks"),
            End::OutOfMemory => write!(f, "out of memory"),
            End::Refused => write!(f, "refused"),
            End::Wrong(what) => write!(f, "WRONG: {what}"),
        }
    }
}
