//! `Observer`: what is called when a script begins, at each line and at its end.

use d64_image::Image;
use d64_undo::Session;
use host_storage::HostFault;
use script_lines::Status;
use script_text::held_line::HeldLine;

/// The effect of a refused line on its script.
#[derive(Clone, Copy, PartialEq, Eq)]
pub enum Refusals {
    /// The script goes on with the next line.
    GoOn,
    /// The script ends: what follows doesn't run.
    Stop,
}

/// What a session begins with, as an observer sees it.
#[derive(Clone, Copy)]
pub struct Opening<'n> {
    /// The name of the host file in which `save` stores by default, if there is one.
    pub home: Option<&'n str>,
    /// The name of the host file that has the first image, as an image or in a session, if one has.
    pub held_in: Option<&'n str>,
    /// Whether the script is an argument of the program.
    pub is_given: bool,
    /// The effect of a refused line.
    pub refusals: Refusals,
}

/// Observes a session: how it begins, the status of each line, and how it ends. The run is the same
/// with every observer.
pub trait Observer {
    /// No session begins with the file of this name: it has these bytes, as many as no image has,
    /// or it can't be read.
    fn miss(&mut self, name: &str, contents: Result<&[u8], HostFault>);

    /// The session begins.
    fn begin(&mut self, opening: &Opening<'_>, session: &Session);

    /// More of the script is read next, while this is the present image.
    fn wait(&mut self, image: &Image);

    /// These bytes of a line were read, after those before. Its line feed is not among them.
    fn take(&mut self, bytes: &[u8]);

    /// The script was read to its end. Its last line may still run.
    fn reach_end(&mut self);

    /// A line was skipped.
    fn skip(&mut self);

    /// Whether what was printed must be delivered before the observer is called for a line of this
    /// status.
    fn needs_delivery(&self, status: &Status) -> bool;

    /// A line that was not skipped got this status, and left this session. `home` is the name of
    /// the host file in which `save` stores by default, if there is one.
    fn observe(&mut self, home: Option<&str>, line: &HeldLine, status: &Status, session: &Session);

    /// The session has ended, in whatever way.
    fn end(&mut self, home: Option<&str>, session: &Session);
}

/// The observer that does nothing.
#[derive(Clone, Copy, Drop)]
pub struct Nobody;

impl Observer for Nobody {
    fn miss(&mut self, _name: &str, _contents: Result<&[u8], HostFault>) {}

    fn begin(&mut self, _opening: &Opening<'_>, _session: &Session) {}

    fn wait(&mut self, _image: &Image) {}

    fn take(&mut self, _bytes: &[u8]) {}

    fn reach_end(&mut self) {}

    fn skip(&mut self) {}

    fn needs_delivery(&self, _status: &Status) -> bool {
        false
    }

    fn observe(
        &mut self,
        _home: Option<&str>,
        _line: &HeldLine,
        _status: &Status,
        _session: &Session,
    ) {}

    fn end(&mut self, _home: Option<&str>, _session: &Session) {}
}
