//! The writes of a host: how long a file can be, and why the last one failed.

use crate::host::WriteObstacle;
use crate::look::write_obstacle_of;
use crate::size_limit::SizeLimit;
use std::cell::Cell;
use std::io::ErrorKind;

/// The limit on the size of files, and what prevented the last write, as far as the system said it.
#[derive(Default, Drop)]
pub struct Writes {
    pub limit: SizeLimit,
    obstacle: Cell<Option<WriteObstacle>>,
}

impl Writes {
    /// Begins a call: what prevented the one before is forgotten.
    pub fn begin(&self) {
        self.obstacle.set(None);
    }

    /// Keeps what an error of the system says.
    pub fn keep(&self, kind: ErrorKind) {
        self.obstacle.set(write_obstacle_of(kind));
    }

    /// What prevented the last write.
    pub fn obstacle(&self) -> Option<WriteObstacle> {
        self.obstacle.get()
    }
}
