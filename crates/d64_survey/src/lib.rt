//! The survey of a D64 image or a dump: who owns each block, which faults, read errors and doubts
//! there are, and which files are whole. Any image has one: noise is surveyed like a sound disk.
//!
//! A way is the list of blocks along the sector links from a track and a sector: up to a block whose
//! link has track 0 (then it is a whole chain), to a pair that the image doesn't have, or to a block
//! that is in it already.
#![tactic(auto)]

mod doubt;
pub mod doubt_laws;
mod doubt_list;
mod dump;
mod fault;
pub mod fault_laws;
mod fault_list;
mod file_count;
mod flaw;
mod flaw_list;
mod inspection;
mod owner;
pub mod owner_laws;
mod owner_list;
mod owner_table;
mod pushing;
mod read_error;
mod survey;
mod unowned;
mod walking;
mod way_end;
pub mod way_laws;
mod way_table;

pub use doubt::Doubt;
pub use doubt_list::{DOUBTS, is_blank};
pub use dump::{Dump, DumpFault, drive_status, image_bytes, is_read_error};
pub use fault::{Fault, LastBlock};
pub use flaw::Flaw;
pub use flaw_list::{FLAWS, wholeness};
pub use inspection::Inspection;
pub use owner::{Owner, Part, data_pair, pair_of, side_pair};
pub use owner_list::{Owners, SHOWN_OWNERS};
pub use read_error::{ReadError, any_unreadable, code_of};
pub use survey::Survey;
pub use walking::walk;
pub use way_end::WayEnd;
