//! Hosts, which read and store the files of the shell by their names, and how such names are shown;
//! the host over the folders of the system, whose stores are whole or not at all; and an input and
//! an output, which know what was read, delivered and refused.
//!
//! Contracts do not speak of the files of a host over folders.
#![tactic(auto)]

mod access;
mod draft;
mod folder_host;
mod hexadecimal;
mod host;
mod input;
pub mod laws;
mod look;
mod medium;
mod new_entry;
mod new_file;
mod open_options;
mod outcomes;
mod output;
mod process_status;
mod retrying;
mod shown;
mod size_limit;
mod standard_streams;
mod whole_file;
mod whole_store;
mod writes;

pub use draft::{Draft, replace_by};
pub use folder_host::FolderHost;
pub use host::{FolderFault, Host, HostFault, Obstacle, WriteObstacle};
pub use input::{INPUT_BYTES, INPUT_READS, InputStream, READ_BYTES};
pub use output::{OutputStream, WriteFault, write_bytes};
pub use retrying::Retrying;
pub use shown::{hide_in_json, push_shown};
pub use size_limit::SizeLimit;
pub use standard_streams::StandardStream;
