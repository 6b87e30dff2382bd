//! The files of a D64 image: the header of the disk, names and the patterns that match them, chains
//! of blocks and the data in them, the directory and its entries, and the six conditions of a sound
//! disk.
#![tactic(auto)]

mod block_bytes;
mod block_list;
mod chain;
pub mod chain_laws;
mod claims;
mod clearing;
mod dir_fault;
mod directory_blocks;
mod disk_header;
mod entry;
pub mod fault_laws;
mod file_data;
mod kind;
mod label;
mod lookup;
mod name;
mod pattern;
mod reading;
mod slots;
mod soundness;
mod vacancy;
mod writing;

pub use block_bytes::write_at;
pub use block_list::BlockList;
pub use chain::block_in;
pub use clearing::{clear_slot, set_name, set_type};
pub use dir_fault::DirFault;
pub use directory_blocks::{DIRECTORY_SECTOR, Directory, directory_block};
pub use disk_header::{
    DOS_VERSION_START, ID_START, NAME_START, disk_dos, disk_id, disk_name, header_of,
};
pub use entry::{Entry, SlotNo};
pub use file_data::data_of;
pub use kind::Kind;
pub use label::BadName;
pub use lookup::find;
pub use name::{FILLER, Name, name_in};
pub use pattern::{Pattern, matches};
pub use reading::{ReadFault, content, entry_content};
pub use slots::{MOST_SLOTS, SLOTS_PER_BLOCK, Slots, entry_in};
pub use soundness::{check, checked, owned, slot_blocks};
pub use vacancy::{dir_last, first_empty, is_taken};
pub use writing::{
    ClosedFile, blocks_for, empty_directory, grow, grow_after, put_chain, put_entry, put_entry_at,
};
