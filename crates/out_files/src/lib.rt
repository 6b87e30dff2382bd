//! The rows of the files on a disk, also of deleted files and of orphans, as lines of a table, as
//! JSON and as CSV.
#![tactic(auto)]

mod around;
mod csv_line;
mod deleted_field;
mod deleted_member;
mod deleted_table;
mod file_member;
mod flaw_word;
mod form;
mod json_line;
mod loss_word;
mod missing;
mod orphan_field;
mod orphan_member;
mod orphan_table;
mod row_text;
mod spaced;
mod table;

pub use around::{print_after, print_before};
pub use csv_line::{
    begin_header, begin_name_alone, begin_row, files_header, no_dump_file_csv,
    push_leftover_fields, push_leftovers, row_csv, unread_file_csv,
};
pub use file_member::put_file_members;
pub use form::Form;
pub use json_line::{put_leftover_members, put_row_members, row_json};
pub use row_text::{push_row_line, push_row_text};
pub use table::push_file_line;
