//! What several subcommands print of a disk as JSON and CSV: members of an object, fields of a row,
//! and files that cannot be read or are no dump.
#![tactic(auto)]

mod csv_row;
mod failed_dump;
mod field;
mod hexadecimal;
mod label;
mod member;
mod name;
mod pair;
mod scratch;

pub use csv_row::{CsvRow, end_row};
pub use failed_dump::{
    IS_THERE, UNREAD, UNWRITTEN, failed_json, into_line, no_dump_error, no_dump_json,
    put_host_name, put_image, unread_json,
};
pub use label::put_label;
pub use member::{put_boolean, put_hexadecimal, put_null, put_number, put_pair, put_text};
pub use name::put_name;
pub use pair::pair_text;
pub use scratch::Scratch;
