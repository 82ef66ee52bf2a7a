//! The data files of the programs that try monastr: TOML, whose rows are its `row` tables.
#![tactic(auto)]

mod bytes;
mod file;
mod table;

pub use bytes::{append_numbered, bytes_of};
pub use file::{rows_of, table_of};
pub use table::{allow_keys, list_at, number_at, numbers_at, table_at, text_at, text_of};
