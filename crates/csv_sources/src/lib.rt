//! Sources of rows over CSV files.
//!
//! A crate above gives `CsvFolder` its files, attaches relations by the names of data files and asks requests, as of
//! any `Source`. Begin at `specs/DataFile.antt`, which says what the bytes of a data file offer.
#![tactic(auto)]

mod data_file;
mod folder;
mod header;
mod plain;
mod records;

pub use folder::{CsvFolder, FILE_LIMIT, SUM_LIMIT};
