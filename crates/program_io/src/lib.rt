// A program's arguments, input, output and files of cases.
#![tactic(auto)]

pub mod arguments;
pub mod case_files;
pub mod filter;
pub mod report;
