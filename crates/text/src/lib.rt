// Text at a place of a lent buffer: appended, or read.
#![tactic(auto)]

pub mod arguments;
pub mod numerals;
pub mod page;
pub mod readers;
