//! Moves of histories: lines that are read and lines that are written, and the spellings of one
//! line.

mod reading;
mod spellings;
mod writing;
