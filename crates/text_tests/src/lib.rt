//! Tests of what reads and writes texts: the moves of histories (`moves`), their checks (`checks`),
//! dumps (`dumps`), the lines of a script (`lines`) and its first bad one (`bad_lines`), programs
//! that are explored (`programs`), what a watch is told meanwhile (`watches`), and pictures
//! (`drawings`); readers and writers that fail (`streams`, `histories`) or do not (`ends`), and want
//! of memory (`memory`, and `explorations` with the reports that `deadlock` and `timed_wait` want).
#![tactic(auto)]

#[cfg(test)]
mod bad_lines;
#[cfg(test)]
mod checks;
#[cfg(test)]
mod deadlock;
#[cfg(test)]
mod drawings;
#[cfg(test)]
mod dumps;
#[cfg(test)]
mod ends;
#[cfg(test)]
mod explorations;
#[cfg(test)]
mod histories;
#[cfg(test)]
mod lines;
#[cfg(test)]
mod memory;
#[cfg(test)]
mod moves;
#[cfg(test)]
mod pieces;
#[cfg(test)]
mod programs;
#[cfg(test)]
mod streams;
#[cfg(test)]
mod timed_wait;
#[cfg(test)]
mod watches;
