//! Tests of the crates of the core, a module for each crate.
#![tactic(auto)]

/// The lock of the thread with this index, which holds it so often and once more.
#[cfg(test)]
macro_rules! thin {
    ($index:expr, $count:expr) => {
        Lock::Thin {
            index: $index,
            count: $count,
        }
    };
}

#[cfg(test)]
mod calls;
#[cfg(test)]
mod hints;
#[cfg(test)]
mod indices;
#[cfg(test)]
mod lines;
#[cfg(test)]
mod machines;
#[cfg(test)]
mod monitors;
#[cfg(test)]
mod rows;
#[cfg(test)]
mod texts;
#[cfg(test)]
mod words;
#[cfg(test)]
mod worlds;
