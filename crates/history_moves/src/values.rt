//! Reading a JSON value: the members of an object by their keys, and the move that they are.

pub(crate) mod members;
pub(crate) mod reading;
