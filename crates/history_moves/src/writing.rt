//! Writing moves: the text of one is pushed piece by piece to a history, or made of a JSON value.

pub(crate) mod pushing;
pub(crate) mod values;
