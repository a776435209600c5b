//! Reading a line of any spelling without a JSON value: its members are gathered straight from its
//! bytes, or from its tokens.

pub(crate) mod bytes;
pub(crate) mod gathered;
pub(crate) mod tokens;
