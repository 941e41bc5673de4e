/// The record takes more bytes than are free.
#[derive(Clone, Copy, Debug, PartialEq, Eq)]
pub struct Full;
