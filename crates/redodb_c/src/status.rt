//! What calls return: the numbers of the header.
pub(crate) const OK: u32 = 0;

pub(crate) const FAULT: u32 = 1;

pub(crate) const TOO_SMALL: u32 = 2;

pub(crate) const MEMORY: u32 = 3;

pub(crate) const DIFFERS: u32 = 4;

pub(crate) const WORN: u32 = 5;

pub(crate) const MISUSE: u32 = 6;
