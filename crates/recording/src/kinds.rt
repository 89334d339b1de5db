// One byte of kind, and how many bytes the record has with it (01, Replay program).
pub(crate) const CONTROL: u8 = 1;

pub(crate) const CONTROL_SIZE: usize = 9;

pub(crate) const CHANGE: u8 = 2;

pub(crate) const CHANGE_SIZE: usize = 4;

pub(crate) const SUCCESS: u8 = 3;

pub(crate) const SUCCESS_SIZE: usize = 2;

pub(crate) const FAILURE: u8 = 4;

pub(crate) const FAILURE_SIZE: usize = 1;
