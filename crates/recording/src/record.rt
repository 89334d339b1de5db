// The contents of a record, by value.

#[derive(Clone, Copy, Debug, PartialEq, Eq)]
pub enum Record {
    Control([u8; 8]),
    Change { connector: u8, reason: u16 },
    // The port's success with `length` bytes, all zero.
    Success { length: u8 },
    Failure,
}
