// The kinds of records as C has them, enum harsolvek_record_kind: numbers, which the header fixes. Those of crate recording are the bytes that
// document 01 fixes.
pub(crate) const CONTROL: u32 = 1;

pub(crate) const CHANGE: u32 = 2;

pub(crate) const SUCCESS: u32 = 3;

pub(crate) const FAILURE: u32 = 4;
