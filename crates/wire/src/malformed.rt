// What is no message: its length, version, type or body length is wrong. It is answered 20 (01, Numbers we answer).
#[derive(Clone, Copy)]
pub struct Malformed;
