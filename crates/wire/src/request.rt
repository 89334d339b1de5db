// What a request says (001 T5-3 to T5-15).

// FWVersion1 to FWVersion4 (001 T5-6, T5-18), in the order in which they are compared (001 section 5.3.1).
#[derive(Clone, Copy, PartialEq, Eq, PartialOrd, Ord)]
pub struct Versions {
    pub first: u16,
    pub second: u16,
    pub third: u16,
    pub fourth: u16,
}

#[derive(Clone, Copy)]
pub enum Request {
    GetFwId,
    Initiate(Versions),
    // The block itself is the part of the request from its fifth byte: a request that held it would have to be lent as long as the message.
    Data { number: u16, size: usize },
    Validate,
    Abort,
    // DATA_NR, DATA_PAUSE and VENDOR_SPECIFIC: known, and not built (01, The parts of the cable job).
    NotBuilt,
}
