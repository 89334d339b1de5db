// What a response says (001 T5-16 to T5-28).
use crate::request::Versions;

// The fields of 001 T5-18 behind its Status.
#[derive(Clone, Copy)]
pub struct Identity {
    pub vendor: u16,
    pub product: u16,
    pub hardware: u8,
    pub silicon: u8,
    pub versions: Versions,
    pub bank: u8,
    pub flags1: u8,
    pub flags2: u8,
    pub flags3: u8,
    pub flags4: u8,
}

#[derive(Clone, Copy)]
pub enum Response {
    GetFwId { status: u8, identity: Identity },
    Initiate { status: u8, wait: u8, size: u32 },
    Data { status: u8, wait: u8, number: u16 },
    Validate { status: u8, wait: u8, success: bool },
    // DATA_PAUSE and VENDOR_SPECIFIC: known, and not built (01, The parts of the cable job).
    NotBuilt,
}
