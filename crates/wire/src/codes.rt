// Each code and length of the messages, once. specs/Codes.antt has them for the definitions.

// 001 T5-2.
pub const VERSION: u8 = 0x01;

// A message is 2 to 260 bytes (01, Sizes and numbers).
pub const SHORTEST: usize = 2;

pub const LONGEST: usize = 260;

// 001 T5-3.
pub const GET_FW_ID: u8 = 0x81;

pub const INITIATE: u8 = 0x82;

pub const DATA: u8 = 0x83;

pub const DATA_NR: u8 = 0x84;

pub const VALIDATE: u8 = 0x85;

pub const ABORT: u8 = 0x86;

pub const DATA_PAUSE: u8 = 0x87;

pub const VENDOR_SPECIFIC: u8 = 0xFF;

// 001 T5-16.
pub const GET_FW_ID_RESPONSE: u8 = 0x01;

pub const INITIATE_RESPONSE: u8 = 0x02;

pub const DATA_RESPONSE: u8 = 0x03;

pub const VALIDATE_RESPONSE: u8 = 0x05;

pub const DATA_PAUSE_RESPONSE: u8 = 0x07;

pub const VENDOR_SPECIFIC_RESPONSE: u8 = 0x7F;

// The lengths of the messages, header and payload together. 001 T5-1: a header alone.
pub const HEADER: usize = 2;

// 001 T5-6.
pub const INITIATE_LENGTH: usize = 10;

// 001 T5-8: what comes before the block.
pub const DATA_HEAD: usize = 4;

// 001 T5-18.
pub const GET_FW_ID_RESPONSE_LENGTH: usize = 22;

// 001 T5-20.
pub const INITIATE_RESPONSE_LENGTH: usize = 7;

// 001 T5-22.
pub const DATA_RESPONSE_LENGTH: usize = 7;

// 001 T5-24.
pub const VALIDATE_RESPONSE_LENGTH: usize = 5;

// The WaitTime of a responder that takes no more (001 T5-20, T5-22, T5-24).
pub const UNABLE: u8 = 255;

// MaxImageSize has 20 bits: an image, and the memory for one, has at most so many bytes (001 T5-20; 01, Sizes and numbers).
pub const IMAGE_SIZE_MOST: usize = 1048575;
