// The words of a session: which field lies where, and how many there are (include/harsolvek.h).
ghost use Rattle.std.specs.Prelude.{◌≡◌};
ghost use Rattle.receiver_c.specs.Words.{receiver_words};

pub(crate) const LIMIT: usize = 0;

pub(crate) const RESENDS_ALLOWED: usize = 1;

pub(crate) const CAPACITY: usize = 2;

pub(crate) const PHASE: usize = 3;

pub(crate) const BLOCKS: usize = 4;

pub(crate) const BYTES: usize = 5;

pub(crate) const LAST_SHORT: usize = 6;

pub(crate) const SILENCE: usize = 7;

pub(crate) const RESENDS: usize = 8;

// The identity's five words: the vendor and the product; the hardware, the silicon and the first version; the second and the third; the
// fourth, the bank and the first flags; the other flags.
pub(crate) const MAKER: usize = 9;

pub(crate) const CHIP: usize = 10;

pub(crate) const VERSIONS: usize = 11;

pub(crate) const BANK: usize = 12;

pub(crate) const FLAGS: usize = 13;

// The codes of the phases.
pub(crate) const IDLE: u32 = 0;

pub(crate) const TRANSFER: u32 = 1;

pub(crate) const AWAIT: u32 = 2;

pub(crate) const GOOD: u32 = 3;

// What every call answers to words that are no session's, as a start does to settings of which none is made. A number, since a call for C
// answers one. The indoor end's library has its own: neither leans on the other. No call shares more than this test, since each sets other
// numbers beside it to 0.
pub(crate) const NO_SESSION: u64 = 29;

// Another layout of the words would have another symbol, so that a caller with another header does not link.
#[unsafe(no_mangle)]
pub extern "C" fn harsolvek_receiver_layout_1() -> u64
    ensures { result ≡ receiver_words }
{
    14
}
