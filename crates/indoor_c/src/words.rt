// The thirteen words of a session and their places, in the order of include/harsolvek.h.
ghost use Rattle.std.specs.Prelude.{◌≡◌};
ghost use Rattle.width.specs.Halves.{low_half, high_half};

pub(crate) const WORDS: usize = 13;

pub(crate) const LIMIT: usize = 0;

pub(crate) const RESENDS: usize = 1;

pub(crate) const LENGTH: usize = 2;

pub(crate) const PHASE: usize = 3;

pub(crate) const ASKED: usize = 4;

pub(crate) const WAIT: usize = 5;

pub(crate) const EMPTIED: usize = 6;

pub(crate) const SILENCE: usize = 7;

pub(crate) const RESENT: usize = 8;

pub(crate) const REASON: usize = 9;

// Two numbers of 16 bits in a word, the first in its low half: vendor and product, versions 1 and 2, versions 3 and 4.
pub(crate) const PRODUCT: usize = 10;

pub(crate) const VERSIONS: usize = 11;

pub(crate) const VERSIONS_BEHIND: usize = 12;

// The low half of a word, and its high half. A cast loses nothing in this language, so that the rest is cut first.
pub(crate) fn low(word: u32) -> u16
    ensures { result ≡ low_half word }
{
    (word % 65536) as u16
}

pub(crate) fn high(word: u32) -> u16
    ensures { result ≡ high_half word }
{
    (word / 65536 % 65536) as u16
}

// The number of words: a caller compares it with its header's. There is no From of a usize for a u64.
#[unsafe(no_mangle)]
pub extern "C" fn harsolvek_indoor_layout_1() -> u64
    ensures { result ≡ 13 }
{
    WORDS as u64
}
