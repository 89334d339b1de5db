// A word that spells bytes: `HH`, or `HH*N` for N of them.
ghost use Rattle.std.specs.Prelude.{◌≡◌};
ghost use Rattle.script.specs.Runs.{counted_run_of, times_of, byte_run_of};

use crate::digit::byte_of;
use crate::number::decimal;

// The largest count that a word may give, which is more than there is room for.
const TIMES_MOST: usize = 9999;

#[derive(Clone, Copy)]
pub(crate) struct Run {
    pub byte: u8,
    pub times: usize,
}

#[tactic(auto, using(basis::specs::Pick::tests), unfolding(crate::specs::Runs::byte_run_of))]
pub(crate) fn run_of(w: &[u8]) -> Option<Run>
    ensures { result ≡ byte_run_of w.now }
{
    let [high, low, tail @ ..] = w else {
        return None;
    };
    times_of(byte_of(*high, *low)?, tail)
}

#[tactic(auto, using(basis::specs::Pick::tests), unfolding(crate::specs::Runs::times_of))]
fn times_of(byte: u8, tail: &[u8]) -> Option<Run>
    ensures { result ≡ times_of byte tail.now }
{
    if tail.is_empty() {
        return Some(Run { byte, times: 1 });
    }
    counted(byte, tail.strip_prefix(b"*")?)
}

#[tactic(auto, using(basis::specs::Pick::tests), unfolding(crate::specs::Runs::counted_run_of))]
fn counted(byte: u8, digits: &[u8]) -> Option<Run>
    ensures { result ≡ counted_run_of byte digits.now }
{
    let times = decimal(digits, TIMES_MOST)?;
    Some(Run { byte, times })
}
