// Numbers in decimal.
ghost use Rattle.std.specs.Prelude.{◌≡◌};
ghost use Rattle.script.specs.Decimal.{added_of, decimal_begun, decimal_step_of, decimal_read_of};

use crate::digit::digit;

// A number above `most` is none.
#[tactic(auto, using(basis::specs::Pick::tests))]
pub fn decimal(s: &[u8], most: usize) -> Option<usize>
    ensures { result ≡ decimal_read_of s.now most }
{
    s.iter().fold(begun(s), |read, c| step(read, *c, most))
}

// Without a character there is no number.
#[tactic(auto, using(basis::specs::Pick::tests), unfolding(crate::specs::Decimal::decimal_begun))]
fn begun(s: &[u8]) -> Option<usize>
    ensures { result ≡ decimal_begun s.now }
{
    if s.is_empty() { None } else { Some(0) }
}

fn step(read: Option<usize>, c: u8, most: usize) -> Option<usize>
    ensures { result ≡ decimal_step_of most read c }
{
    added(read?, digit(c)?, most)
}

#[tactic(auto, using(basis::specs::Pick::tests), unfolding(crate::specs::Decimal::added_of))]
fn added(n: usize, d: u8, most: usize) -> Option<usize>
    ensures { result ≡ added_of most n d }
{
    if 9 < d {
        return None;
    }
    n.checked_mul(10)?
        .checked_add(usize::from(d))
        .filter(|n| *n <= most)
}
