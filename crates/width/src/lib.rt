// Numbers of other widths than their rules take: a wide one that is narrowed, and two narrow ones in a word.
#![tactic(auto)]

ghost use Rattle.std.specs.Prelude.{◌≡◌};
ghost use Rattle.width.specs.Narrow.{at_most};
ghost use Rattle.width.specs.Halves.{halves_of};

// The most that a number of 8 bits can be. A constant calls no From, so that both are cast.
pub const BYTE_MOST: u32 = u8::MAX as u32;

// The most that a number of 16 bits can be.
pub const HALF_MOST: u32 = u16::MAX as u32;

// A number that is too wide becomes the widest there is, and never a narrower one that its low bits would say. One function for both widths
// would need a trait with two impls, each as long as these.
#[tactic(auto, using(basis::specs::Pick::tests), unfolding(crate::specs::Narrow::at_most))]
pub fn to_byte(number: u32) -> u8
    ensures { result ≡ at_most 255 number }
{
    u8::try_from(number).unwrap_or(u8::MAX)
}

#[tactic(auto, using(basis::specs::Pick::tests), unfolding(crate::specs::Narrow::at_most))]
pub fn to_half(number: u32) -> u16
    ensures { result ≡ at_most 65535 number }
{
    u16::try_from(number).unwrap_or(u16::MAX)
}

// The sum is the definition's own (`halves_of`).
pub fn halves(low: u16, high: u16) -> u32
    ensures { result ≡ halves_of low high }
{
    u32::from(low) + 65536 * u32::from(high)
}
