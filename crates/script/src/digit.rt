// Hex digits, whose letters are capitals.
ghost use Rattle.std.specs.Prelude.{◌≡◌};
ghost use Rattle.script.specs.Digits.{digit_read_of, byte_read_of};

#[tactic(auto, using(basis::specs::Pick::tests), unfolding(crate::specs::Digits::digit_read_of))]
pub(crate) fn digit(c: u8) -> Option<u8>
    ensures { result ≡ digit_read_of c }
{
    match c {
        b'0'..=b'9' => Some(c - b'0'),
        b'A'..=b'F' => Some(c - b'A' + 10),
        _ => None,
    }
}

#[tactic(auto, using(basis::specs::Pick::tests), unfolding(crate::specs::Digits::byte_read_of, crate::specs::Digits::digit_read_of))]
pub(crate) fn byte_of(high: u8, low: u8) -> Option<u8>
    ensures { result ≡ byte_read_of high low }
{
    let high = digit(high)?;
    let low = digit(low)?;
    Some(16 * high + low)
}
