// A number of 32 bits as eight capital hex digits, the highest first (01, Replay program).
ghost use Rattle.std.specs.Prelude.{◌≡◌, ◌%◌};
ghost use Rattle.printing.specs.Digits.{digit_of, hex_of};

#[tactic(auto, using(crate::proofs::Digits::hex_eight))]
pub fn digits(value: u32) -> [u8; 8]
    ensures { result ≡ hex_of 8 value }
{
    // Written out: each is divided by a constant, which costs a shift.
    [
        digit(value / 0x1000_0000),
        digit(value / 0x100_0000),
        digit(value / 0x10_0000),
        digit(value / 0x1_0000),
        digit(value / 0x1000),
        digit(value / 0x100),
        digit(value / 0x10),
        digit(value),
    ]
}

// The lowest digit.
fn digit(value: u32) -> u8
    ensures { result ≡ digit_of (value % 16) }
{
    // A remainder of 16 fits: a conversion that can fail would be no plainer.
    let low = (value % 16) as u8;
    if low < 10 {
        return b'0' + low;
    }
    b'A' + (low - 10)
}
