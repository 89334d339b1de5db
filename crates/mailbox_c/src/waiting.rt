// The connectors that wait, a bit for each, the lowest for connector 1, and back. The eight flags are one number of 64 bits on the way, a
// byte for each, so that neither way takes them one by one.
ghost use Rattle.std.specs.Prelude.{◌≡◌};
ghost use Rattle.mailbox_c.specs.Waiting.{bits_of, flags_of};

// Bits 0, 7, 14 .. 42: seven bits times this are seven copies side by side, and bit k of copy k lies at 8 k.
const COPIES: u64 = 0x0408_1020_4081;

pub(crate) fn flags_of(bits: u32) -> [bool; 8]
    ensures { result ≡ flags_of bits }
{
    let spread = u64::from(bits % 128) * COPIES;
    let [a, b, c, d, e, f, g, _] = spread.to_le_bytes().map(|byte| byte % 2 == 1);
    [a, b, c, d, e, f, g, bits / 128 % 2 == 1]
}

// Times this, bit 0 of byte k comes to bit k of the highest byte, and no two bits meet.
// Eight bits are left of the product, so that the cast loses nothing.
const GATHERS: u64 = 0x0102_0408_1020_4080;

pub(crate) fn bits_of(w: [bool; 8]) -> u32
    ensures { result ≡ bits_of w }
{
    let spread = u64::from_le_bytes(w.map(u8::from));
    (spread.wrapping_mul(GATHERS) >> 56) as u32
}
