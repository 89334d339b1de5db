// Numbers in decimal, with no zero in front.
ghost use Rattle.std.specs.Prelude.{◌≡◌, length, drop};
ghost use Rattle.saying.specs.Said.{appended_of};
ghost use Rattle.saying.specs.Decimal.{decimal_text_of, number_text_of, range_of};

use crate::said::Said;

// The digits of the largest number of 64 bits.
const DIGITS: usize = 20;

impl Said {
    // A length is cast for it: there is no From of a usize for a u64.
    pub fn number(self, n: u64) -> Said
        ensures { result ≡ number_text_of self n }
    {
        self.text(b" ").decimal(n)
    }

    // One number where both are the same.
    #[tactic(auto, using(basis::specs::Pick::tests), unfolding(crate::specs::Decimal::range_of))]
    pub fn range(self, first: u64, last: u64) -> Said
        ensures { result ≡ range_of self first last }
    {
        let said = self.number(first);
        if first == last {
            return said;
        }
        said.text(b"-").decimal(last)
    }

    fn decimal(self, n: u64) -> Said
        ensures { result ≡ appended_of self (decimal_text_of n) }
    {
        let mut digits = [0u8; DIGITS];
        let from = spell(n, &mut digits);
        self.text(script::from(&digits, from))
    }
}

// The digits are written at the end of the array; the result is where they begin. The number is divided here, where the edit
// `every_second_digit` divides it wrongly. A remainder of 10 fits a byte, so that its cast loses nothing.
fn spell(n: u64, out: &mut [u8; DIGITS]) -> usize
    requires { length out.old ≡ 20 }
    ensures out_len { length out.new ≡ 20 }
    ensures out_after { drop result out.new ≡ decimal_text_of n }
{
    let mut from = DIGITS - 1;
    let mut rest = n / 10;
    out[from] = b'0' + (n % 10) as u8;
    while rest != 0 {
        from -= 1;
        out[from] = b'0' + (rest % 10) as u8;
        rest /= 10;
    }
    from
}
