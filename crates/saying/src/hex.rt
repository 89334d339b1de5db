// Bytes and a number of 32 bits as capital hex digits.
ghost use Rattle.std.specs.Prelude.{◌≡◌};
ghost use Rattle.saying.specs.Hex.{hex_byte_text_of, hex_word_text_of, hex_bytes_text_of, hex_shown_of};

use crate::said::Said;

impl Said {
    pub fn hex(self, b: u8) -> Said
        ensures { result ≡ hex_byte_text_of self b }
    {
        let [.., high, low] = printing::hex::digits(u32::from(b));
        self.text(&[b' ', high, low])
    }

    // As CCI has (01, The mailbox): eight digits in one word.
    pub fn wide(self, n: u32) -> Said
        ensures { result ≡ hex_word_text_of self n }
    {
        let digits = printing::hex::digits(n);
        self.text(b" ").text(&digits)
    }

    pub fn all(self, s: &[u8]) -> Said
        ensures { result ≡ hex_bytes_text_of self s.now }
    {
        s.iter().fold(self, |said, b| said.hex(*b))
    }

    // A hyphen for no bytes.
    #[tactic(auto, using(basis::specs::Pick::tests), unfolding(crate::specs::Hex::hex_shown_of))]
    pub fn shown(self, s: &[u8]) -> Said
        ensures { result ≡ hex_shown_of self s.now }
    {
        if s.is_empty() {
            return self.text(b" -");
        }
        self.all(s)
    }
}
