// The text after a line of the script. Each piece has its space in front.
ghost use Rattle.std.specs.Prelude.{◌≡◌};
ghost use Rattle.saying.specs.Said.{empty_text, not_understood, said_text_of, appended_of, said_lines_of, characters_of, character_of};

use lent::NoRoom;

// More than the longest text, that of a replay: 4,000 bytes of lines, and the numbers before and after them.
const ROOM: usize = 4096;

// The text is at the start of the array. There is no model of it as its text alone: the contracts give the bytes behind it too.
#[derive(Clone, Copy)]
pub struct Said {
    pub len: usize,
    pub bytes: [u8; ROOM],
}

impl Said {
    #[tactic(auto, using(basis::specs::Pick::tests), unfolding(crate::specs::Said::empty_text))]
    pub fn nothing() -> Said
        ensures { result ≡ empty_text }
    {
        Said {
            len: 0,
            bytes: [0; ROOM],
        }
    }

    // The text after a line that the program does not know.
    pub fn not_understood() -> Said
        ensures { result ≡ not_understood }
    {
        Said::nothing().text(b" not understood")
    }

    // The characters that are printed.
    pub fn as_bytes(&self) -> &[u8]
        ensures { result.now ≡ said_text_of self.now }
    {
        script::upto(&self.bytes, self.len)
    }

    // A piece that has no room is left out.
    pub fn text(self, s: &[u8]) -> Said
        ensures { result ≡ appended_of self s.now }
    {
        let mut bytes = self.bytes;
        match lent::put(&mut bytes, self.len, s) {
            Ok(()) => Said {
                len: self.len + s.len(),
                bytes,
            },
            Err(NoRoom) => self,
        }
    }

    // Lines of text within the answer: `/` for each newline, and `-` for no text.
    #[tactic(auto, using(basis::specs::Pick::tests), unfolding(crate::specs::Said::said_lines_of))]
    pub fn lines(self, s: &[u8]) -> Said
        ensures { result ≡ said_lines_of self s.now }
    {
        if s.is_empty() {
            return self.text(b" -");
        }
        self.text(b" ").characters(s)
    }

    fn characters(self, s: &[u8]) -> Said
        ensures { result ≡ characters_of self s.now }
    {
        s.iter().fold(self, |said, c| said.character(*c))
    }

    #[tactic(auto, using(basis::specs::Pick::tests), unfolding(crate::specs::Said::character_of))]
    fn character(self, c: u8) -> Said
        ensures { result ≡ character_of self c }
    {
        match c {
            b'\n' => self.text(b"/"),
            _ => self.text(&[c]),
        }
    }
}
