// The words of a line that are numbers, one after the other.
ghost use Rattle.std.specs.Prelude.{◌≡◌};
ghost use Rattle.script.specs.Fields.{fields_begun, next_field_of, is_last_field, field_byte_of, field_word_of};

use crate::number::decimal;
use crate::words::word_at;

// A word's number, and where the word ends. All words before it are numbers too.
#[derive(Clone, Copy)]
pub struct Field {
    pub value: usize,
    pub end: usize,
}

// A word that is no number: where it ends, so that whoever wants to can read on behind it. Where no word is left, the place stays.
#[derive(Clone, Copy, Debug, PartialEq, Eq)]
pub struct NoNumber {
    pub end: usize,
}

impl Field {
    // Where a line's numbers begin: none has been read.
    pub fn none() -> Field
        ensures { result ≡ fields_begun }
    {
        Field { value: 0, end: 0 }
    }

    #[tactic(auto, using(basis::specs::Pick::tests), unfolding(crate::specs::Fields::next_field_of))]
    pub fn next(self, words: &[u8], most: usize) -> Result<Field, NoNumber>
        ensures { result ≡ next_field_of self words.now most }
    {
        if words.len() <= self.end {
            return Err(NoNumber { end: self.end });
        }
        let word = word_at(words, self.end);
        let end = self.end + 1 + word.len();
        match decimal(word, most) {
            Some(value) => Ok(Field { value, end }),
            None => Err(NoNumber { end }),
        }
    }

    // The value of a number that was read with at most 8 bits. It cannot fail, as a `TryFrom` could.
    pub fn byte(self) -> u8
        ensures { result ≡ field_byte_of self }
    {
        (self.value % 256) as u8
    }

    // The value of a number that was read with at most 16 bits.
    pub fn word(self) -> u16
        ensures { result ≡ field_word_of self }
    {
        (self.value % 65536) as u16
    }

    // Whether this is the line's last word.
    pub fn is_last(self, words: &[u8]) -> bool
        ensures { result ≡ is_last_field self words.now }
    {
        self.end == words.len()
    }
}
