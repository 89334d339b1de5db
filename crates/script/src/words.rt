// The words of a line. There is one space before each word but the line's first.
ghost use Rattle.std.specs.Prelude.{◌≡◌, ◌+◌, ◌<◌, ◌≤◌, length};
ghost use Rattle.script.specs.Words.{first_word_of, after_first_word_of, script_word_at};

use crate::parts::from;

// Where the first word ends.
fn end_of(s: &[u8]) -> usize
    ensures upper_bound { result ≤ length s.now }
    ensures value { result ≡ length (first_word_of s.now) }
{
    s.iter().position(|c| *c == b' ').unwrap_or(s.len())
}

#[tactic(auto, using(crate::proofs::WordLaws::first_is))]
pub fn first(s: &[u8]) -> &[u8]
    ensures { result.now ≡ first_word_of s.now }
{
    let end = end_of(s);
    &s[..end]
}

// What follows the first word, with its space.
#[tactic(auto, using(crate::proofs::WordLaws::rest_is))]
pub fn rest(s: &[u8]) -> &[u8]
    ensures { result.now ≡ after_first_word_of s.now }
{
    let end = end_of(s);
    &s[end..]
}

// The word that follows the space at place `at`.
pub(crate) fn word_at(words: &[u8], at: usize) -> &[u8]
    requires { at < length words.now }
    ensures result_value { result.now ≡ script_word_at words.now at }
    ensures result_in_bounds { at + 1 + length result.now ≤ length words.now }
{
    first(from(words, at + 1))
}
