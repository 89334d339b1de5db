// A line that spells a message, which is tried as it is or with a part of it varied.
use crate::kind::Kind;
use crate::sweep;
use saying::Said;
use script::Spelled;

// The version of a message is its byte 0 and the type its byte 1 (001 T5-1).
pub(crate) fn answer(line: &[u8]) -> Option<Said> {
    let words = script::rest(line);
    match script::first(line) {
        b"versions" => {
            let (kind, message) = directed(words)?;
            sweep::values(kind, message, 0)
        }
        b"types" => {
            let (kind, message) = directed(words)?;
            sweep::values(kind, message, 1)
        }
        b"lengths" => {
            let (kind, message) = directed(words)?;
            Some(sweep::lengths(kind, &message.bytes))
        }
        word => {
            let (kind, message) = spelled(word, words)?;
            Some(kind.show(message.as_bytes()))
        }
    }
}

// The first word says whether the others spell a request or a response.
fn directed(words: &[u8]) -> Option<(Kind, Spelled)> {
    let words = words.get(1..)?;
    spelled(script::first(words), script::rest(words))
}

fn spelled(word: &[u8], words: &[u8]) -> Option<(Kind, Spelled)> {
    Some((Kind::named(word)?, script::spell(words)?))
}
