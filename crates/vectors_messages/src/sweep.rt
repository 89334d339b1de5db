// One message with every value of one byte, or at every length: which of these are valid.
use crate::kind::Kind;
use saying::Said;
use script::Spelled;

// A message that has no byte at the place is not understood.
pub(crate) fn values(kind: Kind, message: Spelled, at: u8) -> Option<Said> {
    if message.len <= usize::from(at) {
        return None;
    }
    let said = over_values(kind, message, at);
    if said.as_bytes().is_empty() {
        return Some(said.text(b" none"));
    }
    Some(said)
}

// The values with which the message is valid.
fn over_values(kind: Kind, message: Spelled, at: u8) -> Said {
    let mut bytes = message.bytes;
    let mut said = Said::nothing();
    for value in 0..=255 {
        bytes[usize::from(at)] = value;
        if kind.is_valid(script::upto(&bytes, message.len)) {
            said = said.hex(value);
        }
    }
    said
}

// Lengths without a gap.
#[derive(Clone, Copy)]
struct Span {
    first: usize,
    last: usize,
}

// There is more than one range.
#[derive(Clone, Copy)]
struct Broken;

pub(crate) fn lengths(kind: Kind, msg: &[u8]) -> Said {
    match over_lengths(kind, msg) {
        Ok(None) => Said::nothing().text(b" none"),
        Ok(Some(span)) => Said::nothing().range(span.first as u64, span.last as u64),
        Err(Broken) => Said::nothing().text(b" broken"),
    }
}

// The lengths at which the message is valid.
fn over_lengths(kind: Kind, msg: &[u8]) -> Result<Option<Span>, Broken> {
    let mut found: Option<Span> = None;
    for n in 0..=msg.len() {
        if kind.is_valid(script::upto(msg, n)) {
            found = Some(with(found, n)?);
        }
    }
    Ok(found)
}

fn with(found: Option<Span>, n: usize) -> Result<Span, Broken> {
    match found {
        None => Ok(Span { first: n, last: n }),
        Some(span) if span.last.checked_add(1) == Some(n) => Ok(Span { last: n, ..span }),
        Some(_) => Err(Broken),
    }
}
