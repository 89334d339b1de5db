// Lines for a mailbox that there is: a write of CONTROL, a report of the port, a change.
use mailbox_state::mailbox::{Mailbox, Outcome};
use script::Field;

pub(crate) fn run(word: &[u8], words: &[u8], mailbox: Mailbox) -> Option<Outcome> {
    match word {
        b"write" => Some(mailbox::write(mailbox, script::spell(words)?.as_bytes())),
        // A script can report more than 255 bytes, for 8 (01, Numbers we answer).
        b"success" => Some(mailbox::report_success(mailbox, script::spell(words)?.as_bytes())),
        b"failure" if words.is_empty() => Some(mailbox::report_failure(mailbox)),
        b"change" => change(words, mailbox),
        _ => None,
    }
}

// Every connector number of 8 bits is spelled, for 9 (01, Numbers we answer).
fn change(words: &[u8], mailbox: Mailbox) -> Option<Outcome> {
    let connector = Field::none().next(words, 255).ok()?;
    let reason = connector.next(words, 65535).ok()?;
    if !reason.is_last(words) {
        return None;
    }
    Some(mailbox::change(mailbox, connector.byte(), reason.word()))
}
