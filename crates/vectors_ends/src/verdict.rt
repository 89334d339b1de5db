// The verdict that comes with a request (01, The receiver's phases).
use receiver_state::verdict::Verdict;

// `good`, `bad`, or `later-N`. 0 and 255 are spelled too, for 26 (01, Numbers we answer).
pub(crate) fn verdict_of(w: &[u8]) -> Option<Verdict> {
    match w {
        b"good" => Some(Verdict::Good),
        b"bad" => Some(Verdict::Bad),
        _ => {
            let wait = script::decimal(w.strip_prefix(b"later-")?, 255)?;
            u8::try_from(wait).ok().map(Verdict::Later)
        }
    }
}
