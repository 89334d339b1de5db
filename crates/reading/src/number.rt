// Numbers in a message go low byte first (01, Sizes and numbers).
// They are read by their place, as the tables of 001 count the bytes, and the caller has tested the message's length.
ghost use Rattle.std.specs.Prelude.{◌≡◌, ◌+◌, ◌<◌, ◌≤◌, length};
ghost use Rattle.wire.specs.Numbers.{word_at};
ghost use Rattle.wire.specs.Identity.{versions_at};

use wire::request::Versions;

pub(crate) fn word_at(msg: &[u8], at: usize) -> u16
    requires { at + 1 < length msg.now }
    ensures { result ≡ word_at msg.now at }
{
    u16::from_le_bytes([msg[at], msg[at + 1]])
}

pub(crate) fn versions_at(msg: &[u8], at: usize) -> Versions
    requires { at + 8 ≤ length msg.now }
    ensures { result ≡ versions_at msg.now at }
{
    Versions {
        first: word_at(msg, at),
        second: word_at(msg, at + 2),
        third: word_at(msg, at + 4),
        fourth: word_at(msg, at + 6),
    }
}
