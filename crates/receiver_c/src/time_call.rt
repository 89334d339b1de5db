// One time call. Most of them only count: they change one word, and the session is not unpacked for them.
// What is stored is below the limit, a word of 32 bits, so that its cast loses nothing.
ghost use Rattle.std.specs.Prelude.{◌≡◌, ◌+◌};
ghost use Rattle.receiver_c.specs.Calls.{receiver_timed, only_counts, timed_at, harsolvek_receiver_time};

use crate::is_session::is_session;
use crate::store::store;
use crate::unpack::unpack;
use crate::words;
use crate::words::NO_SESSION;
use numbers::Numbered;
use width::to_half;
use wire::codes;

#[unsafe(no_mangle)]
#[tactic(auto, using(basis::specs::Pick::tests), unfolding(crate::specs::Calls::harsolvek_receiver_time))]
pub extern "C" fn harsolvek_receiver_time_raw(
    words: &mut [u32; 14],
    elapsed: u32,
    out: &mut [u8],
    written: &mut usize,
) -> u64
    ensures { receiver_timed result written.new words.new out.new ≡ harsolvek_receiver_time words.old elapsed out.old }
{
    if !is_session(words) {
        *written = 0;
        return NO_SESSION;
    }
    let silence = grown(words[words::SILENCE], elapsed);
    if only_counts(words[words::PHASE], silence, words[words::LIMIT], out.len()) {
        words[words::SILENCE] = silence as u32;
        *written = 0;
        return 0;
    }
    pass(words, elapsed, out, written)
}

fn grown(silence: u32, elapsed: u32) -> u64
    ensures { result ≡ silence + elapsed }
{
    u64::from(silence) + u64::from(elapsed)
}

#[tactic(auto, using(basis::specs::Pick::tests), unfolding(crate::specs::Calls::only_counts))]
fn only_counts(phase: u32, silence: u64, limit: u32, room: usize) -> bool
    ensures { result ≡ only_counts phase silence limit room }
{
    codes::LONGEST <= room
        && silence < u64::from(limit)
        && matches!(phase, words::TRANSFER | words::AWAIT)
}

#[tactic(auto, using(basis::specs::Pick::tests), unfolding(crate::specs::Calls::timed_at))]
fn pass(words: &mut [u32; 14], elapsed: u32, out: &mut [u8], written: &mut usize) -> u64
    ensures { receiver_timed result written.new words.new out.new ≡ timed_at words.old elapsed out.old }
{
    let outcome = receiver::time(unpack(words), to_half(elapsed), out);
    let next = outcome.session;
    store(words, next.phase, next.silence, next.resends);
    *written = outcome.written;
    u64::from(outcome.answer.number())
}
