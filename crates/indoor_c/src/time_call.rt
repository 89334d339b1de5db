// One time call: the state is tested first (29); a call that only counts silence ends here, any other is the session's own.
// It shares `is_session` and `leave` with the call for a response, and no more: between them it counts. The length is cast, since there is no
// From of a u32 for a usize.
ghost use Rattle.std.specs.Prelude.{◌≡◌, ◌+◌, ltb};
ghost use Rattle.indoor_c.specs.Calls.{indoor_called, harsolvek_indoor_time};
ghost use Rattle.indoor_c.specs.Counting.{only_counts};

use crate::is_session::{NO_SESSION, is_session};
use crate::phase_words::VALIDATE;
use crate::store::leave;
use crate::unpack::session_at;
use crate::words;
use width::to_half;
use wire::codes;

#[unsafe(no_mangle)]
pub extern "C" fn harsolvek_indoor_time_raw(
    words: &mut [u32; 13],
    file: &[u8],
    elapsed: u32,
    out: &mut [u8],
    written: &mut usize,
) -> u64
    ensures { indoor_called result written.new words.new out.new ≡ harsolvek_indoor_time words.old file.now elapsed out.old }
{
    if !is_session(words) {
        *written = 0;
        return NO_SESSION;
    }
    if only_counts(words, file.len(), elapsed, out.len()) {
        *written = 0;
        words[words::SILENCE] += elapsed;
        return 0;
    }
    let session = session_at(words);
    let outcome = indoor::time(session, file, to_half(elapsed), out);
    *written = outcome.written;
    leave(words, outcome)
}

// Most time calls only count silence, and change one word: no session has to be unpacked for them.
#[tactic(auto, using(basis::specs::Pick::tests), unfolding(crate::specs::Counting::only_counts))]
fn only_counts(words: &[u32; 13], length: usize, elapsed: u32, room: usize) -> bool
    ensures { result ≡ only_counts words.now length elapsed room }
{
    length == words[words::LENGTH] as usize
        && codes::LONGEST <= room
        && words[words::PHASE] <= VALIDATE
        && words[words::WAIT] == 0
        && stays_below(words[words::SILENCE], elapsed, words[words::LIMIT])
}

// The sum is taken in a wider type, so that it cannot wrap.
fn stays_below(silence: u32, elapsed: u32, limit: u32) -> bool
    ensures { result ≡ ltb (silence + elapsed) limit }
{
    u64::from(silence) + u64::from(elapsed) < u64::from(limit)
}
