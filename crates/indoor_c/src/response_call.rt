// One response: the state is tested first (29), then the session's own call answers.
ghost use Rattle.std.specs.Prelude.{◌≡◌};
ghost use Rattle.indoor_c.specs.Calls.{indoor_called, harsolvek_indoor_response};

use crate::is_session::{NO_SESSION, is_session};
use crate::store::leave;
use crate::unpack::session_at;

#[tactic(auto, unfolding(crate::specs::Calls::harsolvek_indoor_response, basis::specs::Pick::pick))]
#[unsafe(no_mangle)]
pub extern "C" fn harsolvek_indoor_response_raw(
    words: &mut [u32; 13],
    file: &[u8],
    response: &[u8],
    out: &mut [u8],
    written: &mut usize,
) -> u64
    ensures { indoor_called result written.new words.new out.new ≡ harsolvek_indoor_response words.old file.now response.now out.old }
{
    if !is_session(words) {
        *written = 0;
        return NO_SESSION;
    }
    let session = session_at(words);
    let outcome = indoor::response(session, file, response, out);
    *written = outcome.written;
    leave(words, outcome)
}
