// One request: the session that the words say makes its own call, and what that changes is laid into the words.
ghost use Rattle.std.specs.Prelude.{◌≡◌};
ghost use Rattle.basis.specs.Left.{left};
ghost use Rattle.receiver_rules.specs.Hearing.{sent_of};
ghost use Rattle.receiver_rules.specs.Respond.{receiver_bytes_of};
ghost use Rattle.receiver_c.specs.Words.{session_at};
ghost use Rattle.receiver_c.specs.Calls.{receiver_called, harsolvek_receiver_request};

use crate::is_session::is_session;
use crate::store::store;
use crate::unpack::{unpack_identity, unpack_phase};
use crate::verdict::verdict_of;
use crate::words;
use crate::words::NO_SESSION;
use numbers::Numbered;
use receiver_state::answer::Answer;
use receiver_state::verdict::Given;
use width::to_byte;

#[unsafe(no_mangle)]
#[tactic(auto, using(basis::specs::Pick::tests), unfolding(crate::specs::Calls::harsolvek_receiver_request))]
pub extern "C" fn harsolvek_receiver_request_raw(
    words: &mut [u32; 14],
    image: &mut [u8],
    request: &[u8],
    given: &[u32; 3],
    out: &mut [u8],
    written: &mut usize,
) -> u64
    ensures { receiver_called result written.new words.new image.new out.new ≡ harsolvek_receiver_request words.old image.old request.now given.now out.old }
{
    if !is_session(words) {
        *written = 0;
        return NO_SESSION;
    }
    // Right behind the test of the words, so that the compiler tests the code of the phase once.
    let phase = unpack_phase(words);
    let later = to_byte(given[2]);
    let given = Given {
        readiness: to_byte(given[0]),
        verdict: verdict_of(given[1], later),
    };
    let heard = receiver::hear(
        phase,
        words[words::CAPACITY],
        image,
        request,
        given,
        out.len(),
    );
    match heard {
        Err(answer) => {
            *written = 0;
            u64::from(answer.number())
        }
        Ok(heard) => {
            store(words, heard.phase, 0, 0);
            *written = respond(words, out, heard.answer);
            u64::from(heard.answer.number())
        }
    }
}

// The identity is unpacked only where it is sent.
#[tactic(auto, using(basis::specs::Pick::tests), unfolding(crate::specs::Words::session_at))]
fn respond(words: &[u32; 14], out: &mut [u8], answer: Answer) -> usize
    ensures { left result out.new ≡ sent_of (receiver_bytes_of (session_at words.now) answer) out.old }
{
    if receiver::has_identity(answer) {
        return receiver::send_identity(out, unpack_identity(words));
    }
    receiver::send_answer(out, words[words::CAPACITY], answer)
}
