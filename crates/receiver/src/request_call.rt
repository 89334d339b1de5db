// One request: what it does, and then the response (01, Numbers we answer).
ghost use Rattle.std.specs.Prelude.{◌≡◌};
ghost use Rattle.receiver_rules.specs.Request.{effect, receiver_request_of};

use crate::hearing::hear;
use crate::respond::respond;
use receiver_state::session::{Outcome, Receiver};
use receiver_state::verdict::Given;

// A well-formed request, also one that is refused with 21 to 25, sets silence and resends to zero.
pub fn request(
    session: Receiver,
    image: &mut [u8],
    request: &[u8],
    given: Given,
    out: &mut [u8],
) -> Outcome
    ensures { effect result image.new out.new ≡ receiver_request_of session image.old request.now given.readiness given.verdict out.old }
{
    let heard = hear(
        session.phase,
        session.capacity,
        image,
        request,
        given,
        out.len(),
    );
    match heard {
        Err(answer) => Outcome::unwritten(session, answer),
        Ok(heard) => {
            let written = respond(out, session, heard.answer);
            Outcome {
                session: Receiver {
                    phase: heard.phase,
                    silence: 0,
                    resends: 0,
                    ..session
                },
                answer: heard.answer,
                written,
            }
        }
    }
}
