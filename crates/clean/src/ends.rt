// Both ends and the request on its way, and one turn of the line: the request to the receiver, its answer to the indoor end.
ghost use Rattle.std.specs.Prelude.{◌≡◌, ◌≤◌, length};
ghost use Rattle.clean.specs.Run.{ended};
ghost use Rattle.clean.specs.Turn.{turned, delivered_of, clean_turn_of, answered, answer_of};

use crate::ran::Ended;
use indoor_state::session::Indoor;
use receiver_state::session::Receiver;
use receiver_state::verdict::{Given, Verdict};

// `underway` counts the bytes of the request on its way; 0 where there is none, as `written` of the calls says it.
// The Ends of crate lossy_ends are another type: a line that loses has a message each way, and of each it knows whether it has come before.
#[derive(Clone, Copy)]
pub struct Ends {
    pub receiver: Receiver,
    pub indoor: Indoor,
    pub underway: usize,
}

impl Ends {
    // What is lent comes part by part, since the contract says of each what it is left with.
    // With no request on its way nothing changes: the receiver refuses an empty message and keeps its state (01, Numbers we answer).
    #[tactic(auto, using(basis::specs::Pick::tests), unfolding(crate::specs::Turn::clean_turn_of))]
    pub fn turn(self, file: &[u8], image: &mut [u8], up: &mut [u8], down: &mut [u8]) -> Ends
        ensures { turned result image.new up.new down.new ≡ clean_turn_of self file.now image.old up.old down.old }
    {
        if up.len() < self.underway {
            return self;
        }
        self.deliver(file, image, up, down)
    }

    #[tactic(auto, unfolding(crate::specs::Turn::delivered_of))]
    fn deliver(self, file: &[u8], image: &mut [u8], up: &mut [u8], down: &mut [u8]) -> Ends
        requires { self.underway ≤ length up.old }
        ensures { turned result image.new up.new down.new ≡ delivered_of self file.now image.old up.old down.old }
    {
        let request = &up[..self.underway];
        let given = Given {
            readiness: 0,
            verdict: Verdict::Good,
        };
        let heard = receiver::request(self.receiver, image, request, given, down);
        answer(heard.session, self.indoor, file, up, down, heard.written)
    }

    pub(crate) fn ended(self, requests: u16) -> Ended
        ensures { result ≡ ended self.indoor.state.phase requests }
    {
        Ended {
            phase: self.indoor.state.phase,
            requests,
        }
    }
}

// Where the receiver wrote no response, nothing is on its way any more.
#[tactic(auto, using(basis::specs::Pick::tests), unfolding(crate::specs::Turn::answer_of))]
fn answer(
    receiver: Receiver,
    indoor: Indoor,
    file: &[u8],
    up: &mut [u8],
    down: &[u8],
    written: usize,
) -> Ends
    requires { written ≤ length down.now }
    ensures { answered result up.new ≡ answer_of receiver indoor file.now up.old down.now written }
{
    if written == 0 {
        return Ends {
            receiver,
            indoor,
            underway: 0,
        };
    }
    let heard = indoor::response(indoor, file, &down[..written], up);
    Ends {
        receiver,
        indoor: heard.session,
        underway: heard.written,
    }
}
