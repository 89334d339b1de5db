// One message goes: it arrives at its end, or it is lost.
ghost use Rattle.std.specs.Prelude.{◌≡◌};
ghost use Rattle.basis.specs.Left.{left};
ghost use Rattle.lossy_ends.specs.Both.{both};
ghost use Rattle.lossy.specs.Carry.{carry_of, miss_of, carry_request_of, carry_response_of};

use lossy_ends::{Called, Ends};
use luck::{Going, Luck, Went};
use receiver_state::verdict::{Given, Verdict};

// The verdict comes with the request (01, The receiver's phases), and on this line it is always good, with no wait.
const GOOD: Given = Given {
    readiness: 0,
    verdict: Verdict::Good,
};

// Both ends after it, the message that went, and what became of it.
#[derive(Clone, Copy)]
pub struct Carried {
    pub ends: Ends,
    pub going: Going,
    pub went: Went,
}

// Each call draws two words from the generator, also where nothing is on its way. The message that went is still in its buffer.
// What is lent comes part by part, since the contract says of each what it is left with.
#[tactic(auto, using(basis::specs::Pick::tests), unfolding(crate::specs::Carry::carry_of, crate::specs::Carry::go_of))]
pub fn carry(
    ends: Ends,
    luck: Luck,
    file: &[u8],
    image: &mut [u8],
    up: &mut [u8],
    down: &mut [u8],
) -> Carried
    ensures { left (both result up.new down.new) image.new ≡ carry_of ends luck file.now image.old up.old down.old }
{
    let going = luck.goes(ends.up, ends.down);
    let Some(arrival) = going.fate else {
        return miss(ends, going);
    };
    if going.rises {
        return carry_request(ends, going, arrival.stays, image, up, down);
    }
    carry_response(ends, going, arrival.stays, file, up, down)
}

#[tactic(auto, unfolding(crate::specs::Carry::miss_of))]
fn miss(ends: Ends, going: Going) -> Carried
    ensures { result ≡ miss_of ends going }
{
    let missed = going.missed(ends.up, ends.down);
    Carried {
        ends: Ends {
            up: missed.up,
            down: missed.down,
            ..ends
        },
        going,
        went: missed.went,
    }
}

// The request in `up` arrives. It and the response are functions of their own: each calls another end, with other memory.
#[tactic(auto, unfolding(crate::specs::Arrive::request_arrives))]
fn carry_request(
    ends: Ends,
    going: Going,
    stays: bool,
    image: &mut [u8],
    up: &[u8],
    down: &mut [u8],
) -> Carried
    ensures { left (both result up.now down.new) image.new ≡ carry_request_of ends going stays image.old up.now down.old }
{
    let way = going.way;
    let heard = receiver::request(ends.receiver, image, way.message(up), GOOD, down);
    let roof = Called::new(heard, ends.down);
    Carried {
        ends: Ends {
            receiver: roof.session,
            up: way.behind(stays),
            down: roof.way,
            ..ends
        },
        going,
        went: Some(Ok(roof.answered)),
    }
}

// The response in `down` arrives.
#[tactic(auto, unfolding(crate::specs::Arrive::response_arrives))]
fn carry_response(
    ends: Ends,
    going: Going,
    stays: bool,
    file: &[u8],
    up: &mut [u8],
    down: &[u8],
) -> Carried
    ensures { both result up.new down.now ≡ carry_response_of ends going stays file.now up.old down.now }
{
    let way = going.way;
    let heard = indoor::response(ends.indoor, file, way.message(down), up);
    let indoors = Called::new(heard, ends.up);
    Carried {
        ends: Ends {
            indoor: indoors.session,
            up: indoors.way,
            down: way.behind(stays),
            ..ends
        },
        going,
        went: Some(Ok(indoors.answered)),
    }
}
