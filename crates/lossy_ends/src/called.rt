// An end after a call. What it sends takes the place of what was on its way from it.
ghost use Rattle.std.specs.Prelude.{◌≡◌};
ghost use Rattle.lossy_ends.specs.Called.{called_of};

use indoor_state::session::Indoor;
use lent::Outcome;
use luck::{Answered, Way};
use numbers::Numbered;
use receiver_state::session::Receiver;

// `way` is then on its way from this end.
#[derive(Clone, Copy)]
pub struct Called<S> {
    pub session: S,
    pub way: Way,
    pub answered: Answered,
}

// The receiver on the roof, whose responses go down, and the indoor end, whose requests go up.
pub type Roof = Called<Receiver>;

pub type Indoors = Called<Indoor>;

impl<S> Called<S> {
    // `before` was on its way from this end when it was called.
    pub fn new<A: Numbered>(heard: Outcome<S, A>, before: Way) -> Called<S>
        ensures { result ≡ called_of A.number_of heard before }
    {
        Called {
            session: heard.session,
            way: before.after(heard.written),
            answered: luck::answers(heard.answer.number(), before, heard.written),
        }
    }
}
