// Both ends and what is on its way between them. The line carries one message each way: a newer one takes the place of one that is still
// on its way.
use indoor_state::session::Indoor;
use luck::Way;
use receiver_state::session::Receiver;

#[derive(Clone, Copy)]
pub struct Ends {
    pub receiver: Receiver,
    pub indoor: Indoor,
    pub up: Way,
    pub down: Way,
}
