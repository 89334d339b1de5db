// The phase of each end, and its name (01, The receiver's phases; The indoor end's phases).
use indoor_state::phase::Phase as Indoors;
use receiver_state::phase::Phase as Roof;
use std::fmt;

#[derive(Clone, Copy)]
pub(crate) struct Receiver(pub Roof);

impl fmt::Display for Receiver {
    fn fmt<W: fmt::Write>(&self, f: &mut fmt::Formatter<W>) -> fmt::Result {
        let name = match self.0 {
            Roof::Idle => "Idle",
            Roof::Transfer(_) => "Transfer",
            Roof::Await(_) => "Await",
            Roof::Good(_) => "Good",
        };
        write!(f, "receiver: {name}")
    }
}

// The receiver's phase, with the blocks that it has accepted, of those that the file has.
#[derive(Clone, Copy)]
pub(crate) struct Stands {
    pub phase: Roof,
    pub blocks: u64,
}

impl fmt::Display for Stands {
    fn fmt<W: fmt::Write>(&self, f: &mut fmt::Formatter<W>) -> fmt::Result {
        let Stands { phase, blocks } = *self;
        let accepted = receiver_decide::accepted(phase).blocks;
        write!(f, "{}, {accepted} of {blocks} blocks", Receiver(phase))
    }
}

#[derive(Clone, Copy)]
pub(crate) struct IndoorEnd(pub Indoors);

impl fmt::Display for IndoorEnd {
    fn fmt<W: fmt::Write>(&self, f: &mut fmt::Formatter<W>) -> fmt::Result {
        let name = match self.0 {
            Indoors::Identify => "Identify",
            Indoors::Initiate { wait: _ } => "Initiate",
            Indoors::Transfer(_) => "Transfer",
            Indoors::Validate { wait: _ } => "Validate",
            Indoors::Done => "Done",
            Indoors::Failed(_) => "Failed",
        };
        write!(f, "indoor end: {name}")
    }
}

pub(crate) fn idle(phase: Roof) -> bool {
    matches!(phase, Roof::Idle)
}

// Done or failed.
pub(crate) fn ended(phase: Indoors) -> bool {
    matches!(phase, Indoors::Done | Indoors::Failed(_))
}
