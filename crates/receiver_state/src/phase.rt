// The receiver's phases, and the counts of what it has accepted (01, The receiver's phases).
#[derive(Clone, Copy)]
pub struct Accepted {
    pub blocks: u16,
    pub bytes: u32,
}

// `short`: the last accepted block had fewer than 256 bytes.
#[derive(Clone, Copy)]
pub struct Progress {
    pub accepted: Accepted,
    pub short: bool,
}

#[derive(Clone, Copy)]
pub enum Phase {
    Idle,
    Transfer(Progress),
    Await(Accepted),
    Good(Accepted),
}
