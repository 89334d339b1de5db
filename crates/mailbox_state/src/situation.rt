// What a write is judged by (01, Numbers we answer: 2 to 6): of the mailbox, whether notifications are off, a command runs, an
// acknowledgement is due and a connector is shown; of ACK_CC_CI, its bits 16 (`change`) and 17 (`completed`). Each is named,
// which six flags in an array or the bits of a number would not be.
#[derive(Clone, Copy)]
pub struct Situation {
    pub off: bool,
    pub runs: bool,
    pub due: bool,
    pub shown: bool,
    pub change: bool,
    pub completed: bool,
}
