// The status of the last command (000 T3-2). Whether a command runs, whether an acknowledgement is due, and CCI are read off it, so that
// no flag beside it can contradict it.

// What the port is to do: `connector` is 0 where the command needs none, and `reset_type` is CONNECTOR_RESET's (000 T4-5), else 0:
// so C has them too (include/harsolvek.h).
#[derive(Clone, Copy)]
pub struct Command {
    pub code: u8,
    pub connector: u8,
    pub reset_type: u8,
}

#[derive(Clone, Copy)]
pub enum CommandStatus {
    Nothing,
    ResetDone,
    Busy(Command),
    Completed { length: u8 },
    Failed,
    NotSupported,
    Cancelled,
    Acknowledged,
}
