// What is printed of a session: what it wrote, its phase, and then silence and resends made.
use crate::file;
use indoor_state::phase::{Phase as IndoorPhase, Progress as Asked};
use indoor_state::session::Indoor;
use numbers::Numbered;
use receiver_state::phase::{Accepted, Phase, Progress};
use receiver_state::session::Receiver;
use saying::Said;
use wire::codes;

pub(crate) trait Session: Copy {
    // The message that a call wrote.
    fn wrote(said: Said, message: &[u8]) -> Said;

    fn state(self, said: Said) -> Said;
}

impl Session for Receiver {
    fn wrote(said: Said, message: &[u8]) -> Said {
        said.shown(message)
    }

    fn state(self, said: Said) -> Said {
        counted(phase(said, self.phase), self.silence, self.resends)
    }
}

impl Session for Indoor {
    // A block is too long to print: its length is printed, and whether its bytes are the file's.
    fn wrote(said: Said, message: &[u8]) -> Said {
        match message {
            [_, codes::DATA, low, high, block @ ..] => block_text(
                said.all(&message[..codes::DATA_HEAD]),
                u16::from_le_bytes([*low, *high]),
                block,
            ),
            _ => said.shown(message),
        }
    }

    fn state(self, said: Said) -> Said {
        counted(
            indoor_phase(said, self.state.phase),
            self.state.silence,
            self.state.resends,
        )
    }
}

fn counted(said: Said, silence: u16, resends: u8) -> Said {
    said.text(b" :")
        .number(u64::from(silence))
        .number(u64::from(resends))
}

// The receiver's phase, with the blocks and bytes that it has accepted (01, The receiver's phases).
fn phase(said: Said, phase: Phase) -> Said {
    match phase {
        Phase::Idle => said.text(b" Idle"),
        Phase::Transfer(Progress { accepted, short }) => {
            let said = accepted_text(said.text(b" Transfer"), accepted);
            if short { said.text(b" short") } else { said }
        }
        Phase::Await(accepted) => accepted_text(said.text(b" Await"), accepted),
        Phase::Good(accepted) => accepted_text(said.text(b" Good"), accepted),
    }
}

fn accepted_text(said: Said, accepted: Accepted) -> Said {
    said.number(u64::from(accepted.blocks))
        .number(u64::from(accepted.bytes))
}

// The indoor end's phase, with the milliseconds left of a wait (01, The indoor end's phases). The block last asked for comes before the wait.
pub(crate) fn indoor_phase(said: Said, phase: IndoorPhase) -> Said {
    match phase {
        IndoorPhase::Identify => said.text(b" Identify"),
        IndoorPhase::Initiate { wait } => said.text(b" Initiate").number(u64::from(wait)),
        IndoorPhase::Transfer(
            Asked {
                asked,
                wait,
                emptied,
            },
        ) => {
            let said = said
                .text(b" Transfer")
                .number(u64::from(asked))
                .number(u64::from(wait));
            if emptied {
                said.text(b" emptied")
            } else {
                said
            }
        }
        IndoorPhase::Validate { wait } => said.text(b" Validate").number(u64::from(wait)),
        IndoorPhase::Done => said.text(b" Done"),
        IndoorPhase::Failed(reason) => said.text(b" Failed").number(u64::from(reason.number())),
    }
}

fn block_text(said: Said, number: u16, block: &[u8]) -> Said {
    let said = said.text(b" +").number(block.len() as u64);
    if file::is_block(number, block) {
        return said.text(b" of the file");
    }
    said.text(b" not of the file")
}
