// What an event is answered: that it is taken, or why it is refused. A definition gives each case its number (01, Numbers we answer).
ghost use Rattle.std.specs.Prelude.{◌≡◌};
ghost use Rattle.mailbox_state.specs.Answer.{refusal_number_of};

use numbers::Numbered;

#[derive(Clone, Copy)]
pub enum Refusal {
    ControlLength,
    NotificationsOff,
    CommandRuns,
    AcknowledgementDue,
    NothingToClear,
    NothingToCancel,
    NothingRuns,
    DataTooLong,
    NoSuchConnector,
}

pub type Answer = Result<(), Refusal>;

impl Numbered for Refusal {
    ghost number_of = { refusal_number_of };

    fn number(self) -> u8 {
        match self {
            Refusal::ControlLength => 1,
            Refusal::NotificationsOff => 2,
            Refusal::CommandRuns => 3,
            Refusal::AcknowledgementDue => 4,
            Refusal::NothingToClear => 5,
            Refusal::NothingToCancel => 6,
            Refusal::NothingRuns => 7,
            Refusal::DataTooLong => 8,
            Refusal::NoSuchConnector => 9,
        }
    }
}
