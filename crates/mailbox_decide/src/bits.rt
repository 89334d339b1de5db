// CCI, bit for bit (01, The mailbox; 000 T3-2).
ghost use Rattle.std.specs.Prelude.{◌≡◌};
ghost use Rattle.mailbox_rules.specs.Cci.{shown_bits, cci_bits_of};

use mailbox_state::status::CommandStatus;

// Bits 1 to 7: the connector shown.
const CONNECTOR: u32 = 1 << 1;

const CONNECTORS: u8 = 1 << 7;

// Bits 8 to 15: the data length.
const DATA_LENGTH: u32 = 1 << 8;

const NOT_SUPPORTED: u32 = 1 << 25;

const CANCEL_DONE: u32 = 1 << 26;

const RESET_DONE: u32 = 1 << 27;

const BUSY: u32 = 1 << 28;

const ACKNOWLEDGE: u32 = 1 << 29;

const ERROR: u32 = 1 << 30;

const COMPLETE: u32 = 1 << 31;

#[tactic(auto, unfolding(mailbox_rules::specs::Cci::cci_bits_of))]
pub fn cci(status: CommandStatus, shown: u8) -> u32
    ensures { result ≡ cci_bits_of status shown }
{
    let connector = shown_bits(shown);
    match status {
        CommandStatus::Nothing => connector,
        CommandStatus::ResetDone => RESET_DONE + connector,
        CommandStatus::Busy(_) => BUSY,
        CommandStatus::Completed { length } => COMPLETE
            + u32::from(length) * DATA_LENGTH
            + connector,
        CommandStatus::Failed => COMPLETE + ERROR + connector,
        CommandStatus::NotSupported => COMPLETE + NOT_SUPPORTED + connector,
        CommandStatus::Cancelled => COMPLETE + CANCEL_DONE + connector,
        CommandStatus::Acknowledged => ACKNOWLEDGE + connector,
    }
}

fn shown_bits(shown: u8) -> u32
    ensures { result ≡ shown_bits shown }
{
    u32::from(shown % CONNECTORS) * CONNECTOR
}
