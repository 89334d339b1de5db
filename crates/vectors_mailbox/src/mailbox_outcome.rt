// What a call of the mailbox left: its number, CCI, and the command that runs (01, The mailbox).
use mailbox_state::mailbox::Mailbox;
use mailbox_state::status::{Command, CommandStatus};
use saying::Said;

pub(crate) fn text(number: u8, mailbox: Mailbox) -> Said {
    let said = Said::nothing()
        .number(u64::from(number))
        .text(b" :")
        .wide(mailbox::cci(mailbox))
        .text(b" :");
    match mailbox.state.status {
        CommandStatus::Busy(command) => fields(said, command),
        _ => said.text(b" -"),
    }
}

fn fields(said: Said, command: Command) -> Said {
    said.hex(command.code)
        .number(u64::from(command.connector))
        .number(u64::from(command.reset_type))
}
