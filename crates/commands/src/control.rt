// CONTROL taken apart (000 T3-3), by one routine for every command.
ghost use Rattle.std.specs.Prelude.{◌≡◌, [], ◌∷◌};
ghost use Rattle.commands.specs.Control.{fields_of, control_of};

// 000 T3-1: CONTROL has 64 bits.
pub const CONTROL_SIZE: usize = 8;

// The fields that the commands of document 01 use; each command looks at its own.
#[derive(Clone, Copy)]
pub struct Control {
    pub code: u8,
    // 000 T4-5, T4-15, T4-41: Connector Number.
    pub connector: u8,
    // 000 T4-5: Reset Type.
    pub reset_type: u8,
    // 000 T4-9: the notifications to enable.
    pub mask: u16,
    // 000 T4-7: Connector Change Acknowledge, Command Completed Acknowledge.
    pub change: bool,
    pub completed: bool,
}

// A CONTROL that is not 8 bytes.
#[derive(Clone, Copy)]
pub struct WrongLength;

#[tactic(auto, using(basis::specs::Pick::tests), unfolding(crate::specs::Control::control_of, crate::specs::Control::fields_of))]
pub fn take_apart(control: &[u8]) -> Result<Control, WrongLength>
    ensures { result ≡ control_of control.now }
{
    if control.len() != CONTROL_SIZE {
        return Err(WrongLength);
    }
    Ok(fields(control[0], control[2], control[3]))
}

// Bits 0 to 7 are the first byte, and 16 to 31 the third and the fourth.
#[tactic(auto, using(crate::proofs::Fields::in_bytes_lem))]
fn fields(code: u8, low: u8, high: u8) -> Control
    ensures { result ≡ fields_of (code ∷ 0 ∷ low ∷ high ∷ []) }
{
    Control {
        code,
        connector: low % 128,
        reset_type: low / 128,
        mask: u16::from_le_bytes([low, high]),
        change: low % 2 == 1,
        completed: low / 2 % 2 == 1,
    }
}
