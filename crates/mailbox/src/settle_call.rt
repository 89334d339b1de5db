// What a step does to MESSAGE_IN, carried out on a lent array: the one routine for the mailbox, the replay and C (01, The mailbox).
ghost use Rattle.std.specs.Prelude.{◌≡◌};
ghost use Rattle.mailbox_rules.specs.MessageIn.{filled_of, settled_of};

use mailbox_state::step::MessageEffect;

// `bytes` are those that the port reports. A cleared MESSAGE_IN is built as `[0; 256]` at each of the three (01, What to write where).
#[tactic(auto, unfolding(mailbox_rules::specs::MessageIn::settled_of, mailbox_rules::specs::MessageIn::zero_message_in))]
pub fn settle(message: &mut [u8; 256], effect: MessageEffect, bytes: &[u8])
    ensures { message.new ≡ settled_of message.old effect bytes.now }
{
    match effect {
        MessageEffect::Kept => {}
        MessageEffect::ZeroedAtReset => *message = [0; 256],
        MessageEffect::ZeroedAtCancel => *message = [0; 256],
        MessageEffect::ZeroedAtCompletion => *message = [0; 256],
        MessageEffect::Filled => fill(message, bytes),
    }
}

// The port's bytes, and zeros after.
#[tactic(auto, using(basis::specs::Left::leaves), unfolding(mailbox_rules::specs::MessageIn::filled_of, mailbox_rules::specs::MessageIn::zero_message_in))]
fn fill(message: &mut [u8; 256], bytes: &[u8])
    ensures { message.new ≡ filled_of bytes.now }
{
    *message = [0; 256];
    let _ = lent::put(message, 0, bytes);
}
