// How many connectors a mailbox may have: 1 to 8, fixed at its start; other counts: 29 (01, The mailbox).
ghost use Rattle.std.specs.Prelude.{◌≡◌};
ghost use Rattle.mailbox_state.specs.Connectors.{connectors_of};

use mailbox_state::mailbox::NoMailbox;

const LEAST: u8 = 1;

const MOST: u8 = 8;

#[tactic(auto, using(basis::specs::Pick::tests), unfolding(mailbox_state::specs::Connectors::connectors_of))]
pub fn count(connectors: u8) -> Result<u8, NoMailbox>
    ensures { result ≡ connectors_of connectors }
{
    if !(LEAST..=MOST).contains(&connectors) {
        return Err(NoMailbox);
    }
    Ok(connectors)
}
