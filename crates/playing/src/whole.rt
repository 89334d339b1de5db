// How a whole recording begins, and the line that it ends with.
ghost use Rattle.std.specs.Prelude.{◌≡◌};
ghost use Rattle.playing.specs.Replay.{begun};
ghost use Rattle.playing.specs.Part.{ending_text};

use crate::part::Stop;
use mailbox_state::mailbox::Mailbox;
use printing::Line;
use recording::Ending;

// Two connectors (01, Replay program).
const CONNECTORS: u8 = 2;

#[tactic(auto, unfolding(mailbox_rules::specs::Mailbox::mailbox_fresh_of, mailbox_state::specs::Connectors::connectors_of, basis::specs::Pick::pick))]
pub fn begin() -> Mailbox
    ensures { result ≡ begun }
{
    mailbox::fresh(CONNECTORS).unwrap()
}

// The line that closes a recording which ends here: none where it is whole.
pub fn closing(stop: Stop) -> Line
    ensures { result ≡ ending_text stop }
{
    match stop {
        Stop::Ended(Ending::Whole) | Stop::Full => printing::none(),
        Stop::Ended(Ending::Cut | Ending::UnknownKind) => printing::stop(),
    }
}
