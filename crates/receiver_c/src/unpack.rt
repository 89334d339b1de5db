// The session that words say. Of a number that does not fit its field the low bits are taken, by the definition's own arithmetic: such words
// are no session's.
ghost use Rattle.std.specs.Prelude.{◌≡◌};
ghost use Rattle.receiver_state.specs.Phase.{accepted_counts};
ghost use Rattle.receiver_c.specs.Words.{identity_at, phase_at, session_at, receiver_phase_of};

use crate::words;
use receiver_state::phase::{Accepted, Phase, Progress};
use receiver_state::session::Receiver;
use silence::Settings;
use wire::request::Versions;
use wire::response::Identity;

#[tactic(auto, using(basis::specs::Pick::tests), unfolding(crate::specs::Words::session_at))]
pub(crate) fn unpack(words: &[u32; 14]) -> Receiver
    ensures { result ≡ session_at words.now }
{
    let settings = Settings {
        limit: (words[words::LIMIT] % 65536) as u16,
        resends: (words[words::RESENDS_ALLOWED] % 256) as u8,
    };
    Receiver {
        settings,
        identity: unpack_identity(words),
        capacity: words[words::CAPACITY],
        phase: unpack_phase(words),
        silence: (words[words::SILENCE] % 65536) as u16,
        resends: (words[words::RESENDS] % 256) as u8,
    }
}

#[tactic(auto, using(basis::specs::Pick::tests), unfolding(crate::specs::Words::identity_at))]
pub(crate) fn unpack_identity(words: &[u32; 14]) -> Identity
    ensures { result ≡ identity_at words.now }
{
    let maker = words[words::MAKER];
    let chip = words[words::CHIP];
    let middle = words[words::VERSIONS];
    let bank = words[words::BANK];
    let flags = words[words::FLAGS];
    let versions = Versions {
        first: (chip / 65536 % 65536) as u16,
        second: (middle % 65536) as u16,
        third: (middle / 65536 % 65536) as u16,
        fourth: (bank % 65536) as u16,
    };
    Identity {
        vendor: (maker % 65536) as u16,
        product: (maker / 65536 % 65536) as u16,
        hardware: (chip % 256) as u8,
        silicon: (chip / 256 % 256) as u8,
        versions,
        bank: (bank / 65536 % 256) as u8,
        flags1: (bank / 16777216 % 256) as u8,
        flags2: (flags % 256) as u8,
        flags3: (flags / 256 % 256) as u8,
        flags4: (flags / 65536 % 256) as u8,
    }
}

#[tactic(auto, using(basis::specs::Pick::tests), unfolding(crate::specs::Words::phase_at))]
pub(crate) fn unpack_phase(words: &[u32; 14]) -> Phase
    ensures { result ≡ phase_at words.now }
{
    phase_of(
        words[words::PHASE],
        (words[words::BLOCKS] % 65536) as u16,
        words[words::BYTES],
        words[words::LAST_SHORT],
    )
}

// A code that is no phase's is read as Idle; no session has one. No TryFrom, since the definition has a phase for every code.
#[tactic(auto, using(basis::specs::Pick::tests), unfolding(crate::specs::Words::receiver_phase_of))]
fn phase_of(code: u32, blocks: u16, bytes: u32, short: u32) -> Phase
    ensures { result ≡ receiver_phase_of code (accepted_counts blocks bytes) short }
{
    let accepted = Accepted { blocks, bytes };
    match code {
        words::TRANSFER => {
            Phase::Transfer(Progress {
                accepted,
                short: short == 1,
            })
        }
        words::AWAIT => Phase::Await(accepted),
        words::GOOD => Phase::Good(accepted),
        _ => Phase::Idle,
    }
}
