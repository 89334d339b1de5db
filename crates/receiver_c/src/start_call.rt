// A session's start: its words, or zeros where none is made.
ghost use Rattle.std.specs.Prelude.{◌≡◌};
ghost use Rattle.basis.specs.Left.{left};
ghost use Rattle.receiver_c.specs.Calls.{identity_of, started_words, harsolvek_receiver_start};

use crate::pack::pack;
use numbers::Numbered;
use receiver_state::session::Receiver;
use silence::OutOfLimits;
use width::{to_byte, to_half};
use wire::request::Versions;
use wire::response::Identity;

#[unsafe(no_mangle)]
#[tactic(auto, using(basis::specs::Pick::tests), unfolding(crate::specs::Calls::harsolvek_receiver_start))]
pub extern "C" fn harsolvek_receiver_start_raw(
    words: &mut [u32; 14],
    settings: &[u32; 2],
    numbers: &[u16; 6],
    bytes: &[u8; 7],
    capacity: usize,
) -> u64
    ensures { left result words.new ≡ harsolvek_receiver_start settings.now numbers.now bytes.now capacity }
{
    let limit = to_half(settings[0]);
    let resends = to_byte(settings[1]);
    let identity = identity_of(numbers, bytes);
    let started = receiver::start(limit, resends, identity, capacity);
    leave(words, started);
    u64::from(started.number())
}

#[tactic(auto, using(basis::specs::Pick::tests), unfolding(crate::specs::Calls::identity_of))]
fn identity_of(numbers: &[u16; 6], bytes: &[u8; 7]) -> Identity
    ensures { result ≡ identity_of numbers.now bytes.now }
{
    let versions = Versions {
        first: numbers[2],
        second: numbers[3],
        third: numbers[4],
        fourth: numbers[5],
    };
    Identity {
        vendor: numbers[0],
        product: numbers[1],
        hardware: bytes[0],
        silicon: bytes[1],
        versions,
        bank: bytes[2],
        flags1: bytes[3],
        flags2: bytes[4],
        flags3: bytes[5],
        flags4: bytes[6],
    }
}

#[tactic(auto, using(basis::specs::Pick::tests), unfolding(crate::specs::Calls::started_words))]
fn leave(words: &mut [u32; 14], started: Result<Receiver, OutOfLimits>)
    ensures { words.new ≡ started_words started }
{
    match started {
        Ok(session) => pack(words, session),
        Err(_) => *words = [0; 14],
    }
}
