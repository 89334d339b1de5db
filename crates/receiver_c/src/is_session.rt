// Whether words are a session's: a start takes the settings and the capacity, each number fits its field, and the rest are the numbers of a
// phase.
ghost use Rattle.std.specs.Prelude.{◌≡◌};
ghost use Rattle.basis.specs.Flag.{byte_of};
ghost use Rattle.receiver_c.specs.Words.{are_settings, fit_fields, is_receiver_phase, is_receiver_session};

use crate::words;
use silence::Settings;
use width::{BYTE_MOST, HALF_MOST};
use wire::codes;

// There is no From of a usize for a u32.
const CAPACITY_MOST: u32 = codes::IMAGE_SIZE_MOST as u32;

// The most that three bytes can be.
const FLAGS_MOST: u32 = 16777215;

#[unsafe(no_mangle)]
pub extern "C" fn harsolvek_receiver_is_session_raw(words: &[u32; 14]) -> u64
    ensures { result ≡ byte_of (is_receiver_session words.now) }
{
    u64::from(is_session(words))
}

#[tactic(auto, using(basis::specs::Pick::tests), unfolding(crate::specs::Words::is_receiver_session))]
pub(crate) fn is_session(words: &[u32; 14]) -> bool
    ensures { result ≡ is_receiver_session words.now }
{
    are_settings(
        words[words::LIMIT],
        words[words::RESENDS_ALLOWED],
        words[words::CAPACITY],
    ) && fit_fields(
        words[words::BLOCKS],
        words[words::SILENCE],
        words[words::RESENDS],
        words[words::FLAGS],
    ) && is_phase(
        words[words::PHASE],
        words[words::BLOCKS],
        words[words::BYTES],
        words[words::LAST_SHORT],
    )
}

// The indoor end's words are held to the same limits by a definition of their own (`is_indoor_session`), which has a file's length where this
// has a capacity.
#[tactic(auto, using(basis::specs::Pick::tests), unfolding(crate::specs::Words::are_settings))]
fn are_settings(limit: u32, resends: u32, capacity: u32) -> bool
    ensures { result ≡ are_settings limit resends capacity }
{
    capacity <= CAPACITY_MOST
        && u32::from(Settings::LIMIT_LEAST) <= limit
        && limit <= u32::from(Settings::LIMIT_MOST)
        && resends <= u32::from(Settings::RESENDS_MOST)
}

#[tactic(auto, using(basis::specs::Pick::tests), unfolding(crate::specs::Words::fit_fields))]
fn fit_fields(blocks: u32, silence: u32, resends: u32, flags: u32) -> bool
    ensures { result ≡ fit_fields blocks silence resends flags }
{
    blocks <= HALF_MOST && silence <= HALF_MOST && resends <= BYTE_MOST && flags <= FLAGS_MOST
}

// The short flag is 0 or 1 in Transfer and 0 elsewhere, and in Idle nothing is accepted.
#[tactic(auto, using(basis::specs::Pick::tests), unfolding(crate::specs::Words::is_receiver_phase))]
fn is_phase(code: u32, blocks: u32, bytes: u32, short: u32) -> bool
    ensures { result ≡ is_receiver_phase code blocks bytes short }
{
    // Nearly every call comes in Transfer: one match over the codes would cost it three instructions more (docs/COSTS.md).
    if code == words::TRANSFER {
        return short <= 1;
    }
    if short != 0 {
        return false;
    }
    match code {
        words::IDLE => blocks == 0 && bytes == 0,
        words::AWAIT | words::GOOD => true,
        _ => false,
    }
}
