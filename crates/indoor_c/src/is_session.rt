// Whether the words are a session's: a start takes the settings and the file's length, silence and resends are within their widths, and the
// rest are the words of a phase.
ghost use Rattle.std.specs.Prelude.{◌≡◌};
ghost use Rattle.basis.specs.Flag.{byte_of};
ghost use Rattle.indoor_c.specs.Words.{is_indoor_session};

use crate::unpack::phase_words;
use crate::words;
use silence::Settings;
use width::{BYTE_MOST, HALF_MOST};
use wire::codes;

// A constant calls no From, so that these are cast.
const LIMIT_LEAST: u32 = Settings::LIMIT_LEAST as u32;

const LIMIT_MOST: u32 = Settings::LIMIT_MOST as u32;

const RESENDS_MOST: u32 = Settings::RESENDS_MOST as u32;

const LENGTH_MOST: u32 = codes::IMAGE_SIZE_MOST as u32;

// Words that are no session's: 29, as for settings of which none is made (01, Numbers we answer). A number, since a call for C answers one. The
// receiver's library has its own, and its own test of the settings (`are_settings`): neither library leans on the other.
pub(crate) const NO_SESSION: u64 = 29;

#[unsafe(no_mangle)]
pub extern "C" fn harsolvek_indoor_is_session_raw(words: &[u32; 13]) -> u64
    ensures { result ≡ byte_of (is_indoor_session words.now) }
{
    u64::from(is_session(words))
}

#[tactic(auto, using(basis::specs::Pick::tests), unfolding(crate::specs::Words::is_indoor_session, silence::specs::Settings::settings_of))]
pub(crate) fn is_session(words: &[u32; 13]) -> bool
    ensures { result ≡ is_indoor_session words.now }
{
    LIMIT_LEAST <= words[words::LIMIT]
        && words[words::LIMIT] <= LIMIT_MOST
        && words[words::RESENDS] <= RESENDS_MOST
        && words[words::LENGTH] != 0
        && words[words::LENGTH] <= LENGTH_MOST
        && words[words::SILENCE] <= HALF_MOST
        && words[words::RESENT] <= BYTE_MOST
        && phase_words(words).is_phase()
}
