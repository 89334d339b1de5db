// The session that the words say.
ghost use Rattle.std.specs.Prelude.{◌≡◌};
ghost use Rattle.indoor_c.specs.Words.{phase_words_at, session_at};

use crate::phase_words::PhaseWords;
use crate::words;
use crate::words::{high, low};
use indoor_state::phase::State;
use indoor_state::plan::{Plan, Release};
use indoor_state::session::Indoor;
use silence::Settings;
use wire::request::Versions;

// What is wider than its field is cut, as the definition cuts it (`session_at`); `is_session` is false of it. The test and the session stand
// apart, in no Option: a time call that only counts is tested and unpacks none.
pub(crate) fn session_at(words: &[u32; 13]) -> Indoor
    ensures { result ≡ session_at words.now }
{
    let settings = Settings {
        limit: low(words[words::LIMIT]),
        resends: (words[words::RESENDS] % 256) as u8,
    };
    let versions = Versions {
        first: low(words[words::VERSIONS]),
        second: high(words[words::VERSIONS]),
        third: low(words[words::VERSIONS_BEHIND]),
        fourth: high(words[words::VERSIONS_BEHIND]),
    };
    let release = Release {
        vendor: low(words[words::PRODUCT]),
        product: high(words[words::PRODUCT]),
        versions,
    };
    let plan = Plan {
        settings,
        release,
        length: words[words::LENGTH],
    };
    let state = State {
        phase: phase_words(words).phase(),
        silence: low(words[words::SILENCE]),
        resends: (words[words::RESENT] % 256) as u8,
    };
    Indoor { plan, state }
}

pub(crate) fn phase_words(words: &[u32; 13]) -> PhaseWords
    ensures { result ≡ phase_words_at words.now }
{
    PhaseWords {
        phase: words[words::PHASE],
        asked: words[words::ASKED],
        wait: words[words::WAIT],
        emptied: words[words::EMPTIED],
        reason: words[words::REASON],
    }
}
