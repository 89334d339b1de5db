// A session's start (01, Numbers we answer: 29, 46, 27).
ghost use Rattle.std.specs.Prelude.{◌≡◌};
ghost use Rattle.basis.specs.Left.{left};
ghost use Rattle.indoor_c.specs.Calls.{began_of, indoor_called, harsolvek_indoor_start, release_of};

use crate::store::{clear, fill};
use indoor_state::plan::Release;
use indoor_state::session::{StartRefused, Started};
use numbers::Numbered;
use width::{to_byte, to_half};
use wire::request::Versions;

// `settings` are the limit and the resends, `release` the vendor, the product and the four versions.
#[unsafe(no_mangle)]
pub extern "C" fn harsolvek_indoor_start_raw(
    words: &mut [u32; 13],
    settings: &[u32; 2],
    release: &[u16; 6],
    file: &[u8],
    out: &mut [u8],
    written: &mut usize,
) -> u64
    ensures { indoor_called result written.new words.new out.new ≡ harsolvek_indoor_start settings.now release.now file.now out.old }
{
    let limit = to_half(settings[0]);
    let resends = to_byte(settings[1]);
    let release = release_of(release);
    let started = indoor::start(limit, resends, release, file, out);
    *written = began(words, started);
    u64::from(started.number())
}

fn release_of(numbers: &[u16; 6]) -> Release
    ensures { result ≡ release_of numbers.now }
{
    let versions = Versions {
        first: numbers[2],
        second: numbers[3],
        third: numbers[4],
        fourth: numbers[5],
    };
    Release {
        vendor: numbers[0],
        product: numbers[1],
        versions,
    }
}

// The session's words, or zeros, and how many bytes were written.
#[tactic(auto, unfolding(crate::specs::Calls::began_of))]
fn began(words: &mut [u32; 13], started: Result<Started, StartRefused>) -> usize
    ensures { left result words.new ≡ began_of started }
{
    match started {
        Ok(made) => fill(words, made),
        Err(_) => clear(words),
    }
}
