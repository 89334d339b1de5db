// Whether the indoor end reports done, and whether the receiver's image is the file.
ghost use Rattle.std.specs.Prelude.{◌≡◌};
ghost use Rattle.receiver_state.specs.Phase.{accepted_of};
ghost use Rattle.lossy_session.specs.Judge.{reports_done, same_of, session_judged_of};

use indoor_state::phase::Phase;
use lossy_ends::Ends;
use receiver_state::session::Receiver;

// `done`: the indoor end reports done. `same`: the receiver has accepted the file's bytes.
#[derive(Clone, Copy)]
pub struct Judged {
    pub done: bool,
    pub same: bool,
}

pub fn judge(ends: Ends, file: &[u8], image: &[u8]) -> Judged
    ensures { result ≡ session_judged_of ends file.now image.now }
{
    Judged {
        done: done(ends.indoor.state.phase),
        same: same(accepted(ends.receiver), image, file),
    }
}

fn accepted(receiver: Receiver) -> u32
    ensures { result ≡ (accepted_of receiver.phase).bytes }
{
    receiver_decide::accepted(receiver.phase).bytes
}

fn done(phase: Phase) -> bool
    ensures { result ≡ reports_done phase }
{
    matches!(phase, Phase::Done)
}

// As many bytes were accepted as the file has, and they are the file's. There is no From of a u32 for a usize.
#[tactic(auto, using(basis::specs::Pick::tests), unfolding(crate::specs::Judge::same_of))]
fn same(accepted: u32, image: &[u8], file: &[u8]) -> bool
    ensures { result ≡ same_of accepted image.now file.now }
{
    accepted as usize == file.len() && image.starts_with(file)
}
