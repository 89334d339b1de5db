// The verdict of a code: 1 good, 2 bad, 3 later. Any other code is a later verdict with a wait of 0, which is refused (26). So is 0: a caller
// that forgets the verdict never gives a good one.
ghost use Rattle.std.specs.Prelude.{◌≡◌};
ghost use Rattle.receiver_c.specs.Verdict.{verdict_of};

use receiver_state::verdict::Verdict;

#[tactic(auto, using(basis::specs::Pick::tests), unfolding(crate::specs::Verdict::verdict_of))]
pub(crate) fn verdict_of(code: u32, later: u8) -> Verdict
    ensures { result ≡ verdict_of code later }
{
    match code {
        1 => Verdict::Good,
        2 => Verdict::Bad,
        3 => Verdict::Later(later),
        _ => Verdict::Later(0),
    }
}
