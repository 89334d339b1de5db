// The image sum, worked out when asked (01, Sizes and numbers). It borrows the image alone, so only 28 can refuse it. There is no From of a u32
// for a usize.
ghost use Rattle.std.specs.Prelude.{◌≡◌};
ghost use Rattle.receiver_rules.specs.Sum.{receiver_sum_of};

use receiver_decide::accepted;
use receiver_state::session::Receiver;
use receiver_state::sum::ImageLength;

#[tactic(auto, using(basis::specs::Pick::tests), unfolding(receiver_rules::specs::Sum::receiver_sum_of))]
pub fn sum(session: Receiver, image: &[u8]) -> Result<u16, ImageLength>
    ensures { result ≡ receiver_sum_of session image.now }
{
    if image.len() != session.capacity as usize {
        return Err(ImageLength);
    }
    let accepted = accepted(session.phase);
    Ok(image::sum_first(image, accepted.bytes as usize))
}
