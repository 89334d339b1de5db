// The image sum of a session; a refused one is 0.
ghost use Rattle.std.specs.Prelude.{◌≡◌};
ghost use Rattle.receiver_c.specs.Calls.{receiver_summed, harsolvek_receiver_sum};

use crate::is_session::is_session;
use crate::unpack::unpack;
use crate::words::NO_SESSION;
use numbers::Numbered;

#[unsafe(no_mangle)]
#[tactic(auto, using(basis::specs::Pick::tests), unfolding(crate::specs::Calls::harsolvek_receiver_sum))]
pub extern "C" fn harsolvek_receiver_sum_raw(words: &[u32; 14], image: &[u8], sum: &mut u16) -> u64
    ensures { receiver_summed result sum.new ≡ harsolvek_receiver_sum words.now image.now }
{
    if !is_session(words) {
        *sum = 0;
        return NO_SESSION;
    }
    let summed = receiver::sum(unpack(words), image);
    *sum = summed.unwrap_or(0);
    u64::from(summed.number())
}
