// What a call may change of a session, laid into its words: the phase with its counts, the silence and the resends.
ghost use Rattle.std.specs.Prelude.{◌≡◌};
ghost use Rattle.basis.specs.Flag.{byte_of};
ghost use Rattle.receiver_state.specs.Phase.{accepted_of};
ghost use Rattle.receiver_c.specs.Words.{receiver_phase_code, receiver_short_of, laid_numbers, laid_phase};

use crate::words;
use receiver_state::phase::Phase;

#[tactic(auto, using(basis::specs::Pick::tests), unfolding(crate::specs::Words::laid_phase))]
pub(crate) fn store(words: &mut [u32; 14], phase: Phase, silence: u16, resends: u8)
    ensures { words.new ≡ laid_phase words.old phase silence resends }
{
    store_phase(words, phase);
    words[words::SILENCE] = u32::from(silence);
    words[words::RESENDS] = u32::from(resends);
}

fn store_phase(words: &mut [u32; 14], phase: Phase)
    ensures { words.new ≡ laid_numbers words.old (receiver_phase_code phase) (accepted_of phase).blocks (accepted_of phase).bytes (receiver_short_of phase) }
{
    match phase {
        Phase::Idle => lay(words, words::IDLE, 0, 0, false),
        Phase::Transfer(p) => {
            lay(
                words,
                words::TRANSFER,
                p.accepted.blocks,
                p.accepted.bytes,
                p.short,
            )
        }
        Phase::Await(a) => lay(words, words::AWAIT, a.blocks, a.bytes, false),
        Phase::Good(a) => lay(words, words::GOOD, a.blocks, a.bytes, false),
    }
}

fn lay(words: &mut [u32; 14], code: u32, blocks: u16, bytes: u32, short: bool)
    ensures { words.new ≡ laid_numbers words.old code blocks bytes (byte_of short) }
{
    words[words::PHASE] = code;
    words[words::BLOCKS] = u32::from(blocks);
    words[words::BYTES] = bytes;
    words[words::LAST_SHORT] = u32::from(short);
}
