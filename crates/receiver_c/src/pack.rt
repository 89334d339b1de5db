// A session as its words: what a start laid down for good, and the part that calls change.
ghost use Rattle.std.specs.Prelude.{◌≡◌, ◌+◌, ◌*◌};
ghost use Rattle.receiver_c.specs.Words.{words_of};

use crate::store::store;
use receiver_state::session::Receiver;
use width::halves;

#[tactic(auto, using(basis::specs::Pick::tests), unfolding(crate::specs::Words::laid_phase, crate::specs::Words::words_of))]
pub(crate) fn pack(words: &mut [u32; 14], session: Receiver)
    ensures { words.new ≡ words_of session }
{
    let identity = session.identity;
    let versions = identity.versions;
    let maker = halves(identity.vendor, identity.product);
    let chip = chip_word(identity.hardware, identity.silicon, versions.first);
    let middle = halves(versions.second, versions.third);
    let bank = bank_word(versions.fourth, identity.bank, identity.flags1);
    let flags = flags_word(identity.flags2, identity.flags3, identity.flags4);
    *words = [
        u32::from(session.settings.limit),
        u32::from(session.settings.resends),
        session.capacity,
        0,
        0,
        0,
        0,
        0,
        0,
        maker,
        chip,
        middle,
        bank,
        flags,
    ];
    store(words, session.phase, session.silence, session.resends);
}

fn chip_word(hardware: u8, silicon: u8, first: u16) -> u32
    ensures { result ≡ hardware + 256 * silicon + 65536 * first }
{
    let [low, high] = first.to_le_bytes();
    u32::from_le_bytes([hardware, silicon, low, high])
}

fn bank_word(fourth: u16, bank: u8, flags1: u8) -> u32
    ensures { result ≡ fourth + 65536 * bank + 16777216 * flags1 }
{
    let [low, high] = fourth.to_le_bytes();
    u32::from_le_bytes([low, high, bank, flags1])
}

fn flags_word(flags2: u8, flags3: u8, flags4: u8) -> u32
    ensures { result ≡ flags2 + 256 * flags3 + 65536 * flags4 }
{
    u32::from_le_bytes([flags2, flags3, flags4, 0])
}
