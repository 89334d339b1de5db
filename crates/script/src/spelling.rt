// The bytes that words spell.
ghost use Rattle.std.specs.Prelude.{◌≡◌, ◌+◌, ◌≤◌, length, replicate};
ghost use Rattle.std.proofs.Math.Seq.{paste};
ghost use Rattle.script.specs.Spelling.{spelled_room, spelled_bytes_of, spell_of};

use crate::parts::upto;
use crate::run::run_of;
use crate::words::{first, rest};

// Room for messages longer than the 260 bytes of document 01, and for more than the 255 of a success.
pub const ROOM: usize = 320;

// The bytes are at the start of the array, zeros after them. There is no model of it as its bytes alone: the contract of `spell` gives the
// zeros too.
#[derive(Clone, Copy)]
pub struct Spelled {
    pub len: usize,
    pub bytes: [u8; ROOM],
}

impl Spelled {
    pub fn as_bytes(&self) -> &[u8]
        ensures { result.now ≡ spelled_bytes_of self.now }
    {
        upto(&self.bytes, self.len)
    }
}

// What does not fit is left out. The words are not split at their spaces: `spell_of` drops the first byte whatever it is.
pub fn spell(words: &[u8]) -> Option<Spelled>
    ensures { result ≡ spell_of words.now }
{
    let mut bytes = [0; ROOM];
    let mut len = 0;
    let mut words = words;
    while let [_, behind @ ..] = words {
        let run = run_of(first(behind))?;
        let n = run.times.min(ROOM - len);
        fill(&mut bytes, len, run.byte, n);
        len += n;
        words = rest(behind);
    }
    Some(Spelled { len, bytes })
}

// A function of its own: within the loop the proof does not see what a range that is filled leaves.
fn fill(out: &mut [u8; ROOM], from: usize, byte: u8, n: usize)
    requires n_bound { from + n ≤ spelled_room }
    requires out_len { length out.old ≡ spelled_room }
    ensures { out.new ≡ paste out.old from (replicate n byte) n }
{
    out[from..from + n].fill(byte);
}
