// Parts of a slice, whatever place and count are wanted: what is not there is left out.
ghost use Rattle.std.specs.Prelude.{◌≡◌, min, length, take, drop};

pub fn from(s: &[u8], at: usize) -> &[u8]
    ensures { result.now ≡ drop at s.now }
{
    s.get(at..).unwrap_or(&[])
}

pub fn upto(s: &[u8], n: usize) -> &[u8]
    ensures { result.now ≡ take n s.now }
{
    s.get(..n).unwrap_or(s)
}

// How much of a memory a call borrows: as much as is wanted, at most all of it.
pub fn part_of(memory: &[u8], wanted: usize) -> usize
    ensures { result ≡ min wanted (length memory.now) }
{
    wanted.min(memory.len())
}
