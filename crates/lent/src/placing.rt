// Bytes put into lent memory at a place: blocks, responses and padded arrays all go through this one copy.
ghost use Rattle.std.specs.Prelude.{◌≡◌, ◌+◌, ◌≤◌, length};
ghost use Rattle.basis.specs.Left.{left};
ghost use Rattle.lent.specs.Put.{pasted, put_of};

// The part passes the end of the memory.
#[derive(Clone, Copy)]
pub struct NoRoom;

// A block of a file, but for its last (01, Sizes and numbers).
const BLOCK: usize = 256;

// `n` is the part's length. Where it is a constant, the compiler copies without a loop; it makes a call of `copy_from_slice`, which costs a block
// 55 instructions more (docs/COSTS.md).
fn paste(dst: &mut [u8], at: usize, src: &[u8], n: usize)
    requires n_value { n ≡ length src.now }
    requires n_in_bounds { at + n ≤ length dst.old }
    ensures { dst.new ≡ pasted dst.old at src.now }
{
    for j in 0..n {
        dst[at + j] = src[j];
    }
}

// The room is tested without a sum, which could wrap at a large place.
#[tactic(auto, using(basis::specs::Pick::tests, crate::proofs::Room::room), unfolding(crate::specs::Put::put_of))]
pub fn put(dst: &mut [u8], at: usize, src: &[u8]) -> Result<(), NoRoom>
    ensures { left result dst.new ≡ put_of dst.old at src.now }
{
    let room = dst.len();
    let n = src.len();
    if room < at {
        return Err(NoRoom);
    }
    if room - at < n {
        return Err(NoRoom);
    }
    if n == BLOCK {
        paste(dst, at, src, BLOCK);
    } else {
        paste(dst, at, src, n);
    }
    Ok(())
}
