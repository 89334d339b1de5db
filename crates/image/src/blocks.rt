// How many blocks a file has, where one lies, and one put in place or taken out (01, Sizes and numbers).
ghost use Rattle.std.specs.Prelude.{◌≡◌};
ghost use Rattle.basis.specs.Left.{left};
ghost use Rattle.image.specs.Blocks.{blocks_of, place_of, block_passes_of, put_block_of, block_at};

use lent::NoRoom;

// The bytes of a block (001 T5-8); a file's last may have fewer.
pub const BLOCK: usize = 256;

#[tactic(auto, unfolding(crate::specs::Blocks::blocks_of))]
pub fn blocks_in(len: usize) -> usize
    ensures { result ≡ blocks_of len }
{
    len.div_ceil(BLOCK)
}

pub fn place_of(number: u16) -> usize
    ensures { result ≡ place_of number }
{
    BLOCK * usize::from(number)
}

// The end of the block is never added up, since a large size could wrap it.
pub fn passes(number: u16, size: usize, capacity: usize) -> bool
    ensures { result ≡ block_passes_of number size capacity }
{
    let at = place_of(number);
    if capacity < at {
        return true;
    }
    if capacity - at < size {
        return true;
    }
    false
}

pub fn put_block(image: &mut [u8], number: u16, block: &[u8]) -> Result<(), NoRoom>
    ensures { left result image.new ≡ put_block_of image.old number block.now }
{
    let at = place_of(number);
    lent::put(image, at, block)
}

// A part of the file: nothing is copied.
pub fn block_at(file: &[u8], number: u16) -> &[u8]
    ensures { result.now ≡ block_at file.now number }
{
    let at = place_of(number);
    let n = file.len();
    if n < at {
        return &file[n..];
    }
    if n - at < BLOCK {
        return &file[at..];
    }
    let end = at + BLOCK;
    &file[at..end]
}
