// The blocks of a file and the bytes that were accepted (01, Sizes and numbers).
#![tactic(auto)]

mod blocks;
mod sum;

pub use blocks::{BLOCK, block_at, blocks_in, passes, place_of, put_block};
pub use sum::sum_first;
