// Why the receiver gives no image sum (01, Sizes and numbers).
ghost use Rattle.receiver_state.specs.Sum.{length_number_of};

use numbers::Numbered;

// The lent memory is not as long as the capacity.
#[derive(Clone, Copy)]
pub struct ImageLength;

// 01, Numbers we answer.
impl Numbered for ImageLength {
    ghost number_of = { length_number_of };

    fn number(self) -> u8 {
        28
    }
}
