// The image sum: all accepted bytes added modulo 65,536, wrapping on purpose (01, Sizes and numbers).
ghost use Rattle.std.specs.Prelude.{◌≡◌, take};
ghost use Rattle.image.specs.Sum.{sum_of};

fn sum_all(bytes: &[u8]) -> u16
    ensures { result ≡ sum_of bytes.now }
{
    let mut sum: u16 = 0;
    for byte in bytes {
        sum = sum.wrapping_add(u16::from(*byte));
    }
    sum
}

// Of an image that holds fewer bytes than were accepted, all are added up.
pub fn sum_first(image: &[u8], accepted: usize) -> u16
    ensures { result ≡ sum_of (take accepted image.now) }
{
    sum_all(&image[..accepted.min(image.len())])
}
