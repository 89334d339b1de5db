// What a file is offered as: the last six numbers of a line, the vendor, the product and four versions.
use indoor_state::plan::Release;
use script::Field;
use wire::request::Versions;

pub(crate) fn behind(before: Field, words: &[u8]) -> Option<Release> {
    let vendor = before.next(words, 65535).ok()?;
    let product = vendor.next(words, 65535).ok()?;
    let first = product.next(words, 65535).ok()?;
    let second = first.next(words, 65535).ok()?;
    let third = second.next(words, 65535).ok()?;
    let fourth = third.next(words, 65535).ok()?;
    if !fourth.is_last(words) {
        return None;
    }
    Some(Release {
        vendor: vendor.word(),
        product: product.word(),
        versions: Versions {
            first: first.word(),
            second: second.word(),
            third: third.word(),
            fourth: fourth.word(),
        },
    })
}
