// A request's block put into the lent image.
ghost use Rattle.std.specs.Prelude.{◌≡◌};
ghost use Rattle.receiver_rules.specs.Request.{HasBlock, image_after};

// The block is the part of the request from its fifth byte (01, Sizes and numbers).
#[tactic(auto, using(basis::specs::Pick::tests), unfolding(receiver_rules::specs::Request::image_after))]
pub(crate) fn apply(image: &mut [u8], request: &[u8], store: Option<u16>)
    requires { HasBlock store request.now }
    ensures { image.new ≡ image_after store image.old request.now }
{
    if let Some(number) = store {
        let _ = image::put_block(image, number, &request[4..]);
    }
}
