// What comes with each request (01, The receiver's phases). Checking the signature is not built here.

// The verdict on the image.
#[derive(Clone, Copy)]
pub enum Verdict {
    Good,
    Bad,
    Later(u8),
}

// `readiness` is the wait before the next block.
#[derive(Clone, Copy)]
pub struct Given {
    pub readiness: u8,
    pub verdict: Verdict,
}
