// A message on its way in one direction: how many bytes of its buffer it takes, and whether it has arrived before. It takes 0 where there is
// none, as `written` of the calls for C says it (include/harsolvek.h).
ghost use Rattle.std.specs.Prelude.{◌≡◌};
ghost use Rattle.luck.specs.Way.{no_message, way_of, message_on_way, rises_of, next_way, after_arrival_of, after_write_of, pushed_of};

#[derive(Clone, Copy)]
pub struct Way {
    pub bytes: usize,
    pub again: bool,
}

impl Way {
    pub(crate) fn nothing() -> Way
        ensures { result ≡ no_message }
    {
        Way::sent(0)
    }

    // A message of this length that was just sent; with 0 bytes nothing was sent.
    pub fn sent(bytes: usize) -> Way
        ensures { result ≡ way_of bytes }
    {
        Way {
            bytes,
            again: false,
        }
    }

    // The message's bytes; all of a buffer that is shorter than the message is said to be.
    #[tactic(auto, using(crate::proofs::Parts::short))]
    pub fn message(self, buffer: &[u8]) -> &[u8]
        ensures { result.now ≡ message_on_way self buffer.now }
    {
        let n = self.bytes;
        if buffer.len() < n {
            return buffer;
        }
        &buffer[..n]
    }

    // The request goes next if no response is on its way or if it is a repeat; otherwise the response does.
    #[tactic(auto, using(basis::specs::Pick::tests))]
    pub(crate) fn rises(self, falling: Way) -> bool
        ensures { result ≡ rises_of self falling }
    {
        if self.bytes == 0 {
            return false;
        }
        if falling.bytes == 0 {
            return true;
        }
        self.again
    }

    #[tactic(auto, using(basis::specs::Pick::tests))]
    pub(crate) fn next(self, falling: Way, rises: bool) -> Way
        ensures { result ≡ next_way self falling rises }
    {
        if rises {
            return self;
        }
        falling
    }

    // What is on its way after a message has arrived: the same message once more, or nothing.
    #[tactic(auto, using(basis::specs::Pick::tests))]
    pub fn behind(self, stays: bool) -> Way
        ensures { result ≡ after_arrival_of self stays }
    {
        if stays {
            return Way {
                again: true,
                ..self
            };
        }
        Way::nothing()
    }

    // What is on its way after a call that wrote this many bytes.
    #[tactic(auto, using(basis::specs::Pick::tests))]
    pub fn after(self, written: usize) -> Way
        ensures { result ≡ after_write_of self written }
    {
        if written == 0 {
            return self;
        }
        Way::sent(written)
    }

    // Whether the message of such a call has replaced one that never arrived.
    #[tactic(auto, using(basis::specs::Pick::tests))]
    pub(crate) fn pushed(self, written: usize) -> bool
        ensures { result ≡ pushed_of self written }
    {
        if written == 0 {
            return false;
        }
        if self.again {
            return false;
        }
        0 < self.bytes
    }
}
