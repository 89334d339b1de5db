// What a call returns that writes into a lent buffer: the session after it, the answer, and how many bytes of the buffer were written.
ghost use Rattle.std.specs.Prelude.{◌≡◌};
ghost use Rattle.lent.specs.Outcome.{unwritten};

#[derive(Clone, Copy)]
pub struct Outcome<S, A> {
    pub session: S,
    pub answer: A,
    pub written: usize,
}

impl<S, A> Outcome<S, A> {
    pub fn unwritten(session: S, answer: A) -> Outcome<S, A>
        ensures { result ≡ unwritten session answer }
    {
        Outcome {
            session,
            answer,
            written: 0,
        }
    }
}
