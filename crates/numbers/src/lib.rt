// What is answered, by the number that document 01 gives it (01, Numbers we answer).
#![tactic(auto)]

ghost use Rattle.std.specs.Prelude.{◌≡◌, ℕ};
ghost use Rattle.numbers.specs.Number.{number_in};

pub trait Numbered {
    ghost number_of: { Self → ℕ };

    fn number(self) -> u8
        ensures { result ≡ number_of self };
}

// 0 for what succeeded, and else the refusal's number.
impl<T: Drop, R: Numbered> Numbered for Result<T, R> {
    ghost number_of = { number_in R.number_of };

    fn number(self) -> u8 {
        match self {
            Ok(_) => 0,
            Err(refusal) => refusal.number(),
        }
    }
}
