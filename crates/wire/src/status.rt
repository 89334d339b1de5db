// The statuses that document 01 has us answer with, out of 001 T5-29, and their codes.
ghost use Rattle.std.specs.Prelude.{◌≡◌};
ghost use Rattle.wire.specs.Status.{code_of};

#[derive(Clone, Copy)]
pub enum Status {
    Ok,
    File,
    Address,
    UnexpectedRequest,
}

impl From<Status> for u8 {
    ghost from_gives = { λ status code. code ≡ code_of status };

    fn from(status: Status) -> u8 {
        match status {
            Status::Ok => 0x00,
            Status::File => 0x02,
            Status::Address => 0x08,
            Status::UnexpectedRequest => 0x82,
        }
    }
}
