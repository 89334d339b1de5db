// Why the program goes no further.
ghost use Rattle.std.specs.Prelude.{◌≡◌};
ghost use Rattle.replay.specs.Turns.{end_of};

use playing::Stop;

#[derive(Clone, Copy, Debug, PartialEq, Eq)]
pub(crate) enum End {
    // Nothing more comes, or nothing more is read behind an unknown kind, and what closes a recording that stops so is written.
    Closed(Stop),
    ReadFailed,
    WriteFailed,
    TooManyReads,
}

// The end of a run whose turns are counted.
pub(crate) fn end_of(end: Option<End>) -> End
    ensures { result ≡ end_of end }
{
    end.unwrap_or(End::TooManyReads)
}
