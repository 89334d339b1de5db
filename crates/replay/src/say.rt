// What goes to standard output: the lines of a part, what closes a recording, and nothing else. Standard error is told of a write that fails
// and of a run that made too many reads.
ghost use Rattle.std.specs.Prelude.{◌≡◌};
ghost use Rattle.playing.specs.Part.{ending_text};
ghost use Rattle.playing.specs.Parts.{roomy_of};

use crate::end::End;
use mailbox_state::mailbox::Mailbox;
use playing::Stop;

// `mailbox` and `part` are here for the contract alone: the text has to be what the part prints where it is played on the mailbox.
pub(crate) fn lines(rt: &HostRuntime, text: &[u8], mailbox: Mailbox, part: &[u8]) -> bool
    requires { text.now ≡ (roomy_of mailbox part.now).text }
{
    is_written(rt, text)
}

// `stop` is here for the contract too: the text has to be what closes a recording that stops so.
pub(crate) fn last(rt: &HostRuntime, text: &[u8], stop: Stop) -> bool
    requires { text.now ≡ ending_text stop }
{
    is_written(rt, text)
}

// The error is told here, and that there was one is all that is handed on.
fn is_written(rt: &HostRuntime, text: &[u8]) -> bool {
    match rt.write_all(text) {
        Ok(()) => true,
        Err(error) => {
            let _ = eprintln!(rt; "write: {error}");
            false
        }
    }
}

// A read or a write that failed is told where it fails.
pub(crate) fn tell(rt: &HostRuntime, end: End) {
    match end {
        End::Closed(_) | End::ReadFailed | End::WriteFailed => {}
        End::TooManyReads => {
            let _ = eprintln!(rt;
                "replay: too many reads, the rest of the recording was not played"
            );
        }
    }
}
