// The result of the session, printed at its end.
ghost use Rattle.std.specs.Prelude.{◌≡◌, true};
ghost use Rattle.indoor_state.specs.declared.phase.Phase.TheVariants.{Done};
ghost use Rattle.lossy_session.specs.Judge.{reports_done};
ghost use Rattle.lossy_ends.specs.Over.{Over, Same, Delivered};

use crate::page::{Failed, Streams};
use crate::phases::{IndoorEnd, Receiver as Roof};
use crate::turn::{self, Session};
use crate::words::Version;
use indoor_state::phase::{Phase, Reason};
use indoor_state::session::StartRefused;
use lossy_ends::Ends;
use lossy_session::{Judged, NotStarted};
use numbers::Numbered;
use receiver_state::session::Receiver;
use std::fmt;

// Why no session was started, by its number (01, Numbers we answer).
pub(crate) fn refused(to: Streams, refusal: NotStarted) {
    let number = refusal.number();
    match refusal {
        NotStarted::Indoors(StartRefused::FileSize) => to.complain(format_args!(
            "not started: {number}, the file is empty or above 1,048,575 bytes"
        )),
        _ => to.complain(format_args!("not started: {number}")),
    }
}

// The first line that cannot be written ends the report.
pub(crate) fn ended(to: Streams, session: Session, turns: u32) -> Result<(), Failed>
    requires { Over session.file.now session.ends session.image.now session.up session.down }
{
    let Session {
        ends,
        file,
        image,
        up: _,
        down: _,
        counts,
        luck: _,
    } = session;
    let judged = judge(ends, file, image);
    offered(to, ends)?;
    outcome(to, ends, judged, file, image)?;
    let time = turn::clock(turns);
    to.say(format_args!("{counts}; {time} ms"))?;
    held(to, ends.receiver, image)?;
    equality(to, judged)
}

// Done is reported only where the receiver has marked the file good and holds it (demand 3).
fn judge(ends: Ends, file: &[u8], image: &[u8]) -> Judged
    requires { ends.indoor.state.phase ≡ Done → Delivered file.now ends.receiver image.now }
    ensures done_value { result.done ≡ reports_done ends.indoor.state.phase }
    ensures same { result.same ≡ true → Same file.now ends image.now }
    ensures same_value { Same file.now ends image.now → result.same ≡ true }
    ensures delivered { result.done ≡ true → Delivered file.now ends.receiver image.now }
    ensures same_value_2 { result.done ≡ true → result.same ≡ true }
{
    lossy_session::judge(ends, file, image)
}

// The two versions by which the indoor end judges whether the file is newer (02 a).
fn offered(to: Streams, ends: Ends) -> Result<(), Failed> {
    let offered = Version(ends.indoor.plan.release.versions);
    let reported = Version(ends.receiver.identity.versions);
    to.say(format_args!("offered: {offered}; the receiver reports {reported}"))
}

// What is not done is told on standard error.
fn outcome(to: Streams, ends: Ends, judged: Judged, file: &[u8], image: &[u8]) -> Result<(), Failed>
    requires { judged.done ≡ true → Delivered file.now ends.receiver image.now }
{
    if judged.done {
        return done(to, ends.receiver, file, image);
    }
    let phase = ends.indoor.state.phase;
    let indoors = IndoorEnd(phase);
    let roof = Roof(ends.receiver.phase);
    match phase {
        Phase::Failed(reason) => to.complain(format_args!(
            "not done: {indoors} {}; {roof}",
            Why(reason)
        )),
        _ => to.complain(format_args!("not done: {indoors}; {roof}")),
    }
    Ok(())
}

// Only this function has the sentence, so that it is proved to be true wherever it is told.
fn done(to: Streams, _receiver: Receiver, _file: &[u8], _image: &[u8]) -> Result<(), Failed>
    requires { Delivered _file.now _receiver _image.now }
{
    to.say("done: the receiver has marked the image good")
}

// 01, Numbers we answer.
#[derive(Clone, Copy)]
struct Why(Reason);

impl fmt::Display for Why {
    fn fmt<W: fmt::Write>(&self, f: &mut fmt::Formatter<W>) -> fmt::Result {
        let number = self.0.number();
        let name = match self.0 {
            Reason::Silence => "silence",
            Reason::Refused => "refused",
            Reason::NotNewer => "not newer",
            Reason::TooLarge => "too large",
            Reason::WrongNumber => "a wrong number",
            Reason::NotValid => "not valid",
        };
        write!(f, "{number}, {name}")
    }
}

// How many bytes the receiver has accepted, and their sum (01, Sizes and numbers).
fn held(to: Streams, receiver: Receiver, image: &[u8]) -> Result<(), Failed> {
    let bytes = receiver_decide::accepted(receiver.phase).bytes;
    match receiver::sum(receiver, image) {
        Ok(sum) => to.say(format_args!("image: {bytes} bytes, sum {sum}")),
        Err(_) => to.say(format_args!("image: {bytes} bytes, sum unknown")),
    }
}

fn equality(to: Streams, judged: Judged) -> Result<(), Failed> {
    if judged.same {
        return to.say("the image equals the file");
    }
    to.say("the image differs from the file")
}
