// A recording that is played on a fresh mailbox (01, Replay program).
use crate::ending;
use playing::Stop;
use saying::Said;

pub(crate) fn show(recording: &[u8], output: &mut [u8]) -> Said {
    let played = playing::play(playing::begin(), recording, output);
    let said = Said::nothing()
        .number(played.taken as u64)
        .number(played.written as u64);
    why(said, played.stop)
        .text(b" :")
        .lines(script::upto(output, played.written))
        .text(b" :")
        .lines(playing::closing(played.stop).text())
}

fn why(said: Said, stop: Stop) -> Said {
    match stop {
        Stop::Ended(ending) => ending::add(said, ending),
        Stop::Full => said.text(b" full"),
    }
}
