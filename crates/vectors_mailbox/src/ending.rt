// Why no record is found at a place of a recording (01, Replay program).
use recording::Ending;
use saying::Said;

pub(crate) fn add(said: Said, ending: Ending) -> Said {
    match ending {
        Ending::Whole => said.text(b" end"),
        Ending::Cut => said.text(b" cut"),
        Ending::UnknownKind => said.text(b" unknown"),
    }
}
