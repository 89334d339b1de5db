// A message written into a lent buffer.
use saying::Said;
use writing::Message;

// The buffer is full of EE first, so that a byte which is not written shows. Of a message that is not built nothing is written.
pub(crate) fn add(said: Said, message: Message) -> Said {
    let mut buffer = [0xEEu8; 22];
    let n = message.send(&mut buffer).unwrap_or(0);
    said.text(b" :").shown(script::upto(&buffer, n))
}
