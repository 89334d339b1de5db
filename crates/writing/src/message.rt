// A message to be written, and the one routine that puts it into a lent buffer.
ghost use Rattle.std.specs.Prelude.{◌≡◌, ◌≤◌, length};
ghost use Rattle.basis.specs.Left.{left};
ghost use Rattle.writing.specs.Message.{most, message_of, sent_of, send_of};

use wire::codes;

// The longest message that has no block is a GET_FW_ID response (001 T5-18).
const MOST: usize = codes::GET_FW_ID_RESPONSE_LENGTH;

// There is no model of it as its bytes alone: the contracts give the zeros behind them too, and what `send` does with any length.
#[derive(Clone, Copy)]
pub struct Message {
    pub bytes: [u8; MOST],
    pub len: usize,
}

// The buffer, or the message's own array, is shorter than the message's length.
#[derive(Clone, Copy)]
pub struct TooShort;

// These bytes, and zeros behind them.
pub(crate) fn made(bytes: &[u8]) -> Message
    requires { length bytes.now ≤ most }
    ensures { result ≡ message_of bytes.now }
{
    let mut all = [0u8; MOST];
    let _ = lent::put(&mut all, 0, bytes);
    Message {
        bytes: all,
        len: bytes.len(),
    }
}

impl Message {
    pub fn send(self, out: &mut [u8]) -> Result<usize, TooShort>
        ensures { left result out.new ≡ send_of self out.old }
    {
        lead(out, self.bytes, self.len)
    }
}

#[tactic(auto, using(basis::specs::Pick::tests), unfolding(crate::specs::Message::sent_of))]
fn lead(out: &mut [u8], bytes: [u8; MOST], len: usize) -> Result<usize, TooShort>
    ensures { left result out.new ≡ sent_of bytes len out.old }
{
    if MOST < len {
        return Err(TooShort);
    }
    if out.len() < len {
        return Err(TooShort);
    }
    let _ = lent::put(out, 0, &bytes[..len]);
    Ok(len)
}
