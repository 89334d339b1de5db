// What every message begins with (001 T5-1, T5-2).
ghost use Rattle.std.specs.Prelude.{◌≡◌};
ghost use Rattle.wire.specs.Header.{headed};

use wire::codes;

pub(crate) fn has_header(msg: &[u8]) -> bool
    ensures { result ≡ headed msg.now }
{
    let n = msg.len();
    if n < codes::SHORTEST {
        return false;
    }
    if codes::LONGEST < n {
        return false;
    }
    msg[0] == codes::VERSION
}
