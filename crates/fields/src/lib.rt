// An identity without its reserved bits (001 T5-18).
#![tactic(auto)]

ghost use Rattle.std.specs.Prelude.{◌≡◌};
ghost use Rattle.wire.specs.Identity.{cleared};

use wire::response::Identity;

// The reserved bits of 001 T5-18 are zero when written and cleared when read.
pub fn cleared(identity: Identity) -> Identity
    ensures { result ≡ cleared identity }
{
    Identity {
        silicon: identity.silicon / 16 * 16,
        flags1: identity.flags1 % 16,
        flags2: identity.flags2 % 4,
        flags3: identity.flags3 % 32,
        flags4: identity.flags4 % 16,
        ..identity
    }
}
