// A look at a memory, to see what a call wrote and what it kept.
ghost use Rattle.std.specs.Prelude.{◌≡◌};
ghost use Rattle.saying.specs.Look.{look_of};

use crate::said::Said;
use script::Field;

// The line's two numbers are a place and a count. Bytes past the memory's end, and more than a line can spell, are not understood.
#[tactic(auto, using(basis::specs::Pick::tests), unfolding(crate::specs::Look::look_of))]
pub fn look(words: &[u8], memory: &[u8]) -> Option<Said>
    ensures { result ≡ look_of words.now memory.now }
{
    let place = Field::none().next(words, memory.len()).ok()?;
    let count = place.next(words, script::ROOM).ok()?;
    if !count.is_last(words) {
        return None;
    }
    let behind = script::from(memory, place.value);
    if behind.len() < count.value {
        return None;
    }
    Some(Said::nothing().shown(script::upto(behind, count.value)))
}
