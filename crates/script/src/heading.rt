// Which lines ask for an answer: an empty line and a comment are headings, and ask for none.
ghost use Rattle.std.specs.Prelude.{◌≡◌};
ghost use Rattle.script.specs.Heading.{heading_of, asks_of};

pub fn asks(line: &[u8]) -> bool
    ensures { result ≡ asks_of line.now }
{
    !is_heading(line)
}

#[tactic(auto, using(basis::specs::Pick::tests), unfolding(crate::specs::Heading::heading_of))]
fn is_heading(line: &[u8]) -> bool
    ensures { result ≡ heading_of line.now }
{
    matches!(line, [] | [b'#', ..])
}
