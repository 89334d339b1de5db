// How many messages were sent, lost, repeated and replaced.
use luck::{Answered, Going, Lost, Went};
use std::fmt;

// `pushed` counts those that a newer message replaced before they arrived. Each of the five counts something else, and has a name for it.
#[derive(Clone, Copy)]
pub(crate) struct Counts {
    requests: u32,
    responses: u32,
    lost: u32,
    again: u32,
    pushed: u32,
}

impl Counts {
    // The indoor end's start has sent GET_FW_ID.
    pub(crate) fn first() -> Counts {
        Counts {
            requests: 1,
            responses: 0,
            lost: 0,
            again: 0,
            pushed: 0,
        }
    }

    // At most one message went.
    pub(crate) fn carried(self, going: Going, went: Went) -> Counts {
        match went {
            None => self,
            Some(Err(Lost)) => Counts {
                lost: plus(self.lost, true),
                ..self
            },
            Some(Ok(answered)) => self.arrived(going, answered),
        }
    }

    fn arrived(self, going: Going, answered: Answered) -> Counts {
        let counted = Counts {
            again: plus(self.again, going.way.again),
            ..self
        };
        if going.rises {
            return counted.above(answered);
        }
        counted.below(answered)
    }

    // The receiver was called. This and `below` differ in the field that counts what was sent, which no parameter can name.
    pub(crate) fn above(self, answered: Answered) -> Counts {
        Counts {
            responses: plus(self.responses, answered.sent),
            pushed: plus(self.pushed, answered.pushed),
            ..self
        }
    }

    // The indoor end was called.
    pub(crate) fn below(self, answered: Answered) -> Counts {
        Counts {
            requests: plus(self.requests, answered.sent),
            pushed: plus(self.pushed, answered.pushed),
            ..self
        }
    }
}

impl fmt::Display for Counts {
    fn fmt<W: fmt::Write>(&self, f: &mut fmt::Formatter<W>) -> fmt::Result {
        let Counts {
            requests,
            responses,
            lost,
            again,
            pushed,
        } = *self;
        write!(
            f,
            "{requests} requests, {responses} responses; {lost} lost, {again} repeated, {pushed} replaced by a newer one"
        )
    }
}

fn plus(count: u32, one: bool) -> u32 {
    count.wrapping_add(u32::from(one))
}
