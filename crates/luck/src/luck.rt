// What becomes of a message, by a seed: it is lost, arrives, or arrives and stays on its way to arrive once more.
ghost use Rattle.std.specs.Prelude.{◌≡◌};
ghost use Rattle.luck.specs.Luck.{seeded_of, next_luck, percent_of, fate_of, goes_of};

use crate::way::Way;

// In percent: how many messages are lost, and how many of those that arrive come once more.
#[derive(Clone, Copy)]
pub struct Odds {
    pub loss: u32,
    pub again: u32,
}

#[derive(Clone, Copy)]
pub struct Luck {
    pub word: u32,
    pub odds: Odds,
}

// A message arrives. `stays`: it will arrive once more.
#[derive(Clone, Copy)]
pub struct Arrival {
    pub stays: bool,
}

// The message that goes next, `rises` for a request, and how it arrives: not at all where it is lost, or there is none. `luck` is the
// generator for the message after it.
#[derive(Clone, Copy)]
pub struct Going {
    pub luck: Luck,
    pub rises: bool,
    pub way: Way,
    pub fate: Option<Arrival>,
}

impl Luck {
    #[tactic(auto, unfolding(crate::specs::Luck::goes_of))]
    pub fn goes(self, rising: Way, falling: Way) -> Going
        ensures { result ≡ goes_of self rising falling }
    {
        let rises = rising.rises(falling);
        let way = rising.next(falling, rises);
        Going {
            luck: self.next().next(),
            rises,
            way,
            fate: self.fate(way),
        }
    }

    // The seed is brought into 1 to 2^31 - 2, the words that the generator has.
    #[tactic(auto, unfolding(crate::specs::Luck::seeded_of))]
    pub fn seeded(seed: u32, odds: Odds) -> Luck
        ensures { result ≡ seeded_of seed odds }
    {
        let first = Luck {
            word: seed % 2147483646 + 1,
            odds,
        };
        first.next()
    }

    // Lehmer's generator with the prime 2^31 - 1, which needs a word that is not 0. The remainder is below the prime, so that its cast loses
    // nothing.
    #[tactic(auto, unfolding(crate::specs::Luck::next_luck))]
    fn next(self) -> Luck
        ensures { result ≡ next_luck self }
    {
        let word = u64::from(self.word) * 48271 % 2147483647;
        Luck {
            word: word as u32,
            ..self
        }
    }

    #[tactic(auto, unfolding(crate::specs::Luck::percent_of))]
    fn percent(self) -> u32
        ensures { result ≡ percent_of self }
    {
        self.word % 100
    }

    // A repeat always arrives, and does not come a third time.
    #[tactic(auto, using(basis::specs::Pick::tests), unfolding(crate::specs::Luck::fate_of))]
    fn fate(self, way: Way) -> Option<Arrival>
        ensures { result ≡ fate_of self way }
    {
        if way.bytes == 0 {
            return None;
        }
        if way.again {
            return Some(Arrival { stays: false });
        }
        let odds = self.odds;
        if self.percent() < odds.loss {
            return None;
        }
        let other = self.next();
        Some(Arrival {
            stays: other.percent() < odds.again,
        })
    }
}
