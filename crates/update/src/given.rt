// The program's arguments.
ghost use Rattle.std.specs.Prelude.{◌≤◌, length, IfSome};

use crate::page::Streams;
use indoor_state::plan::Release;
use luck::{Luck, Odds};
use std::env::{Env, FillError};
use wire::request::Versions;
use wire::response::Identity;

// The longest argument that can be meant.
const WORD: usize = 16;

// Nine digits, so that the seed has room in 32 bits.
const SEED_MOST: u32 = 999999999;

// Of a hundred messages.
const ODDS_MOST: u32 = 100;

// A version has two bytes (001 T5-6).
const VERSION_MOST: u32 = 65535;

// Where four versions begin: those that the file is offered as, and those that the receiver reports.
const OFFERED: usize = 4;

const REPORTED: usize = 8;

// The arguments that there may be: the seed, how many are lost, how many are repeated, both versions, and `quiet` for the result alone.
const MOST: usize = 12;

const VENDOR: u16 = 0x1209;

const PRODUCT: u16 = 0x0001;

#[derive(Clone, Copy)]
pub(crate) struct Given {
    pub luck: Luck,
    pub identity: Identity,
    pub release: Release,
    pub quiet: bool,
}

// `None` where an argument is none of these, or there are more of them.
pub(crate) fn arguments(rt: &impl Env) -> Option<Given> {
    let seed = number(rt, 1, 9, SEED_MOST)?;
    let odds = Odds {
        loss: number(rt, 2, 10, ODDS_MOST)?,
        again: number(rt, 3, 10, ODDS_MOST)?,
    };
    Some(Given {
        luck: Luck::seeded(seed, odds),
        release: release(versions(rt, OFFERED, 2)?),
        identity: identity(versions(rt, REPORTED, 1)?),
        quiet: quiet(rt)?,
    })
}

// What the receiver reports.
fn identity(versions: Versions) -> Identity {
    Identity {
        vendor: VENDOR,
        product: PRODUCT,
        hardware: 0,
        silicon: 0,
        versions,
        bank: 0,
        flags1: 0,
        flags2: 0,
        flags3: 0,
        flags4: 0,
    }
}

// What the file is offered as.
fn release(versions: Versions) -> Release {
    Release {
        vendor: VENDOR,
        product: PRODUCT,
        versions,
    }
}

pub(crate) fn usage(to: Streams) {
    to.complain(
        "usage: update [SEED [LOST [REPEATED [4 OFFERED [4 REPORTED [quiet]]]]]], up to 999999999, 100, 100, 65535, 65535",
    );
}

// The four arguments from this place on. Where one is not there it is that of 3.2.0.0 or of 3.1.0.0, whose second number is `usual`.
fn versions(rt: &impl Env, place: usize, usual: u32) -> Option<Versions>
    requires { place ≤ 8 }
{
    Some(Versions {
        first: half(rt, place, 3)?,
        second: half(rt, place + 1, usual)?,
        third: half(rt, place + 2, 0)?,
        fourth: half(rt, place + 3, 0)?,
    })
}

// The version's number at this place.
fn half(rt: &impl Env, place: usize, usual: u32) -> Option<u16> {
    u16::try_from(number(rt, place, usual, VERSION_MOST)?).ok()
}

// The argument at this place, a number of at most `most`; `usual` where there is none. There is no From of a u32 for a usize.
fn number(rt: &impl Env, place: usize, usual: u32, most: u32) -> Option<u32> {
    let mut word = [0u8; WORD];
    let Some(n) = argument(rt, place, &mut word) else {
        return Some(usual);
    };
    u32::try_from(script::decimal(&word[..n], most as usize)?).ok()
}

// The argument behind the versions can only be `quiet`, and is the last.
fn quiet(rt: &impl Env) -> Option<bool> {
    let mut word = [0u8; WORD];
    let Some(n) = argument(rt, MOST, &mut word) else {
        return Some(false);
    };
    let is_last = argument(rt, MOST + 1, &mut [0u8; WORD]).is_none();
    (is_last && &word[..n] == b"quiet".as_slice()).then_some(true)
}

// How long the argument at this place is, 0 where it is longer than any that can be meant. The program's own name is at place 0.
fn argument(rt: &impl Env, place: usize, word: &mut [u8]) -> Option<usize>
    ensures { IfSome result (λ n. n ≤ length word.new) }
{
    match rt.arg(place, word) {
        Ok(n) => Some(n),
        Err(FillError::NotPresent) => None,
        Err(FillError::TooLong) => Some(0),
    }
}
