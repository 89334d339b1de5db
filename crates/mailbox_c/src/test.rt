// Whether the words are a mailbox's: each may be only what include/harsolvek.h says of it.
ghost use Rattle.std.specs.Prelude.{◌≡◌, ◌≤◌};
ghost use Rattle.mailbox_c.specs.Running.{code_runs, may_run_of};
ghost use Rattle.mailbox_c.specs.Words.{is_mailbox, changes_within, is_status, is_busy, is_rest, is_idle};

use crate::notifying::notifies;
use crate::place;
use crate::status::{ACKNOWLEDGED, BUSY, COMPLETED};

const COUNT_LEAST: u32 = 1;

const COUNT_MOST: u32 = 8;

// 002, Table A-1.
const CONNECTOR_RESET: u32 = 0x03;

const GET_CAPABILITY: u32 = 0x06;

const GET_CONNECTOR_CAPABILITY: u32 = 0x07;

const GET_CONNECTOR_STATUS: u32 = 0x12;

#[tactic(auto, using(basis::specs::Pick::tests), unfolding(crate::specs::Words::is_mailbox))]
pub(crate) fn is_mailbox(words: &[u32; 10]) -> bool
    ensures { result ≡ is_mailbox words.now }
{
    let count = words[place::CONNECTORS];
    COUNT_LEAST <= count
        && count <= COUNT_MOST
        && within(words[place::SHOWN], words[place::WAITING], count)
        && notifies(words[place::NOTIFICATIONS], words[place::MASK])
        && is_status(words)
}

// The connector shown and those that wait are among so many.
#[tactic(auto, using(basis::specs::Pick::tests), unfolding(crate::specs::Words::changes_within))]
fn within(shown: u32, waiting: u32, count: u32) -> bool
    requires { count ≤ 8 }
    ensures { result ≡ changes_within shown waiting count }
{
    shown <= count && waiting >> count == 0
}

// A command in Busy alone, one that runs, and a length in Completed alone.
#[tactic(auto, using(basis::specs::Pick::tests), unfolding(crate::specs::Words::is_status))]
fn is_status(words: &[u32; 10]) -> bool
    ensures { result ≡ is_status words.now }
{
    match words[place::STATUS] {
        BUSY => is_busy(words),
        code => is_idle(words) && is_rest(code, words[place::LENGTH]),
    }
}

#[tactic(auto, using(basis::specs::Pick::tests), unfolding(crate::specs::Words::is_busy))]
fn is_busy(words: &[u32; 10]) -> bool
    ensures { result ≡ is_busy words.now }
{
    words[place::LENGTH] == 0
        && words[place::NOTIFICATIONS] == 1
        && words[place::RESET_TYPE] <= 255
        && may_run(
            words[place::CODE],
            words[place::CONNECTOR],
            words[place::CONNECTORS],
        )
}

// A code that runs, and its connector, or 0 for none, among so many.
#[tactic(auto, using(basis::specs::Pick::tests), unfolding(crate::specs::Running::may_run_of))]
fn may_run(code: u32, connector: u32, count: u32) -> bool
    ensures { result ≡ may_run_of code connector count }
{
    connector <= count && runs(code)
}

// The codes that the table has as Run, without a look into it.
fn runs(code: u32) -> bool
    ensures { result ≡ code_runs code }
{
    matches!(
        code,
        CONNECTOR_RESET | GET_CAPABILITY | GET_CONNECTOR_CAPABILITY | GET_CONNECTOR_STATUS
    )
}

#[tactic(auto, using(basis::specs::Pick::tests), unfolding(crate::specs::Words::is_rest))]
fn is_rest(code: u32, length: u32) -> bool
    ensures { result ≡ is_rest code length }
{
    match code {
        COMPLETED => length <= 255,
        _ => length == 0 && code <= ACKNOWLEDGED,
    }
}

#[tactic(auto, using(basis::specs::Pick::tests), unfolding(crate::specs::Words::is_idle))]
fn is_idle(words: &[u32; 10]) -> bool
    ensures { result ≡ is_idle words.now }
{
    words[place::CODE] == 0 && words[place::CONNECTOR] == 0 && words[place::RESET_TYPE] == 0
}
