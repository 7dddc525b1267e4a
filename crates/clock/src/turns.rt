// The turns of the scheduled rules, in order: each is evaluated, judged against the rules that fired before it, and done if it fires.
ghost use Rattle.std.specs.Prelude.{◌≡◌, ◌+◌, ◌<◌, ◌≤◌, ◌^◌, length};
ghost use Rattle.conflict.specs.Promises.{fate_of};
ghost use Rattle.meaning.specs.Clock.{is_fired};
ghost use Rattle.clock.specs.Post.{Ends, Settles, Takes, Passes, Stops, Notes, Steps, TurnsAll, Bounded};

use crate::{Outcome, fired};
use conflict::Fate;
use design::plan;
use design::plan::Design;
use rule::{Reason, Taken};

// Where a clock stands between two turns: so many events of the rules that fired stand in the log, and whether one has fired.
#[derive(Clone, Copy)]
pub struct Progress {
    pub calls: usize,
    pub fired: bool,
}

// How all turns of a clock ended, and how many events of the rules that fired stand in the log.
#[derive(Clone, Copy)]
pub struct Came {
    pub outcome: Outcome,
    pub calls: usize,
}

// A rule's fate, and how the clock stands behind its turn.
#[derive(Clone, Copy)]
pub struct Settled {
    pub fate: Fate,
    pub after: Progress,
}

fn fires(fate: Fate) -> bool
    ensures { result ≡ is_fired (fate_of fate) }
{
    fate == Fate::Fired
}

// The fate of a rule whose n events stand behind those of the rules that fired: if it fires, its writes are done and its events stay; otherwise
// they are forgotten.
fn settle(plan: &[u16], state: &mut [i32], log: &[u64], p: Progress, n: usize) -> Settled
    requires { (p.calls + n ≤ length log.now) × (length log.now < 2 ^ 61) }
    ensures { Settles plan.now log.now n p state.old state.new result }
{
    let calls = p.calls;
    let end = calls + n;
    let fate = conflict::judge(plan, &log[..calls], &log[calls..end]);
    if !fires(fate) {
        return Settled { fate, after: p };
    }
    fired::perform(plan, &log[calls..end], state);
    Settled {
        fate,
        after: Progress {
            calls: end,
            fired: true,
        },
    }
}

// One entry of the schedule: the rule of a number sees the registers as they stand now, and records behind the rules that fired.
fn take(
    d: Design,
    state: &mut [i32],
    log: &mut [u64],
    p: Progress,
    rule: usize,
) -> Result<Settled, Reason>
    requires { p.calls + 64 ≤ length log.old }
    ensures { Takes d.entry.file.now d.entry.plan.now p rule state.old log.old state.new log.new result }
{
    let taken = rule::turn(d, state, &mut log[p.calls..], rule);
    match taken {
        Taken::Recorded(n) => Ok(settle(d.plan, state, log, p, n)),
        Taken::Unavailable => Ok(Settled {
            fate: Fate::Unavailable,
            after: p,
        }),
        Taken::Stuck(reason) => Err(reason),
    }
}

// The fates of the entries from one on, which are not reached.
fn pass(fates: &mut [u8], from: usize)
    requires { from ≤ length fates.old }
    ensures { Passes fates.old from fates.new }
{
    fates[from..].fill(u8::from(Fate::NotReached));
}

// The fates of a stuck entry and of those behind it.
fn stop(fates: &mut [u8], from: usize)
    requires { from < length fates.old }
    ensures { Stops fates.old from fates.new }
{
    fates[from] = u8::from(Fate::Stuck);
    pass(fates, from + 1);
}

// A clock's end, where no rule was stuck.
fn ended(p: Progress) -> Came
    ensures { Ends p result }
{
    let outcome = if p.fired {
        Outcome::Fired
    } else {
        Outcome::Quiet
    };
    Came {
        outcome,
        calls: p.calls,
    }
}

// The fate of the entry j, whose turn came to something after so many calls.
fn note(
    fates: &mut [u8],
    j: usize,
    rule: usize,
    calls: usize,
    turned: Result<Settled, Reason>,
) -> Result<Progress, Came>
    requires { j < length fates.old }
    ensures { Notes fates.old j rule calls turned fates.new result }
{
    match turned {
        Ok(s) => {
            fates[j] = u8::from(s.fate);
            Ok(s.after)
        }
        Err(reason) => {
            stop(fates, j);
            Err(Came {
                outcome: Outcome::Stuck(rule, reason),
                calls,
            })
        }
    }
}

// The entry j of the schedule: its rule's turn, and its fate.
fn next(
    d: Design,
    state: &mut [i32],
    fates: &mut [u8],
    log: &mut [u64],
    p: Progress,
    j: usize,
) -> Result<Progress, Came>
    requires { (j < length fates.old) × (p.calls + 64 ≤ length log.old) }
    ensures { Steps d.entry.file.now d.entry.plan.now (length fates.old) p j state.old log.old fates.old state.new log.new fates.new result }
{
    let rule = plan::named(d.plan, j);
    let turned = take(d, state, log, p, rule);
    note(fates, j, rule, p.calls, turned)
}

// All turns, of as many entries as there are fates; where one is stuck, the state is left for the caller to restore.
pub fn turns(d: Design, state: &mut [i32], fates: &mut [u8], log: &mut [u64]) -> Came
    requires { (length fates.old ≤ 64) × (4096 ≤ length log.old) }
    ensures { TurnsAll d.entry.file.now d.entry.plan.now (length fates.old) state.old fates.old state.new fates.new log.new result × Bounded result }
{
    let mut p = Progress {
        calls: 0,
        fired: false,
    };
    for j in 0..fates.len() {
        match next(d, state, fates, log, p, j) {
            Ok(after) => p = after,
            Err(came) => return came,
        }
    }
    ended(p)
}
