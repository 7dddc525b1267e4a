// One clock, a run, and the start values. meaning's Clock, Run and Buffers have what they mean, on lists of events and words; specs/Answers what
// the answers are.
#![tactic(auto)]

mod fired;
mod starts;
mod turns;

ghost use Rattle.std.specs.Prelude.{◌≡◌, ◌≤◌, length};
ghost use Rattle.clock.specs.declared.Refusal.TheVariants.{File};
ghost use Rattle.clock.specs.Answers.{number_of, place_of};
ghost use Rattle.clock.specs.Post.{Sized, Measures, TurnedAll, TicksAlone, Admits, Repeats, RunsOn};
ghost use Rattle.clock.specs.Promises.{Ticks, Clocks, Runs, Starts};

use crate::turns::Came;
use design::plan::Design;
use design::{Planned, Refused, plan};
use rule::Reason;

// Why a caller is refused: by reading, document 01's numbers 1 to 9 with their place, or by a length, 10 to 12.
#[derive(Clone, Copy)]
pub enum Refusal {
    File(Refused),
    State,
    Fates,
    Displays,
}

impl From<Refused> for Refusal {
    ghost from_gives = { λ r why. why ≡ File r };

    fn from(why: Refused) -> Refusal {
        Refusal::File(why)
    }
}

// How a clock ended; a stuck one names the rule and the reason.
#[derive(Clone, Copy)]
pub enum Outcome {
    Fired,
    Quiet,
    Stuck(usize, Reason),
}

// A clock's outcome, and how many displays it made.
#[derive(Clone, Copy)]
pub struct Ticked {
    pub outcome: Outcome,
    pub displays: usize,
}

#[derive(Clone, Copy)]
pub enum Ending {
    Limit,
    Quiet,
    Stuck(usize, Reason),
}

// A run's ending, and the count of clocks in which a rule fired.
#[derive(Clone, Copy)]
pub struct Ran {
    pub ending: Ending,
    pub count: u32,
}

// "11: fate buffer under 64 entries", "12: display buffer under 4,096 entries"; a log has room for what 64 rules record.
const MOST_ENTRIES: usize = 64;

const MOST_INSTANCES: usize = 64;

const MOST_DISPLAYS: usize = 4096;

const LOG: usize = 4096;

// Document 01's number of a refusal.
#[tactic(auto, unfolding(crate::specs::Answers::number_of))]
pub fn number(why: Refusal) -> usize
    ensures { result ≡ number_of why }
{
    match why {
        Refusal::File(refused) => design::number(refused.fault),
        Refusal::State => 10,
        Refusal::Fates => 11,
        Refusal::Displays => 12,
    }
}

// Its place; a length has none.
#[tactic(auto, unfolding(crate::specs::Answers::place_of))]
pub fn place(why: Refusal) -> usize
    ensures { result ≡ place_of why }
{
    match why {
        Refusal::File(refused) => refused.place,
        Refusal::State | Refusal::Fates | Refusal::Displays => 0,
    }
}

fn has_room(scheduled: usize, instances: usize, fates: usize, log: usize) -> bool
    ensures { Measures scheduled instances fates log result }
{
    scheduled <= MOST_ENTRIES && instances <= MOST_INSTANCES && MOST_ENTRIES <= fates && LOG <= log
}

// All turns, of as many entries as there are fates; a stuck clock restores the state. File and plan come apart, so that the compiler sees in
// all of them how long every caller's plan is.
fn turn_all(file: &[u8], plan: &[u16], state: &mut [i32], fates: &mut [u8], log: &mut [u64]) -> Came
    requires { Sized (length state.old) (length fates.old) (length log.old) }
    ensures { TurnedAll file.now plan.now (length fates.old) state.old fates.old state.new fates.new log.new result }
{
    let mut saved = [0i32; MOST_INSTANCES];
    saved[..state.len()].copy_from_slice(state);
    let turns = turns::turns(Design { file, plan }, state, fates, log);
    match turns.outcome {
        Outcome::Fired | Outcome::Quiet => turns,
        Outcome::Stuck(_, _) => {
            let n = state.len();
            state[..n].copy_from_slice(&saved[..n]);
            turns
        }
    }
}

// One clock of a design at hand. The caller lends a log, room for 4,096 events, so that a run does not clear it at each clock.
pub fn tick(
    d: Design,
    state: &mut [i32],
    fates: &mut [u8],
    displays: &mut [i32],
    log: &mut [u64],
) -> Ticked
    ensures { Ticks d.entry.file.now d.entry.plan.now state.old fates.old displays.old log.old state.new fates.new displays.new result }
{
    let nothing = Ticked {
        outcome: Outcome::Quiet,
        displays: 0,
    };
    let count = plan::scheduled(d.plan);
    if !has_room(count, state.len(), fates.len(), log.len()) {
        return nothing;
    }
    if displays.len() < MOST_DISPLAYS {
        return nothing;
    }
    let turns = turn_all(d.file, d.plan, state, &mut fates[..count], log);
    let made = fired::display(&log[..turns.calls], displays);
    Ticked {
        outcome: turns.outcome,
        displays: made,
    }
}

// The design that a file holds, where a state has a word for each of its instances.
fn admit(file: &[u8], states: usize) -> Result<Planned, Refusal>
    ensures { Admits file.now states result }
{
    let p = design::plan_of(file)?;
    if states != p.counts.instances {
        return Err(Refusal::State);
    }
    Ok(p)
}

// One clock, with a log of its own.
fn tick_alone(d: Design, state: &mut [i32], fates: &mut [u8], displays: &mut [i32]) -> Ticked
    ensures { TicksAlone d.entry.file.now d.entry.plan.now state.old fates.old displays.old state.new fates.new displays.new result }
{
    let mut log = [0u64; LOG];
    tick(d, state, fates, displays, &mut log)
}

// One clock of the design that a file holds.
pub fn clock(
    file: &[u8],
    state: &mut [i32],
    fates: &mut [u8],
    displays: &mut [i32],
) -> Result<Ticked, Refusal>
    ensures { Clocks file.now state.old fates.old displays.old state.new fates.new displays.new result }
{
    let p = admit(file, state.len())?;
    if fates.len() < MOST_ENTRIES {
        return Err(Refusal::Fates);
    }
    if displays.len() < MOST_DISPLAYS {
        return Err(Refusal::Displays);
    }
    let plan = &p.plan;
    Ok(tick_alone(Design { file, plan }, state, fates, displays))
}

// Up to n clocks, with buffers for each clock to write over.
fn repeat(d: Design, state: &mut [i32], fates: &mut [u8], log: &mut [u64], n: u32) -> Ran
    requires { Sized (length state.old) (length fates.old) (length log.old) }
    ensures { Repeats d.entry.file.now d.entry.plan.now (length fates.old) state.old n state.new result }
{
    for done in 0..n {
        let turns = turn_all(d.file, d.plan, state, fates, log);
        match turns.outcome {
            Outcome::Fired => {}
            Outcome::Quiet => {
                return Ran {
                    ending: Ending::Quiet,
                    count: done, // in this clock no rule fired
                };
            }
            Outcome::Stuck(rule, reason) => {
                return Ran {
                    ending: Ending::Stuck(rule, reason),
                    count: done,
                };
            }
        }
    }
    Ran {
        ending: Ending::Limit,
        count: n,
    }
}

// The same, with buffers of its own: a run keeps no fates and no displays.
fn clocks(d: Design, state: &mut [i32], n: u32) -> Ran
    ensures { RunsOn d.entry.file.now d.entry.plan.now state.old n state.new result }
{
    let count = plan::scheduled(d.plan);
    let mut fates = [0u8; MOST_ENTRIES];
    let mut log = [0u64; LOG];
    if !has_room(count, state.len(), fates.len(), log.len()) {
        return Ran {
            ending: Ending::Limit,
            count: 0,
        };
    }
    repeat(d, state, &mut fates[..count], &mut log, n)
}

// A run of n clocks of the design that a file holds.
pub fn run(file: &[u8], state: &mut [i32], n: u32) -> Result<Ran, Refusal>
    ensures { Runs file.now state.old n state.new result }
{
    match admit(file, state.len()) {
        Ok(p) => {
            let plan = &p.plan;
            Ok(clocks(Design { file, plan }, state, n))
        }
        Err(why) => Err(why), // no clock is done
    }
}

// Sets the start values of the design that a file holds.
pub fn start(file: &[u8], state: &mut [i32]) -> Result<(), Refusal>
    ensures { Starts file.now state.old state.new result }
{
    match admit(file, state.len()) {
        Ok(p) => {
            starts::set_all(&p.plan, state);
            Ok(())
        }
        Err(why) => Err(why), // no word is set
    }
}
