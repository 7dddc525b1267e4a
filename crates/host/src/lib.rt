// The library as other languages call it: numbers and slices only. specs/Packed says how an answer is one number.
#![tactic(auto)]

ghost use Rattle.std.specs.Prelude.{◌≡◌, ◌+◌, ◌*◌, ◌≤◌};
ghost use Rattle.design.specs.Records.{reading};
ghost use Rattle.design.specs.Answers.{summary};
ghost use Rattle.design.specs.Parts.{rule_in, method_in};
ghost use Rattle.clock.specs.Answers.{number_of, place_of, ticked_of, clocked_of, ending_of, ran_of, started_of};
ghost use Rattle.clock.specs.Promises.{Small, ClockBounded, EndingNamed, RunBounded, StartBounded};
ghost use Rattle.meaning.specs.Check.{check_file};
ghost use Rattle.host.specs.Packed as P;
ghost use Rattle.host.specs.Packed.{refusal_of, counts_of, part_number, ticked_number, clocked_number, counted_number, ending_number, started_number, verdict_number};
ghost use Rattle.host.specs.Covers.{Clocks, Prepares, Ticks, Runs, Starts, Unstuck, Places, Packs};

use checker::Failure;
use clock::{Ending, Outcome, Ran, Refusal, Ticked};
use design::Span;
use design::plan::{self, Design, PLAN};

// What a caller lends: "11: fate buffer under 64 entries", "12: display buffer under 4,096 entries"; and a log, room for what 64 rules record.
const FATES: usize = 64;

const DISPLAYS: usize = 4096;

const LOG: usize = 4096;

// What the second, third and fourth byte of an answer count.
const SECOND: usize = 256;

const THIRD: usize = 65536;

const FOURTH: usize = 16777216;

// The number of a run that ended quiet.
const QUIET: usize = 100;

// Refusals of a plan and a log that are too short, behind document 01's.
const SHORT_PLAN: usize = 13;

const SHORT_LOG: usize = 14;

// Reading: 0, or the number of the refusal and 256 times its place.
#[tactic(auto, using(crate::proofs::Packing::place_small, crate::proofs::Packing::refusal_is, crate::proofs::Packing::no_refusal))]
#[unsafe(no_mangle)]
pub extern "C" fn cantaribol_read(file: &[u8]) -> usize
    ensures { result ≡ refusal_of (summary (reading file.now)) }
{
    match design::read(file) {
        Ok(_) => 0,
        Err(why) => design::number(why.fault) + SECOND * why.place,
    }
}

// How much a design holds: instances, methods, rules and schedule entries, a byte each; 0 where the file is refused.
#[tactic(auto, using(crate::proofs::Packing::counts_are, crate::proofs::Packing::no_counts), unfolding(design::specs::Reads::Bounded))]
#[unsafe(no_mangle)]
pub extern "C" fn cantaribol_counts(file: &[u8]) -> usize
    ensures { result ≡ counts_of (summary (reading file.now)) }
{
    match design::read(file) {
        Ok(c) => c.instances + SECOND * c.methods + THIRD * c.rules + FOURTH * c.scheduled,
        Err(_) => 0,
    }
}

// A part: 65536 times its start, and its size; 0 for the empty part.
fn part(span: Span) -> usize
    requires { span.start + span.size ≤ 32768 }
    ensures { result ≡ 65536 * span.start + span.size }
{
    THIRD * span.start + span.size
}

// Where a rule's guard and body stand.
#[tactic(auto, using(crate::proofs::Packing::part_is))]
#[unsafe(no_mangle)]
pub extern "C" fn cantaribol_rule_part(file: &[u8], rule: usize) -> usize
    ensures { result ≡ part_number (rule_in (reading file.now) rule) }
{
    part(design::rule_span(file, rule))
}

// Where a method's body stands.
#[tactic(auto, using(crate::proofs::Packing::part_is))]
#[unsafe(no_mangle)]
pub extern "C" fn cantaribol_method_part(file: &[u8], instance: usize, method: usize) -> usize
    ensures { result ≡ part_number (method_in (reading file.now) instance method) }
{
    part(design::method_span(file, instance, method))
}

// A number with a place.
#[tactic(auto, unfolding(crate::specs::Packed::placed))]
fn placed(number: usize, place: usize) -> usize
    requires { Places number place }
    ensures { result ≡ P.placed number place }
{
    number + SECOND * place
}

// Two bytes, and a number above them.
#[tactic(auto, unfolding(crate::specs::Packed::packed))]
fn packed(low: usize, next: usize, high: usize) -> usize
    requires { Packs low next high }
    ensures { result ≡ P.packed low next high }
{
    low + SECOND * next + THIRD * high
}

// A refusal's number with its place.
#[tactic(auto, using(crate::proofs::Covering::refusal_small))]
fn refused(why: Refusal) -> usize
    requires { place_of why ≤ 32768 }
    ensures { result ≡ P.placed (number_of why) (place_of why) }
{
    let number = clock::number(why);
    placed(number, clock::place(why))
}

#[tactic(auto, using(crate::proofs::Covering::few_reasons), unfolding(clock::specs::Promises::Named, clock::specs::Answers::ticked_of, clock::specs::Answers::outcome_of, crate::specs::Packed::ticked_number, crate::specs::Packed::outcome_number))]
fn ticked(t: Ticked) -> usize
    requires { Small t }
    ensures { result ≡ ticked_number (ticked_of t) }
{
    match t.outcome {
        Outcome::Fired => packed(0, 1, t.displays),
        Outcome::Quiet => packed(0, 0, t.displays),
        Outcome::Stuck(rule, reason) => packed(rule::number(reason), rule, t.displays),
    }
}

#[tactic(auto, unfolding(clock::specs::Promises::ClockBounded, clock::specs::Answers::clocked_of, crate::specs::Packed::clocked_number))]
fn clocked(c: Result<Ticked, Refusal>) -> usize
    requires { ClockBounded c }
    ensures { result ≡ clocked_number (clocked_of c) }
{
    match c {
        Ok(t) => ticked(t),
        Err(why) => refused(why),
    }
}

// One clock: 0, or a reason, or a refusal's number in the low byte. Of a clock that was not refused the next byte is 1 where a rule fired, or
// the rule that is stuck, and above them stand the displays made; above a refusal's number stands its place.
#[tactic(auto, using(crate::proofs::Covering::clocks))]
#[unsafe(no_mangle)]
pub extern "C" fn cantaribol_clock(
    file: &[u8],
    state: &mut [i32],
    fates: &mut [u8],
    displays: &mut [i32],
) -> usize
    ensures { Clocks file.now state.old fates.old displays.old state.new fates.new displays.new result }
{
    clocked(clock::clock(file, state, fates, displays))
}

// Prepares a design: its plan goes into the first numbers of the caller's, for `cantaribol_tick`. 0, or a refusal of the file, or 13.
#[tactic(auto, using(crate::proofs::Prepared::plan_fits, crate::proofs::Prepared::prepare_near, crate::proofs::Prepared::prepare_refused, crate::proofs::Prepared::prepare_short, crate::proofs::Prepared::prepare_done))]
#[unsafe(no_mangle)]
pub extern "C" fn cantaribol_prepare(file: &[u8], plan: &mut [u16]) -> usize
    ensures { Prepares file.now plan.old plan.new result }
{
    match design::plan_of(file) {
        Ok(p) => {
            if plan.len() < PLAN {
                return SHORT_PLAN;
            }
            plan[..PLAN].copy_from_slice(&p.plan);
            0
        }
        Err(why) => refused(Refusal::File(why)),
    }
}

// One clock of a design that was prepared: the file is not read again. The answer is `cantaribol_clock`'s, or 13 or 14.
#[tactic(auto, using(crate::proofs::Prepared::tick_short_plan, crate::proofs::Prepared::tick_short_log, crate::proofs::Prepared::tick_state, crate::proofs::Prepared::tick_fates, crate::proofs::Prepared::tick_displays, crate::proofs::Prepared::tick_done), unfolding(clock::specs::Answers::place_of))]
#[unsafe(no_mangle)]
pub extern "C" fn cantaribol_tick(
    file: &[u8],
    plan: &[u16],
    state: &mut [i32],
    fates: &mut [u8],
    displays: &mut [i32],
    log: &mut [u64],
) -> usize
    ensures { Ticks file.now plan.now state.old fates.old displays.old log.old state.new fates.new displays.new result }
{
    if plan.len() < PLAN {
        return SHORT_PLAN;
    }
    if log.len() < LOG {
        return SHORT_LOG;
    }
    let plan = &plan[..PLAN];
    if state.len() != plan::instances(plan) {
        return refused(Refusal::State);
    }
    if fates.len() < FATES {
        return refused(Refusal::Fates);
    }
    if displays.len() < DISPLAYS {
        return refused(Refusal::Displays);
    }
    ticked(clock::tick(Design { file, plan }, state, fates, displays, log))
}

#[tactic(auto, using(crate::proofs::Covering::few_reasons), unfolding(clock::specs::Promises::EndingNamed, clock::specs::Answers::ending_of, crate::specs::Packed::ending_number))]
fn ended(r: Ran) -> usize
    requires { EndingNamed r.ending }
    ensures { result ≡ ending_number (ending_of r.ending) r.count }
{
    let count = r.count as usize;
    match r.ending {
        Ending::Limit => packed(0, 0, count),
        Ending::Quiet => packed(QUIET, 0, count),
        Ending::Stuck(rule, reason) => packed(rule::number(reason), rule, count),
    }
}

#[tactic(auto, unfolding(clock::specs::Promises::RunBounded, clock::specs::Answers::ran_of, clock::specs::Answers::counted_of, crate::specs::Packed::counted_number))]
fn ran(run: Result<Ran, Refusal>) -> usize
    requires { RunBounded run }
    ensures { result ≡ counted_number (ran_of run) }
{
    match run {
        Ok(done) => ended(done),
        Err(early) => refused(early),
    }
}

// A run of n clocks: 0 for the limit, 100 for quiet, or a reason with the rule in the next byte, and above them the count; or a refusal.
#[tactic(auto, using(crate::proofs::Covering::runs))]
#[unsafe(no_mangle)]
pub extern "C" fn cantaribol_run(file: &[u8], state: &mut [i32], n: u32) -> usize
    ensures { Runs file.now state.old n state.new result }
{
    ran(clock::run(file, state, n))
}

#[tactic(auto, unfolding(clock::specs::Promises::StartBounded, clock::specs::Answers::started_of, crate::specs::Packed::started_number))]
fn started(s: Result<(), Refusal>) -> usize
    requires { StartBounded s }
    ensures { result ≡ started_number (started_of s) }
{
    let Err(why) = s else {
        return 0;
    };
    refused(why)
}

// Sets the start values: 0, or a refusal.
#[tactic(auto, using(crate::proofs::Covering::begins))]
#[unsafe(no_mangle)]
pub extern "C" fn cantaribol_start(file: &[u8], state: &mut [i32]) -> usize
    ensures { Starts file.now state.old state.new result }
{
    started(clock::start(file, state))
}

// The check: 0, or the number of the first failure and 256 times the offset of its record. What is answered 0 never gets stuck.
#[tactic(auto, using(crate::proofs::Covering::check_near, crate::proofs::Covering::failure_small, crate::proofs::Covering::check_passes, crate::proofs::Covering::check_refused, crate::proofs::Covering::check_fails, crate::proofs::Covering::passes_unstuck, crate::proofs::Covering::refused_unstuck, crate::proofs::Covering::fails_unstuck))]
#[unsafe(no_mangle)]
pub extern "C" fn cantaribol_check(file: &[u8]) -> usize
    ensures verdict { result ≡ verdict_number (check_file file.now) }
    ensures unstuck { Unstuck file.now result }
{
    match checker::check(file) {
        Ok(()) => 0,
        Err(Failure::Refused(why)) => refused(Refusal::File(why)),
        Err(Failure::Fails(reason, place)) => placed(rule::number(reason), place),
    }
}
