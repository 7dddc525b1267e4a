// The lister: reads a clock count and a design from standard input, and prints a line for each clock and a last one. The lines are gathered in
// a buffer that a few of the longest fit in, and written as it fills.
#![tactic(auto)]

mod lines;

use clock::{Ending, Outcome, Ran, Refusal};
use design::plan::{self, Design};
use design::{Fault, Refused};
use print::Page;
use std::fmt;

// What a clock fills: fates, displays, and the log that it works in.
const FATES: usize = 64;

const DISPLAYS: usize = 4096;

const LOG: usize = 4096;

const MOST_INSTANCES: usize = 64;

// The bytes of the clock count.
const COUNT: usize = 4;

// One byte more than a clock count and a design may have, so that a longer input is seen to be one.
const INPUT: usize = 32773;

// The buffer, and what may stand in it before a line: behind it there is room for the longest, of 4,096 displays of 12 bytes each, 64 letters and
// the clock number.
const PAGE: usize = 65536;

const FILLED: usize = 16000;

// Writes what the page holds, and begins it anew; an error where nobody takes the text any more.
fn flush(out: &mut Page) -> fmt::Result {
    let taken = io::write_all(1, out.text());
    out.clear();
    if taken { Ok(()) } else { Err(fmt::Error) }
}

// The lines of so many clocks, or of fewer where one is the last.
fn run(d: Design, state: &mut [i32], out: &mut Page, n: u32) -> Result<Ran, fmt::Error> {
    let mut fates = [0u8; FATES];
    let mut displays = [0i32; DISPLAYS];
    let mut log = [0u64; LOG];
    let entries = plan::scheduled(d.plan).min(FATES);
    for count in 0..n {
        let ticked = clock::tick(d, state, &mut fates, &mut displays, &mut log);
        let made = ticked.displays.min(DISPLAYS);
        lines::clock(out, count, &fates[..entries], &displays[..made]);
        if out.end > FILLED {
            flush(out)?;
        }
        let ending = match ticked.outcome {
            Outcome::Fired => continue,
            Outcome::Quiet => Ending::Quiet,
            Outcome::Stuck(rule, reason) => Ending::Stuck(rule, reason),
        };
        return Ok(Ran { ending, count });
    }
    Ok(Ran {
        ending: Ending::Limit,
        count: n,
    })
}

// All clocks and the last line, or the one line of a refusal.
#[tactic(auto, unfolding(design::specs::Reads::Bounded, design::specs::Reads::counted))]
fn list(file: &[u8], out: &mut Page, n: u32) -> fmt::Result {
    let planned = match design::plan_of(file) {
        Ok(planned) => planned,
        Err(why) => return lines::refusal(out, Refusal::File(why)),
    };
    let plan = &planned.plan;
    let d = Design { file, plan };
    let mut state = [0i32; MOST_INSTANCES];
    let state = &mut state[..planned.counts.instances];
    // The file reads, and the state has a word for each instance: nothing is refused.
    let _ = clock::start(file, state);
    let ran = run(d, state, out, n)?;
    lines::last(out, plan, state, ran)
}

// The clock count has four bytes; without them nothing can be read.
fn print_input(input: &[u8], out: &mut Page) -> fmt::Result {
    let Some((count, file)) = input.split_first_chunk::<COUNT>() else {
        let cut = Refused {
            fault: Fault::Cut,
            place: 0,
        };
        return lines::refusal(out, Refusal::File(cut));
    };
    list(file, out, u32::from_le_bytes(*count))
}

fn main() {
    let mut input = [0u8; INPUT];
    let n = io::read_full(0, &mut input);
    let mut page = [0u8; PAGE];
    let mut out = Page::new(&mut page);
    if print_input(&input[..n], &mut out).is_ok() {
        let _ = flush(&mut out);
    }
}
