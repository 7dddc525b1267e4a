// A case is run by the clock's public functions, and each clock or run of it is a line.
ghost use Rattle.std.specs.Prelude.{◌≤◌};

use clock::{Ending, Outcome, Ran, Refusal, Ticked};
use print::Page;
use rule::Reason;
use std::fmt::{self, Write};

// A design under the name that its lines begin with.
#[derive(Clone, Copy)]
pub struct Case<'a> {
    pub name: &'a str,
    pub file: &'a [u8],
}

// What each entry of a state, of the fates and of the displays holds before a clock.
const HELD: u8 = 7;

// How many instances a file has; one that is refused has none.
#[tactic(auto, unfolding(design::specs::Reads::Bounded))]
fn instances(file: &[u8]) -> usize
    ensures { result ≤ 64 }
{
    match design::read(file) {
        Ok(counts) => counts.instances,
        Err(_) => 0,
    }
}

fn items(out: &mut Page, xs: &[i32]) -> fmt::Result {
    for &x in xs {
        write!(out, " {x}")?;
    }
    Ok(())
}

// The fates that a clock wrote over what each entry held.
fn fates(out: &mut Page, fates: &[u8]) -> fmt::Result {
    out.word(b" fates");
    for &fate in fates {
        if fate != HELD {
            write!(out, " {fate}")?;
        }
    }
    Ok(())
}

fn displays(out: &mut Page, displays: &[i32]) -> fmt::Result {
    if displays.is_empty() {
        return Ok(());
    }
    out.word(b" displays");
    items(out, displays)
}

fn stuck(out: &mut Page, rule: usize, why: Reason) -> fmt::Result {
    let number = rule::number(why);
    write!(out, " stuck {rule} {number}")
}

fn refused(out: &mut Page, why: Refusal) -> fmt::Result {
    let number = clock::number(why);
    let place = clock::place(why);
    write!(out, " refused {number} {place}")
}

fn ticked(out: &mut Page, t: Ticked, fated: &[u8], shown: &[i32]) -> fmt::Result {
    fates(out, fated)?;
    displays(out, &shown[..t.displays.min(shown.len())])?;
    match t.outcome {
        Outcome::Fired => Ok(()),
        Outcome::Quiet => write!(out, " quiet"),
        Outcome::Stuck(rule, why) => stuck(out, rule, why),
    }
}

fn ended(out: &mut Page, ran: Ran, state: &[i32]) -> fmt::Result {
    match ran.ending {
        Ending::Limit => out.word(b" limit"),
        Ending::Quiet => out.word(b" quiet"),
        Ending::Stuck(rule, why) => stuck(out, rule, why)?,
    }
    let count = ran.count;
    write!(out, " {count} state")?;
    items(out, state)
}

impl<'a> Case<'a> {
    // One clock.
    fn clock(self, out: &mut Page, number: u32, state: &mut [i32]) -> fmt::Result {
        let mut fated = [HELD; 64];
        let mut shown = [i32::from(HELD); 4096];
        let name = self.name;
        write!(out, "{name} clock {number}")?;
        match clock::clock(self.file, state, &mut fated, &mut shown) {
            Ok(t) => ticked(out, t, &fated, &shown)?,
            Err(why) => refused(out, why)?,
        }
        writeln!(out)
    }

    // The start values, and n clocks one by one. The entry of a user keeps what it held. A file that is refused is so by the clock, too.
    pub fn clocks(self, out: &mut Page, n: u32) -> fmt::Result {
        let mut state = [i32::from(HELD); 64];
        let state = &mut state[..instances(self.file)];
        let _ = clock::start(self.file, state);
        for number in 0..n {
            self.clock(out, number, state)?;
        }
        Ok(())
    }

    // The start values, and a run of n clocks.
    pub fn run(self, out: &mut Page, n: u32) -> fmt::Result {
        let mut state = [i32::from(HELD); 64];
        let state = &mut state[..instances(self.file)];
        let name = self.name;
        write!(out, "{name} run {n}")?;
        let _ = clock::start(self.file, state);
        match clock::run(self.file, state, n) {
            Ok(ran) => ended(out, ran, state)?,
            Err(why) => refused(out, why)?,
        }
        writeln!(out)
    }

    // Some clocks one by one, and a run of 101 clocks: document 000's limit of 100 runs clock 100 too.
    pub fn transcript(self, out: &mut Page, n: u32) -> fmt::Result {
        self.clocks(out, n)?;
        self.run(out, 101)
    }
}
