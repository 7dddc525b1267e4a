// The lines of a listing, as document 01 prints them.
use clock::{Ending, Ran, Refusal};
use design::plan;
use print::Page;
use std::fmt::{self, Write};

fn letter(fate: u8) -> u8 {
    match fate {
        0 => b'F',
        1 => b'U',
        2 => b'A',
        3 => b'E',
        4 => b'H',
        5 => b'S',
        _ => b'-',
    }
}

// A letter for each entry of the schedule, or a dot.
fn letters(out: &mut Page, fates: &[u8]) {
    if fates.is_empty() {
        out.put(b'.');
    }
    for &fate in fates {
        out.put(letter(fate));
    }
}

// The line of one clock.
pub fn clock(out: &mut Page, number: u32, fates: &[u8], displays: &[i32]) {
    out.decimal(u64::from(number));
    out.put(b' ');
    letters(out, fates);
    for &x in displays {
        out.put(b' ');
        out.number(x);
    }
    out.put(b'\n');
}

// The one line of a refusal.
pub fn refusal(out: &mut Page, why: Refusal) -> fmt::Result {
    let number = clock::number(why);
    let place = clock::place(why);
    writeln!(out, "REFUSED {number} {place}")
}

// The ending and the count; for a stuck one also rule and number.
fn ending(out: &mut Page, ran: Ran) -> fmt::Result {
    let count = ran.count;
    match ran.ending {
        Ending::Limit => write!(out, "LIMIT {count}"),
        Ending::Quiet => write!(out, "QUIET {count}"),
        Ending::Stuck(rule, why) => {
            let number = rule::number(why);
            write!(out, "STUCK {count} {rule} {number}")
        }
    }
}

// The last line: behind the ending the instances' values. A user's, which has no ports, is a dash.
pub fn last(out: &mut Page, plan: &[u16], state: &[i32], ran: Ran) -> fmt::Result {
    ending(out, ran)?;
    for (i, &x) in state.iter().enumerate() {
        out.put(b' ');
        if plan::ports(plan, i) == 0 {
            out.put(b'-');
        } else {
            out.number(x);
        }
    }
    writeln!(out)
}
