// Reading a design file: any bytes are a design, or are refused with document 01's number and place.
// specs/ has what that means, on trees and lists: Syntax, Take, Grammar, Records. `plan` keeps what the records say.
#![tactic(auto)]

mod fields;
pub mod kinds;
pub mod plan;
mod records;
pub mod text;

ghost use Rattle.std.specs.Prelude.{◌≡◌, ◌+◌, ◌≤◌, length, take, drop, replicate};
ghost use Rattle.design.specs.Records.{reading};
ghost use Rattle.design.specs.Answers.{fault_number};
ghost use Rattle.design.specs.Parts.{rule_in, method_in, rule_part, method_part};
ghost use Rattle.design.specs.Reads.{Fills, ReadsAs, Answers, Spans};

use crate::plan::PLAN;
use crate::records::{File, Tally};

// Why a file is refused: document 01's numbers 1 to 9, in their order.
#[derive(Clone, Copy)]
pub enum Fault {
    Long,
    Cut,
    Mark,
    Misplaced,
    Limit,
    Field,
    Body,
    Schedule,
    Unended,
}

// How much a design holds.
#[derive(Clone, Copy)]
pub struct Counts {
    pub instances: usize,
    pub methods: usize,
    pub rules: usize,
    pub scheduled: usize,
}

// Why a file is refused, and the place.
#[derive(Clone, Copy)]
pub struct Refused {
    pub fault: Fault,
    pub place: usize,
}

// What reading a file gives: how much its design holds, and the plan of it.
#[derive(Drop)]
pub struct Planned {
    pub counts: Counts,
    pub plan: [u16; PLAN],
}

// A part of the file; the empty part starts at 0.
#[derive(Clone, Copy)]
pub struct Span {
    pub start: usize,
    pub size: usize,
}

impl Span {
    // The bytes of a part that lies in the file.
    fn of(self, file: &[u8]) -> &[u8]
        requires { self.start + self.size ≤ length file.now }
        ensures { result.now ≡ take self.size (drop self.start file.now) }
    {
        &file[self.start..self.start + self.size]
    }
}

// All records, up to the first refusal.
fn fill(file: File, plan: &mut [u16; PLAN]) -> Result<Tally, Refused>
    requires { plan.old ≡ replicate 1092 65535 }
    ensures { Fills file.entry.bytes.now plan.new result }
{
    let mut t = Tally {
        at: 0,
        instances: 0,
        methods: 0,
        rules: 0,
        owner: None,
        closed: false,
        schedule: 0,
        scheduled: 0,
    };
    while t.at < file.bytes.len() {
        match records::record(file, plan, t) {
            Ok(u) => t = u,
            Err(fault) => return Err(Refused { fault, place: t.at }),
        }
    }
    Ok(t)
}

// Reads a file once, and makes the plan of its design.
pub fn plan_of(file: &[u8]) -> Result<Planned, Refused>
    ensures { ReadsAs file.now result }
{
    if 32768 < file.len() {
        return Err(Refused {
            fault: Fault::Long,
            place: 0,
        });
    }
    let mut plan = [65535u16; PLAN];
    let t = fill(File { bytes: file }, &mut plan)?;
    if !t.closed {
        return Err(Refused {
            fault: Fault::Unended,
            place: file.len(),
        });
    }
    plan::put_counts(&mut plan, t);
    plan::put_schedule(file, &mut plan, t.schedule, t.scheduled);
    let counts = Counts {
        instances: t.instances,
        methods: t.methods,
        rules: t.rules,
        scheduled: t.scheduled,
    };
    Ok(Planned { counts, plan })
}

// Reads a file.
pub fn read(file: &[u8]) -> Result<Counts, Refused>
    ensures { Answers file.now result }
{
    Ok(plan_of(file)?.counts)
}

// Document 01's number of a fault.
#[tactic(auto, unfolding(crate::specs::Answers::fault_number))]
pub fn number(fault: Fault) -> usize
    ensures { result ≡ fault_number fault }
{
    match fault {
        Fault::Long => 1,
        Fault::Cut => 2,
        Fault::Mark => 3,
        Fault::Misplaced => 4,
        Fault::Limit => 5,
        Fault::Field => 6,
        Fault::Body => 7,
        Fault::Schedule => 8,
        Fault::Unended => 9,
    }
}

// The empty part.
const NOWHERE: Span = Span { start: 0, size: 0 };

// Where the guard and the body of a rule stand.
pub fn rule_span(file: &[u8], number: usize) -> Span
    ensures { Spans file.now (rule_in (reading file.now) number) result }
{
    let Ok(p) = plan_of(file) else {
        return NOWHERE;
    };
    if p.counts.rules <= number {
        return NOWHERE;
    }
    plan::rule_span(&p.plan, number)
}

// The part of the file that holds a rule's guard and body.
pub fn rule_part(file: &[u8], number: usize) -> &[u8]
    ensures { result.now ≡ rule_part file.now number }
{
    rule_span(file, number).of(file)
}

// Where the body of a method stands: the method of that number among those of its instance.
pub fn method_span(file: &[u8], instance: usize, method: usize) -> Span
    ensures { Spans file.now (method_in (reading file.now) instance method) result }
{
    let Ok(p) = plan_of(file) else {
        return NOWHERE;
    };
    match plan::find(&p.plan, instance, method) {
        Some(k) => plan::method_span(&p.plan, k),
        None => NOWHERE,
    }
}

// The part of the file that holds a method's body.
pub fn method_part(file: &[u8], instance: usize, method: usize) -> &[u8]
    ensures { result.now ≡ method_part file.now instance method }
{
    method_span(file, instance, method).of(file)
}
