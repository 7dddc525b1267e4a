// One record after another. A tally says how far the file is read, and the plan what the records say.
ghost use Rattle.std.specs.Prelude.{◌≡◌, List, ℕ, ◌≤◌, length};
ghost use Rattle.design.specs.Records as R;
ghost use Rattle.design.specs.Fields.{Small};
ghost use Rattle.design.specs.Steps.{mark_name, Ready, Adds, Continues, Advances};

use crate::fields::Register;
use crate::plan::PLAN;
use crate::{Fault, fields, plan};

#[derive(Clone, Copy)]
pub enum Mark {
    Register,
    Concurrent,
    User,
    Method,
    Rule,
    Schedule,
}

// A file that is not too long, so that its places are small numbers.
#[derive(Clone, Copy)]
pub struct File<'a> {
    pub bytes: &'a [u8],
    pub ghost short: { length bytes.now ≤ 32768 },
}

// How far a file is read, and what was read: `owner` is the latest instance, where that is a UM; `closed` says whether SC was read, and then
// `scheduled` entries stand at `schedule`.
#[derive(Clone, Copy)]
pub struct Tally {
    pub at: usize,
    pub instances: usize,
    pub methods: usize,
    pub rules: usize,
    pub owner: Option<usize>,
    pub closed: bool,
    pub schedule: usize,
    pub scheduled: usize,
}

// The record that a mark's two bytes begin.
#[tactic(auto, unfolding(crate::specs::Steps::mark_name, crate::specs::Records::mark_of, crate::specs::Take::pick))]
fn mark_of(a: u8, b: u8) -> Option<Mark>
    ensures { mark_name result ≡ R.mark_of a b }
{
    match (a, b) {
        (b'R', b'G') => Some(Mark::Register),
        (b'C', b'R') => Some(Mark::Concurrent),
        (b'U', b'M') => Some(Mark::User),
        (b'M', b'D') => Some(Mark::Method),
        (b'R', b'L') => Some(Mark::Rule),
        (b'S', b'C') => Some(Mark::Schedule),
        _ => None,
    }
}

// RG, CR or UM, whose fields are read.
fn instance_record(
    plan: &mut [u16; PLAN],
    t: Tally,
    fields: Result<Register, Fault>,
) -> Result<Tally, Fault>
    requires { Ready t × Small fields }
    ensures { Adds plan.old t fields plan.new result }
{
    if 64 <= t.instances {
        return Err(Fault::Limit);
    }
    let r = fields?;
    plan::put_instance(plan, t.instances, r.ports, r.word as usize, t.methods);
    Ok(Tally {
        at: r.next,
        instances: t.instances + 1,
        owner: (r.ports == 0).then_some(t.instances),
        ..t
    })
}

fn method_record(file: File, plan: &mut [u16; PLAN], t: Tally, at: usize) -> Result<Tally, Fault>
    requires { Ready t }
    ensures { Continues R.MD file.entry.bytes.now plan.old t at plan.new result }
{
    let owner = t.owner.ok_or(Fault::Misplaced)?;
    if 128 <= t.methods {
        return Err(Fault::Limit);
    }
    let (shape, next) = fields::method_fields(file.bytes, at)?;
    plan::put_method(plan, t.methods, shape, t.at, next, owner);
    Ok(Tally {
        at: next,
        methods: t.methods + 1,
        ..t
    })
}

fn rule_record(file: File, plan: &mut [u16; PLAN], t: Tally, at: usize) -> Result<Tally, Fault>
    requires { Ready t }
    ensures { Continues R.RL file.entry.bytes.now plan.old t at plan.new result }
{
    let owner = t.owner.ok_or(Fault::Misplaced)?;
    if 64 <= t.rules {
        return Err(Fault::Limit);
    }
    let next = fields::rule_fields(file.bytes, at)?;
    plan::put_rule(plan, t.rules, owner, t.at, next);
    Ok(Tally {
        at: next,
        rules: t.rules + 1,
        ..t
    })
}

// The entries stand behind the byte of their count.
fn schedule_record(file: File, t: Tally, at: usize) -> Result<Tally, Fault>
    ensures { (plan : List ℕ) → Continues R.SC file.entry.bytes.now plan t at plan result }
{
    let (count, next) = fields::schedule_fields(file.bytes, at, t.rules)?;
    Ok(Tally {
        at: next,
        closed: true,
        schedule: at + 1,
        scheduled: count,
        ..t
    })
}

// The record that begins at the tally's place.
pub fn record(file: File, plan: &mut [u16; PLAN], t: Tally) -> Result<Tally, Fault>
    requires { Ready t }
    ensures { Advances file.entry.bytes.now plan.old t plan.new result }
{
    if t.closed {
        return Err(Fault::Misplaced);
    }
    let (a, second) = fields::byte(file.bytes, t.at)?;
    let (b, at) = fields::byte(file.bytes, second)?;
    match mark_of(a, b).ok_or(Fault::Mark)? {
        Mark::Register => instance_record(plan, t, fields::register_fields(file.bytes, at)),
        Mark::Concurrent => instance_record(plan, t, fields::concurrent_fields(file.bytes, at)),
        Mark::User => instance_record(
            plan,
            t,
            Ok(Register {
                ports: 0,
                word: 0,
                next: at,
            }),
        ),
        Mark::Method => method_record(file, plan, t, at),
        Mark::Rule => rule_record(file, plan, t, at),
        Mark::Schedule => schedule_record(file, t, at),
    }
}
