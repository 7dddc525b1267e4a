// The plan of a design: what its records say, filled in the one pass that reads the file, so that no record is read again. specs/Plan says
// what it holds, and specs/Lookups what is found in it; where it stands is known here alone.
ghost use Rattle.std.specs.Prelude.{◌≡◌, [], ◌∷◌, ◌+◌, ◌*◌, ◌/◌, ◌%◌, ◌≤◌, ◌<◌, ◌^◌, length, set};
ghost use Rattle.std.proofs.lemmas.List.Edits.{sets};
ghost use Rattle.design.specs.Lookups.{Entry, Cell, Instances, Methods, Rules, Scheduled, Named, Ports, Starts, Finds, Describes, Between, Kinds, Spanned, MethodSpan, MethodText, Owner, Place, RuleOwner, RulePlace, RuleSpan, RuleText};
ghost use Rattle.design.specs.Steps.{Schedules};

use crate::kinds::{Kind, Role};
use crate::records::Tally;
use crate::{NOWHERE, Span};

// How many numbers a plan has.
pub const PLAN: usize = 1092;

// Rows of four numbers: of instances, of methods and of rules.
const ROW: usize = 4;

const INSTANCES: usize = 0;

const METHODS: usize = 256;

const RULES: usize = 768;
// How many there are of each and of scheduled entries, and these entries.
const COUNTS: usize = 1024;

const SCHEDULE: usize = 1028;

// The numbers of an instance's row.
const PORTS: usize = 0;

const LOW: usize = 1;

const HIGH: usize = 2;

const FIRST: usize = 3;

// Of a method's.
const SHAPE: usize = 0;

const BODY: usize = 1;

const BODY_END: usize = 2;

const OWNER: usize = 3;

// Of a rule's.
const RULE_OWNER: usize = 0;

const RULE_PLACE: usize = 1;

const GUARD: usize = 2;

const RULE_END: usize = 3;

// A method's shape: its kind, so many times its result, so many times its parameter count.
const RESULT: usize = 4;

const COUNT: usize = 16;

const HALF: usize = 65536;

const MOST_ROWS: usize = 128;

const MOST_ENTRIES: usize = 64;

const MOST_RULES: usize = 64;

const MOST_PARAMS: usize = 4;
// The bytes of a body's length, and those of a method's record beside the kinds of its parameters and its body.
const LENGTH: usize = 2;

const METHOD_HEAD: usize = 7;

const RULE_HEAD: usize = 4;

// What a method's record says before its body: its kind, its result's and its parameters' count.
#[derive(Clone, Copy)]
pub struct Signature {
    pub role: Role,
    pub result: Kind,
    pub count: usize,
}

// A design at hand: its file, and the plan of it, which need not last as long as the file.
#[derive(Clone, Copy)]
pub struct Design<'f, 'p> {
    pub file: &'f [u8],
    pub plan: &'p [u16],
}

// ---- filling

fn put_row(plan: &mut [u16; PLAN], at: usize, a: usize, b: usize, c: usize, d: usize)
    requires { (at + 4 ≤ length plan.old) × (a < 2 ^ 16) × (b < 2 ^ 16) × (c < 2 ^ 16) × (d < 2 ^ 16) }
    ensures { plan.new ≡ sets plan.old at (a ∷ b ∷ c ∷ d ∷ []) }
{
    plan[at..at + ROW].copy_from_slice(&[a as u16, b as u16, c as u16, d as u16]);
}

pub(crate) fn put_instance(
    plan: &mut [u16; PLAN],
    n: usize,
    ports: usize,
    word: usize,
    first: usize,
)
    requires { (n < 64) × (ports ≤ 4) × (word < 2 ^ 32) × (first ≤ 128) }
    ensures { plan.new ≡ sets plan.old (4 * n) (ports ∷ (word % 65536) ∷ (word / 65536) ∷ first ∷ []) }
{
    put_row(
        plan,
        INSTANCES + ROW * n,
        ports,
        word % HALF,
        word / HALF,
        first,
    );
}

// The body stands behind the record's head and the kinds of the parameters.
pub(crate) fn put_method(
    plan: &mut [u16; PLAN],
    k: usize,
    shape: usize,
    place: usize,
    end: usize,
    owner: usize,
)
    requires { (k < 128) × (shape < 128) × (place ≤ 32768) × (end ≤ 32768) × (owner ≤ 64) }
    ensures { plan.new ≡ sets plan.old (256 + 4 * k) (shape ∷ (place + 7 + shape / 16) ∷ end ∷ owner ∷ []) }
{
    let start = place + METHOD_HEAD + shape / COUNT;
    put_row(plan, METHODS + ROW * k, shape, start, end, owner);
}

pub(crate) fn put_rule(plan: &mut [u16; PLAN], n: usize, owner: usize, place: usize, end: usize)
    requires { (n < 64) × (owner ≤ 64) × (place ≤ 32768) × (end ≤ 32768) }
    ensures { plan.new ≡ sets plan.old (768 + 4 * n) (owner ∷ place ∷ (place + 4) ∷ end ∷ []) }
{
    put_row(plan, RULES + ROW * n, owner, place, place + RULE_HEAD, end);
}

pub(crate) fn put_counts(plan: &mut [u16; PLAN], t: Tally)
    requires { (t.instances ≤ 64) × (t.methods ≤ 128) × (t.rules ≤ 64) × (t.scheduled ≤ 64) }
    ensures { plan.new ≡ sets plan.old 1024 (t.instances ∷ t.methods ∷ t.rules ∷ t.scheduled ∷ []) }
{
    put_row(plan, COUNTS, t.instances, t.methods, t.rules, t.scheduled);
}

// The entries of the schedule, which stand in the file from `start` on.
pub(crate) fn put_schedule(file: &[u8], plan: &mut [u16; PLAN], start: usize, count: usize)
    requires { (count ≤ 64) × (start + count ≤ length file.now) }
    ensures { Schedules file.now start count plan.old plan.new }
{
    for j in 0..count {
        plan[SCHEDULE + j] = u16::from(file[start + j]);
    }
}

// ---- lookups

// A number of the plan; past its end stand zeros.
fn number(plan: &[u16], at: usize) -> usize
    ensures { Entry plan.now at result }
{
    plan.get(at).map_or(0, |&x| usize::from(x))
}

// A number of a row; past the most rows of a kind stand zeros.
fn cell(plan: &[u16], base: usize, row: usize, column: usize) -> usize
    requires { (base ≤ 1024) × (column < 4) }
    ensures { Cell plan.now base row column result }
{
    if MOST_ROWS <= row {
        return 0;
    }
    number(plan, base + ROW * row + column)
}

pub fn instances(plan: &[u16]) -> usize
    ensures { Instances plan.now result }
{
    number(plan, COUNTS)
}

pub fn methods(plan: &[u16]) -> usize
    ensures { Methods plan.now result }
{
    number(plan, COUNTS + 1)
}

pub fn rules(plan: &[u16]) -> usize
    ensures { Rules plan.now result }
{
    number(plan, COUNTS + 2)
}

pub fn scheduled(plan: &[u16]) -> usize
    ensures { Scheduled plan.now result }
{
    number(plan, COUNTS + 3)
}

// The rule that an entry of the schedule names; no rule has a number that is not below 64.
pub fn named(plan: &[u16], entry: usize) -> usize
    ensures { Named plan.now entry result }
{
    if MOST_ENTRIES <= entry {
        return 0;
    }
    let rule = number(plan, SCHEDULE + entry);
    if MOST_RULES <= rule {
        return 0;
    }
    rule
}

// How many ports an instance has: a register 1, a concurrent one what its record says, a user's or a missing one none.
pub fn ports(plan: &[u16], instance: usize) -> usize
    ensures { Ports plan.now instance result }
{
    if instances(plan) <= instance {
        return 0;
    }
    cell(plan, INSTANCES, instance, PORTS)
}

// A word, from its halves.
fn word_of(low: usize, high: usize) -> u32
    requires { (low < 65536) × (high < 65536) }
    ensures { result ≡ low + 65536 * high }
{
    (low + HALF * high) as u32
}

// The word of an instance's start value.
pub fn start_word(plan: &[u16], instance: usize) -> u32
    ensures { Starts plan.now instance result }
{
    word_of(
        cell(plan, INSTANCES, instance, LOW),
        cell(plan, INSTANCES, instance, HIGH),
    )
}

// A method of an instance, by its number through the file: the so many-th behind the first, if the instance owns it.
pub fn find(plan: &[u16], instance: usize, method: usize) -> Option<usize>
    ensures { Finds plan.now instance method result }
{
    if instances(plan) <= instance {
        return None;
    }
    if MOST_ROWS <= method {
        return None;
    }
    let k = cell(plan, INSTANCES, instance, FIRST) + method;
    if methods(plan) <= k {
        return None;
    }
    if cell(plan, METHODS, k, OWNER) != instance {
        return None;
    }
    Some(k)
}

// What is known of a method, by its number through the file.
pub fn signature_of(plan: &[u16], method: usize) -> Signature
    ensures { Describes plan.now method result }
{
    let shape = cell(plan, METHODS, method, SHAPE);
    Signature {
        role: Role::from((shape % RESULT) as u8),
        result: Kind::from((shape / RESULT % (COUNT / RESULT)) as u8),
        count: shape / COUNT,
    }
}

pub fn method_owner(plan: &[u16], method: usize) -> usize
    ensures { Owner plan.now method result }
{
    cell(plan, METHODS, method, OWNER)
}

// Where a method's record stands: mark, kind, result, count, the kinds of the parameters and the body's length stand before the body.
pub fn method_place(plan: &[u16], method: usize) -> usize
    ensures { Place plan.now method result }
{
    let s = signature_of(plan, method);
    let head = METHOD_HEAD + s.count;
    let start = cell(plan, METHODS, method, BODY);
    start.saturating_sub(head)
}

// The bytes of a file between two places; none where they do not lie in it.
fn between(file: &[u8], start: usize, end: usize) -> &[u8]
    ensures { Between file.now start end result.now }
{
    file.get(start..end).unwrap_or(&[])
}

// A part from one place to another; none where the second stands before the first.
fn span(start: usize, end: usize) -> Span
    requires { (start < 65536) × (end < 65536) }
    ensures { Spanned start end result }
{
    end.checked_sub(start)
        .map_or(NOWHERE, |size| Span { start, size })
}

// Where a method's body stands.
pub fn method_span(plan: &[u16], method: usize) -> Span
    ensures { MethodSpan plan.now method result }
{
    span(
        cell(plan, METHODS, method, BODY),
        cell(plan, METHODS, method, BODY_END),
    )
}

pub fn rule_owner(plan: &[u16], rule: usize) -> usize
    ensures { RuleOwner plan.now rule result }
{
    cell(plan, RULES, rule, RULE_OWNER)
}

// Where a rule's record stands.
pub fn rule_place(plan: &[u16], rule: usize) -> usize
    ensures { RulePlace plan.now rule result }
{
    cell(plan, RULES, rule, RULE_PLACE)
}

// Where a rule's guard and body stand.
pub fn rule_span(plan: &[u16], rule: usize) -> Span
    ensures { RuleSpan plan.now rule result }
{
    span(
        cell(plan, RULES, rule, GUARD),
        cell(plan, RULES, rule, RULE_END),
    )
}

// Parts of the file, which last as long as it does.
impl<'f, 'p> Design<'f, 'p> {
    // The kinds of a method's parameters, a byte each: they stand before the body's length.
    pub fn kinds(self, method: usize) -> &'f [u8]
        ensures { Kinds self.entry.file.now self.entry.plan.now method result.now }
    {
        let s = signature_of(self.plan, method);
        let count = s.count;
        if MOST_PARAMS < count {
            return &[];
        }
        let start = cell(self.plan, METHODS, method, BODY);
        if start < LENGTH + count {
            return &[];
        }
        let end = start - LENGTH;
        between(self.file, end - count, end)
    }

    // A method's body.
    pub fn method_text(self, method: usize) -> &'f [u8]
        ensures { MethodText self.entry.file.now self.entry.plan.now method result.now }
    {
        let s = method_span(self.plan, method);
        between(self.file, s.start, s.start + s.size)
    }

    // A rule's guard and body.
    pub fn rule_text(self, rule: usize) -> &'f [u8]
        ensures { RuleText self.entry.file.now self.entry.plan.now rule result.now }
    {
        let s = rule_span(self.plan, rule);
        between(self.file, s.start, s.start + s.size)
    }
}
