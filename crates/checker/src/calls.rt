// The calls that each rule could make, counted over the bytes of the bodies: meaning's Calls has the exact number of a tree. Here one number
// stands for all that are over the limit. The bodies are those of a design that was read, so their grammar is not tested again.
ghost use Rattle.std.specs.Prelude.{◌≡◌, ◌+◌, min, max};
ghost use Rattle.design.specs.Grammar as G;
ghost use Rattle.checker.specs.Counted.{Byte, Beyond, Operands, whole, after, several, HeadOf, CountOf, CalleeCounts, Filled, MethodCounts, RuleCounts, RulesCount, Crowded};

use design::kinds::{Operator, Tag};
use design::plan;
use design::plan::Design;
use design::text::DEPTH;

// "A rule records at most 64 calls"
const MOST_CALLS: u8 = 64;

const TOO_MANY: u8 = 65;

const MOST_METHODS: usize = 128;

// The bytes of a number.
const WORD: usize = 4;

// How many calls a part of a body could make, and where the part ends.
#[derive(Clone, Copy)]
struct Counted {
    calls: u8,
    at: usize,
}

// What stands behind an expression's tag and its plain bytes: nothing more; the three parts of an if; or so many expressions, each behind
// `lead` bytes, whose calls are added to some.
#[derive(Clone, Copy)]
enum Head {
    Plain(usize),
    If(usize),
    Exprs(Row, usize),
}

#[derive(Clone, Copy)]
struct Row {
    lead: usize,
    count: usize,
    calls: u8,
}

// A body whose calls are counted: its bytes and whose it is, and of the instances below the plan and the methods' counts.
#[derive(Clone, Copy)]
struct Tally<'a> {
    text: &'a [u8],
    plan: &'a [u16],
    counts: &'a [u8],
    me: usize,
}

// A sum that is over the limit counts as the first such number.
fn sum(a: u8, b: u8) -> u8
    ensures { result ≡ min (a + b) 65 }
{
    let both = a.saturating_add(b);
    if MOST_CALLS < both { TOO_MANY } else { both }
}

fn larger(a: u8, b: u8) -> u8
    ensures { result ≡ max a b }
{
    a.max(b)
}

// Not has one operand, and the operators before it have two.
fn operands(op: u8) -> usize
    ensures { Operands op result }
{
    let Ok(operator) = Operator::try_from(op) else {
        return 2;
    };
    match operator {
        Operator::Not => 1,
        _ => 2,
    }
}

// So many expressions, one right behind the other.
fn exprs(count: usize, calls: u8, at: usize) -> Head
    ensures { result ≡ Head.Exprs (record { lead = 0; count = count; calls = calls }) at }
{
    Head::Exprs(
        Row {
            lead: 0,
            count,
            calls,
        },
        at,
    )
}

impl<'a> Tally<'a> {
    // A byte of the body; past its end stand zeros.
    fn byte(self, at: usize) -> u8
        ensures { Byte self.entry.text.now at result }
    {
        self.text.get(at).copied().unwrap_or(0)
    }

    // The place behind so many bytes.
    fn beyond(self, at: usize, count: usize) -> usize
        ensures { Beyond self.entry.text.now at count result }
    {
        if self.text.len().saturating_sub(at) < count {
            return at;
        }
        at + count
    }

    // The calls of the body that a call names: none where no instance below has a method of that number.
    fn callee(self, i: usize, m: usize) -> u8
        ensures { CalleeCounts self.entry.plan.now self.entry.counts.now self.entry.me i m result }
    {
        if self.me <= i {
            return 0;
        }
        let Some(k) = plan::find(self.plan, i, m) else {
            return 0;
        };
        self.counts.get(k).copied().unwrap_or(0)
    }

    // What follows a call's tag: instance, method, argument count, arguments. The call itself counts one.
    fn call_head(self, at: usize) -> Head
        ensures { HeadOf (after G.Tag.call) self.entry at result }
    {
        let method = self.beyond(at, 1);
        let arguments = self.beyond(method, 1);
        let next = self.beyond(arguments, 1);
        let below = self.callee(usize::from(self.byte(at)), usize::from(self.byte(method)));
        exprs(usize::from(self.byte(arguments)), sum(1, below), next)
    }

    // What begins the expression at a place. A let or do counts as its expression, which stands behind one byte.
    fn begin(self, at: usize) -> Head
        ensures { HeadOf whole self.entry at result }
    {
        let next = self.beyond(at, 1);
        match Tag::try_from(self.byte(at)) {
            Ok(Tag::Number) => Head::Plain(self.beyond(next, WORD)),
            Ok(Tag::Truth) => Head::Plain(self.beyond(next, 1)),
            Ok(Tag::Local) => Head::Plain(self.beyond(next, 1)),
            Ok(Tag::Operator) => exprs(operands(self.byte(next)), 0, self.beyond(next, 1)),
            Ok(Tag::Choice) => Head::If(next),
            Ok(Tag::Guarded) => exprs(2, 0, next),
            Ok(Tag::Block) => Head::Exprs(
                Row {
                    lead: 1,
                    count: usize::from(self.byte(next)),
                    calls: 0,
                },
                self.beyond(next, 1),
            ),
            Ok(Tag::Call) => self.call_head(next),
            Ok(Tag::Display) => exprs(1, 1, next),
            Err(_) => Head::Plain(next),
        }
    }

    // Counts an expression, where so many levels of depth are left.
    #[cycle(counting)]
    fn count_expr(self, at: usize, levels: usize) -> Counted
        ensures { CountOf whole self.entry at levels result }
    {
        if levels == 0 {
            return Counted { calls: 0, at };
        }
        let inner = levels - 1;
        match self.begin(at) {
            Head::Plain(next) => Counted { calls: 0, at: next },
            Head::If(next) => self.count_if(next, inner),
            Head::Exprs(row, next) => self.count_exprs(next, inner, row),
        }
    }

    // "an if counting its condition and the larger arm"
    #[cycle(counting)]
    fn count_if(self, at: usize, levels: usize) -> Counted
        ensures { CountOf (after G.Tag.choice) self.entry at levels result }
    {
        let condition = self.count_expr(at, levels);
        let first = self.count_expr(condition.at, levels);
        let second = self.count_expr(first.at, levels);
        Counted {
            calls: sum(condition.calls, larger(first.calls, second.calls)),
            at: second.at,
        }
    }

    // Counts the expressions of a row.
    #[cycle(counting)]
    fn count_exprs(self, at: usize, levels: usize, row: Row) -> Counted
        ensures { CountOf (several row.lead row.count row.calls) self.entry at levels result }
    {
        let mut here = at;
        let mut calls = row.calls;
        for _ in 0..row.count {
            let next = self.beyond(here, row.lead);
            let c = self.count_expr(next, levels);
            calls = sum(calls, c.calls);
            here = c.at;
        }
        Counted { calls, at: here }
    }
}

// Counts the body of a method, by its number through the file.
fn count_method(d: Design, counts: &[u8], k: usize) -> u8
    ensures { MethodCounts d.entry.file.now d.entry.plan.now counts.now k result }
{
    let tally = Tally {
        text: d.method_text(k),
        plan: d.plan,
        counts,
        me: plan::method_owner(d.plan, k),
    };
    tally.count_expr(0, DEPTH).calls
}

// Counts each method once, in file order: a body calls only instances below its own, whose methods stand before it. A design has no more
// methods than there are places.
fn count_methods(d: Design) -> [u8; MOST_METHODS]
    ensures { Filled d.entry.file.now d.entry.plan.now result }
{
    let mut counts = [0u8; MOST_METHODS];
    let methods = plan::methods(d.plan).min(MOST_METHODS);
    for k in 0..methods {
        counts[k] = count_method(d, &counts, k);
    }
    counts
}

// Counts the guard and the body of a rule.
fn count_rule(d: Design, counts: &[u8], n: usize) -> u8
    ensures { RuleCounts d.entry.file.now d.entry.plan.now counts.now n result }
{
    let tally = Tally {
        text: d.rule_text(n),
        plan: d.plan,
        counts,
        me: plan::instances(d.plan),
    };
    let guard = tally.count_expr(0, DEPTH);
    let body = tally.count_expr(guard.at, DEPTH);
    sum(guard.calls, body.calls)
}

// The place of the first rule that could make too many calls.
fn count_rules(d: Design, counts: &[u8]) -> Option<usize>
    ensures { RulesCount d.entry.file.now d.entry.plan.now counts.now result }
{
    for n in 0..plan::rules(d.plan) {
        if MOST_CALLS < count_rule(d, counts, n) {
            return Some(plan::rule_place(d.plan, n));
        }
    }
    None
}

// Counts the methods and then the rules.
pub(crate) fn count_all(d: Design) -> Option<usize>
    ensures { Crowded d.entry.file.now d.entry.plan.now result }
{
    let counts = count_methods(d);
    count_rules(d, &counts)
}
