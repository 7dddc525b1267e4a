// Evaluating one rule, over the bytes of the bodies: meaning's Evaluate has what a tree does, and specs/Post what an answer has to do with it.
// Here are a rule's turn and the leaves: numbers, truths, locals and operators, an event in the log. body has what an evaluation goes by,
// evaluate the cycle, calling what a call does beside evaluating, naming what it names, event how the log keeps it.
#![tactic(auto)]

mod body;
mod calling;
mod evaluate;
pub mod event;
pub mod naming;

ghost use Rattle.std.specs.Prelude.{◌≡◌, true, List, ℕ, ◌≤◌, ◌<◌, ℤ, length};
ghost use Rattle.design.specs.Grammar.{Tag};
ghost use Rattle.rule.specs.declared.Value as DV;
ghost use Rattle.rule.specs.Answers.{value, number_of};
ghost use Rattle.rule.specs.Post.{after, Evaluates, Leaf, Gives, Operates, negated, Notes, Acts, taken_of};
ghost use Rattle.rule.specs.Promises.{Turns};

use body::{Body, Frame};
use design::kinds::Operator;
use design::plan::Design;
use design::{plan, text};

// "A rule records at most 64 calls"
const MOST_CALLS: usize = 64;

const MOST_INSTANCES: usize = 64;

// The bytes of a number.
const WORD: usize = 4;

// "28: 17th live local"
pub(crate) const MOST_LOCALS: usize = 16;

// A number is kept as its word.
#[derive(Clone, Copy)]
pub enum Value {
    Num(u32),
    Bool(bool),
    Void,
}

// Document 01's reasons 21 to 28.
#[derive(Clone, Copy)]
pub enum Reason {
    Kind,
    Local,
    Instance,
    Method,
    Count,
    Pure,
    Calls,
    Locals,
}

// Where an evaluation stands: the next byte, and how many events the log holds.
#[derive(Clone, Copy)]
pub struct Mark {
    pub at: usize,
    pub calls: usize,
}

#[derive(Clone, Copy)]
pub enum Answer {
    Value(Value, Mark),
    Unavailable,
    Stuck(Reason),
}

// How a rule's turn ended: with so many events in the log, or as unavailable, or as stuck.
#[derive(Clone, Copy)]
pub enum Taken {
    Recorded(usize),
    Unavailable,
    Stuck(Reason),
}

// Document 01's number of a reason.
#[tactic(auto, unfolding(crate::specs::Answers::number_of))]
pub fn number(reason: Reason) -> usize
    ensures { result ≡ number_of reason }
{
    match reason {
        Reason::Kind => 21,
        Reason::Local => 22,
        Reason::Instance => 23,
        Reason::Method => 24,
        Reason::Count => 25,
        Reason::Pure => 26,
        Reason::Calls => 27,
        Reason::Locals => 28,
    }
}

// A number of four bytes.
fn eval_number(text: &[u8], m: Mark) -> Answer
    ensures { Leaf Tag.number text.now m result }
{
    let Some([a, b, c, d, ..]) = text.get(m.at..) else {
        return Answer::Stuck(Reason::Kind);
    };
    let word = u32::from_le_bytes([*a, *b, *c, *d]);
    let at = m.at + WORD;
    Answer::Value(Value::Num(word), Mark { at, ..m })
}

#[tactic(auto, using(crate::proofs::Leaves::truth_cut, crate::proofs::Leaves::truth_done))]
fn eval_truth(text: &[u8], m: Mark) -> Answer
    ensures { Leaf Tag.truth text.now m result }
{
    let Some((b, at)) = text::byte(text, m.at) else {
        return Answer::Stuck(Reason::Kind);
    };
    Answer::Value(Value::Bool(b == 1), Mark { at, ..m })
}

fn eval_local(body: &Body, f: Frame, m: Mark) -> Answer
    requires { m.calls ≤ 64 }
    ensures { (log : List ℕ) → Evaluates (after Tag.local) body.now f.entry log m log result }
{
    let Some((b, at)) = text::byte(body.text, m.at) else {
        return Answer::Stuck(Reason::Kind);
    };
    let Some(v) = f.locals.get(text::wide(b)) else {
        return Answer::Stuck(Reason::Local);
    };
    Answer::Value(*v, Mark { at, ..m })
}

// Of two Nums: plus, minus, equal and less.
fn arithmetic(op: Operator, a: u32, b: u32, m: Mark) -> Answer
    ensures { Operates op (DV.Value.Num a) (DV.Value.Num b) m result }
{
    let x = words::number(a);
    let y = words::number(b);
    match op {
        Operator::Plus => Answer::Value(Value::Num(words::word(words::plus(x, y))), m),
        Operator::Minus => Answer::Value(Value::Num(words::word(words::minus(x, y))), m),
        Operator::Equal => Answer::Value(Value::Bool(words::equal(x, y)), m),
        Operator::Less => Answer::Value(Value::Bool(words::less(x, y)), m),
        _ => Answer::Stuck(Reason::Kind),
    }
}

// Of two Bools: and, or.
fn logic(op: Operator, a: bool, b: bool, m: Mark) -> Answer
    ensures { Operates op (DV.Value.Bool a) (DV.Value.Bool b) m result }
{
    match op {
        Operator::And => Answer::Value(Value::Bool(a && b), m),
        Operator::Or => Answer::Value(Value::Bool(a || b), m),
        _ => Answer::Stuck(Reason::Kind),
    }
}

fn operate(op: Operator, a: Value, b: Value, m: Mark) -> Answer
    ensures { Operates op a b m result }
{
    match (a, b) {
        (Value::Num(x), Value::Num(y)) => arithmetic(op, x, y, m),
        (Value::Bool(x), Value::Bool(y)) => logic(op, x, y, m),
        _ => Answer::Stuck(Reason::Kind),
    }
}

fn negate(a: Value, m: Mark) -> Answer
    ensures { Gives m (negated (value a)) result }
{
    let Value::Bool(x) = a else {
        return Answer::Stuck(Reason::Kind);
    };
    Answer::Value(Value::Bool(!x), m)
}

// An event, as the log keeps it, behind those that were recorded, unless there are 64.
#[tactic(auto, unfolding(crate::specs::Post::Noted))]
fn note(log: &mut [u64], m: Mark, event: u64) -> Option<Mark>
    requires { 64 ≤ length log.old }
    ensures { Notes log.old m event log.new result }
{
    let calls = m.calls;
    if MOST_CALLS <= calls {
        return None;
    }
    log[calls] = event;
    Some(Mark {
        calls: calls + 1,
        ..m
    })
}

// A rule's guard, then its body, whose value must be Void.
fn act(body: &Body, log: &mut [u64]) -> Answer
    requires { 64 ≤ length log.old }
    ensures { Acts body.now log.old log.new result }
{
    let guard = Frame {
        pure: true,
        locals: &[],
    };
    let start = Mark { at: 0, calls: 0 };
    let condition = evaluate::eval(body, log, guard, start);
    let Answer::Value(v, m) = condition else {
        return condition;
    };
    let Value::Bool(holds) = v else {
        return Answer::Stuck(Reason::Kind);
    };
    if !holds {
        return Answer::Unavailable;
    }
    let inner = Frame {
        pure: false,
        locals: &[],
    };
    let answer = evaluate::eval(body, log, inner, m);
    let Answer::Value(w, _) = answer else {
        return answer;
    };
    let Value::Void = w else {
        return Answer::Stuck(Reason::Kind);
    };
    answer
}

#[tactic(auto, unfolding(crate::specs::Post::taken_of))]
fn ended(a: Answer) -> Taken
    ensures { result ≡ taken_of a }
{
    match a {
        Answer::Value(_, m) => Taken::Recorded(m.calls),
        Answer::Unavailable => Taken::Unavailable,
        Answer::Stuck(reason) => Taken::Stuck(reason),
    }
}

// The turn of a rule of the design at hand. The log needs room for 64 events, and the state has a word for each instance.
pub fn turn(d: Design, state: &[i32], log: &mut [u64], number: usize) -> Taken
    ensures { Turns d.entry.file.now d.entry.plan.now state.now log.old number log.new result }
{
    if log.len() < MOST_CALLS {
        return Taken::Unavailable;
    }
    let me = plan::rule_owner(d.plan, number);
    if state.len() <= me || MOST_INSTANCES <= me {
        return Taken::Unavailable;
    }
    let body = Body {
        me,
        text: d.rule_text(number),
        design: d,
        state,
    };
    ended(act(&body, log))
}
