// What a call does beside evaluating: its head, and the ports of registers.
ghost use Rattle.std.specs.Prelude.{◌≡◌, ◌≤◌, ◌<◌, [], pos, length, get_or};
ghost use Rattle.words.specs.Words.{number};
ghost use Rattle.rule.specs.declared.naming.Callee as DC;
ghost use Rattle.rule.specs.Post.{Heads, Port};

use crate::body::Call;
use crate::{Answer, Mark, Reason, Value, event, note};
use design::text;

pub const MOST_ARGUMENTS: usize = 4;

pub fn begin(text: &[u8], at: usize) -> Option<Call>
    ensures { Heads text.now at result }
{
    let (a, second) = text::byte(text, at)?;
    let (b, third) = text::byte(text, second)?;
    let (c, next) = text::byte(text, third)?;
    let count = text::wide(c);
    if MOST_ARGUMENTS < count {
        return None;
    }
    Some(Call {
        instance: text::wide(a),
        method: text::wide(b),
        count,
        at: next,
    })
}

// The number of a register, and its word.
fn held(state: &[i32], i: usize) -> i32
    requires { i < length state.now }
    ensures { result ≡ get_or state.now i (pos 0) }
{
    state[i]
}

fn register(state: &[i32], i: usize) -> u32
    requires { i < length state.now }
    ensures { number result ≡ get_or state.now i (pos 0) }
{
    words::word(held(state, i))
}

// A port that reads.
#[tactic(auto, using(crate::proofs::Invoking::read_full, crate::proofs::Invoking::read_done))]
pub fn read_port(state: &[i32], log: &mut [u64], m: Mark, call: Call) -> Answer
    requires { (64 ≤ length log.old) × (call.instance < length state.now) × (call.instance < 64) }
    ensures { Port DC.Callee.Read state.now [] log.old m call.instance call.method log.new result }
{
    let Some(next) = note(log, m, event::packed(call.instance, call.method, 0)) else {
        return Answer::Stuck(Reason::Calls);
    };
    let word = register(state, call.instance);
    Answer::Value(Value::Num(word), next)
}

// A port that writes: the write waits until the rule has fired.
pub fn write_port(state: &[i32], log: &mut [u64], locals: &[Value], m: Mark, call: Call) -> Answer
    requires { (64 ≤ length log.old) × (call.instance < length state.now) × (call.instance < 64) }
    ensures { Port DC.Callee.Write state.now locals.now log.old m call.instance call.method log.new result }
{
    let Some(v) = locals.first().copied() else {
        return Answer::Stuck(Reason::Kind);
    };
    let Value::Num(word) = v else {
        return Answer::Stuck(Reason::Kind);
    };
    let Some(next) = note(log, m, event::packed(call.instance, call.method, word)) else {
        return Answer::Stuck(Reason::Calls);
    };
    Answer::Value(Value::Void, next)
}
