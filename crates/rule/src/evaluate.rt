// The cycle of one rule's evaluation: the evaluator, the statement walk and the method call run each other. What falls is the instance number,
// then the bytes of the body that are left. The first part that is not a value is returned at once.
ghost use Rattle.std.specs.Prelude.{◌≡◌, ◌≤◌, ◌<◌, length, take};
ghost use Rattle.design.specs.Grammar as G;
ghost use Rattle.rule.specs.declared.naming.Callee as DC;
ghost use Rattle.rule.specs.Post.{whole, after, statements, Ready, Evaluates, Steps, Listed, Completes};

use crate::body::{Body, Call, Frame};
use crate::calling::MOST_ARGUMENTS;
use crate::naming::Callee;
use crate::{
    Answer, MOST_LOCALS, Mark, Reason, Value, calling, eval_local, eval_number, eval_truth, event,
    naming, negate, note, operate,
};
use design::kinds::{Operator, Role, Statement, Tag};
use design::text::DEPTH;
use design::{plan, text};

const MOST_STATEMENTS: usize = 32;

// What a statement came to, and the value that it binds.
#[derive(Clone, Copy)]
pub struct Stated {
    pub answer: Answer,
    pub bound: Option<Value>,
}

// An expression, by its tag.
#[cycle(evaluating)]
pub fn eval(body: &Body, log: &mut [u64], f: Frame, m: Mark) -> Answer
    requires { Ready log.old m }
    ensures { Evaluates whole body.now f.entry log.old m log.new result }
{
    let Some((b, at)) = text::byte(body.text, m.at) else {
        return Answer::Stuck(Reason::Kind);
    };
    let mark = Mark { at, ..m };
    match Tag::try_from(b) {
        Ok(Tag::Number) => eval_number(body.text, mark),
        Ok(Tag::Truth) => eval_truth(body.text, mark),
        Ok(Tag::Local) => eval_local(body, f, mark),
        Ok(Tag::Operator) => eval_operator(body, log, f, mark),
        Ok(Tag::Choice) => eval_if(body, log, f, mark),
        Ok(Tag::Guarded) => eval_when(body, log, f, mark),
        Ok(Tag::Block) => eval_block(body, log, f, mark),
        Ok(Tag::Call) => eval_call(body, log, f, mark),
        Ok(Tag::Display) => eval_display(body, log, f, mark),
        Err(_) => Answer::Stuck(Reason::Kind),
    }
}

// All operands are evaluated, then their kinds tested.
#[cycle(evaluating)]
fn eval_operator(body: &Body, log: &mut [u64], f: Frame, m: Mark) -> Answer
    requires { Ready log.old m }
    ensures { Evaluates (after G.Tag.operator) body.now f.entry log.old m log.new result }
{
    let Some((o, at)) = text::byte(body.text, m.at) else {
        return Answer::Stuck(Reason::Kind);
    };
    let Ok(op) = Operator::try_from(o) else {
        return Answer::Stuck(Reason::Kind);
    };
    let first = eval(body, log, f, Mark { at, ..m });
    let Answer::Value(a, m1) = first else {
        return first;
    };
    if let Operator::Not = op {
        return negate(a, m1);
    }
    let second = eval(body, log, f, m1);
    let Answer::Value(b, m2) = second else {
        return second;
    };
    operate(op, a, b, m2)
}

// Only the arm taken is evaluated; the other is passed over.
#[cycle(evaluating)]
fn eval_if(body: &Body, log: &mut [u64], f: Frame, m: Mark) -> Answer
    requires { Ready log.old m }
    ensures { Evaluates (after G.Tag.choice) body.now f.entry log.old m log.new result }
{
    let guard = Frame {
        pure: true,
        locals: f.locals,
    };
    let condition = eval(body, log, guard, m);
    let Answer::Value(c, m1) = condition else {
        return condition;
    };
    let Value::Bool(holds) = c else {
        return Answer::Stuck(Reason::Kind);
    };
    if holds {
        let taken = eval(body, log, f, m1);
        let Answer::Value(v, m2) = taken else {
            return taken;
        };
        let Some(at) = text::skip_expr(body.text, m2.at, DEPTH) else {
            return Answer::Stuck(Reason::Kind);
        };
        return Answer::Value(v, Mark { at, ..m2 });
    }
    let Some(at) = text::skip_expr(body.text, m1.at, DEPTH) else {
        return Answer::Stuck(Reason::Kind);
    };
    eval(body, log, f, Mark { at, ..m1 })
}

#[cycle(evaluating)]
fn eval_when(body: &Body, log: &mut [u64], f: Frame, m: Mark) -> Answer
    requires { Ready log.old m }
    ensures { Evaluates (after G.Tag.guarded) body.now f.entry log.old m log.new result }
{
    let guard = Frame {
        pure: true,
        locals: f.locals,
    };
    let condition = eval(body, log, guard, m);
    let Answer::Value(c, m1) = condition else {
        return condition;
    };
    let Value::Bool(holds) = c else {
        return Answer::Stuck(Reason::Kind);
    };
    if holds {
        return eval(body, log, f, m1);
    }
    Answer::Unavailable
}

#[cycle(evaluating)]
fn eval_block(body: &Body, log: &mut [u64], f: Frame, m: Mark) -> Answer
    requires { Ready log.old m }
    ensures { Evaluates (after G.Tag.block) body.now f.entry log.old m log.new result }
{
    let Some((b, at)) = text::byte(body.text, m.at) else {
        return Answer::Stuck(Reason::Kind);
    };
    let count = text::wide(b);
    if count < 1 || MOST_STATEMENTS < count {
        return Answer::Stuck(Reason::Kind);
    }
    walk(body, log, f, Mark { at, ..m }, count - 1)
}

// The locals that live when a block begins are the first of its own. A loop, since LLVM makes plain stores of it: a copy of the whole slice would
// ask for `memmove` from outside.
fn put_in_front(own: &mut [Value; MOST_LOCALS], locals: &[Value])
    requires { length locals.now ≤ 16 }
    ensures { take (length locals.now) own.new ≡ locals.now }
{
    for (k, v) in locals.iter().enumerate() {
        own[k] = *v;
    }
}

// One statement, and so many more. Leaving the block frees its lets: the walk's locals are its own.
#[cycle(evaluating)]
fn walk(body: &Body, log: &mut [u64], f: Frame, m: Mark, more: usize) -> Answer
    requires { Ready log.old m }
    ensures { Evaluates (statements more) body.now f.entry log.old m log.new result }
{
    // What fills them is never read. Its bytes are all 0, which takes few stores.
    let mut own = [Value::Num(0); MOST_LOCALS];
    let mut live = f.locals.len();
    put_in_front(&mut own, f.locals);
    let mut here = m;
    for _ in 0..more {
        let inner = Frame {
            pure: f.pure,
            locals: &own[..live],
        };
        let s = step(body, log, inner, here);
        let answer = s.answer;
        let Answer::Value(_, next) = answer else {
            return answer;
        };
        if let Some(v) = s.bound {
            own[live] = v;
            live += 1;
        }
        here = next;
    }
    let inner = Frame {
        pure: f.pure,
        locals: &own[..live],
    };
    let s = step(body, log, inner, here);
    s.answer
}

// One statement: a let binds its value and is Void; the 17th local is refused when it is bound.
#[cycle(evaluating)]
fn step(body: &Body, log: &mut [u64], f: Frame, m: Mark) -> Stated
    requires { Ready log.old m }
    ensures { Steps body.now f.entry log.old m log.new result }
{
    let bad = Stated {
        answer: Answer::Stuck(Reason::Kind),
        bound: None,
    };
    let Some((b, at)) = text::byte(body.text, m.at) else {
        return bad;
    };
    let Ok(statement) = Statement::try_from(b) else {
        return bad;
    };
    let here = Mark { at, ..m };
    let answer = eval(body, log, f, here);
    let unbound = Stated {
        answer,
        bound: None,
    };
    let Answer::Value(v, next) = answer else {
        return unbound;
    };
    if let Statement::Do = statement {
        return unbound;
    }
    if MOST_LOCALS <= f.locals.len() {
        return Stated {
            answer: Answer::Stuck(Reason::Locals),
            bound: None,
        };
    }
    Stated {
        answer: Answer::Value(Value::Void, next),
        bound: Some(v),
    }
}

// So many arguments, whose values are the first of `args` then.
#[cycle(evaluating)]
fn eval_args(
    body: &Body,
    log: &mut [u64],
    f: Frame,
    m: Mark,
    count: usize,
    args: &mut [Value; MOST_ARGUMENTS],
) -> Answer
    requires { Ready log.old m × (count ≤ 4) × (m.at ≤ length body.now.text.now) }
    ensures { Listed count body.now f.entry log.old m args.new log.new result }
{
    let mut here = m;
    for made in 0..count {
        let answer = eval(body, log, f, here);
        let Answer::Value(v, next) = answer else {
            return answer;
        };
        args[made] = v;
        here = next;
    }
    Answer::Value(Value::Void, here)
}

// In order: instance, method, argument count, purity, arguments; then the callee does the rest. A read has no arguments to wait for.
#[cycle(evaluating)]
fn eval_call(body: &Body, log: &mut [u64], f: Frame, m: Mark) -> Answer
    requires { Ready log.old m }
    ensures { Evaluates (after G.Tag.call) body.now f.entry log.old m log.new result }
{
    let Some(call) = calling::begin(body.text, m.at) else {
        return Answer::Stuck(Reason::Kind);
    };
    if body.me <= call.instance {
        return Answer::Stuck(Reason::Instance);
    }
    let n = call.count;
    let callee = match naming::named(
        body.design.plan,
        body.me,
        call.instance,
        call.method,
        n,
        f.pure,
    ) {
        Ok(callee) => callee,
        Err(reason) => return Answer::Stuck(reason),
    };
    let first = Mark { at: call.at, ..m };
    if let Callee::Read = callee {
        return calling::read_port(body.state, log, first, call);
    }
    let mut args = [Value::Void; MOST_ARGUMENTS];
    let answer = eval_args(body, log, f, first, n, &mut args);
    let Answer::Value(_, m1) = answer else {
        return answer;
    };
    let g = Frame {
        pure: f.pure,
        locals: &args[..n],
    };
    finish(body, log, g, m1, callee, call)
}

// What is left of a call when its arguments have values, which are the locals.
#[cycle(evaluating)]
fn finish(body: &Body, log: &mut [u64], f: Frame, m: Mark, callee: Callee, call: Call) -> Answer
    requires { Ready log.old m × (call.instance < body.now.me) }
    ensures { Completes callee body.now f.entry log.old m call.instance call.method log.new result }
{
    match callee {
        Callee::Read => calling::read_port(body.state, log, m, call),
        Callee::Write => calling::write_port(body.state, log, f.locals, m, call),
        Callee::User(method) => enter(body, log, f, m, method, call),
    }
}

// A method's body: argument kinds, call limit; then the call is recorded, the body is done, and its value must have the declared kind.
#[cycle(evaluating)]
fn enter(body: &Body, log: &mut [u64], f: Frame, m: Mark, method: usize, call: Call) -> Answer
    requires { Ready log.old m × (call.instance < body.now.me) }
    ensures { Completes (DC.Callee.User method) body.now f.entry log.old m call.instance call.method log.new result }
{
    let kinds = body.design.kinds(method);
    if !naming::fits(kinds, f.locals) {
        return Answer::Stuck(Reason::Kind);
    }
    let Some(next) = note(log, m, event::packed(call.instance, call.method, 0)) else {
        return Answer::Stuck(Reason::Calls);
    };
    let s = plan::signature_of(body.design.plan, method);
    let g = Frame {
        pure: s.role == Role::Value,
        locals: f.locals,
    };
    let first = Mark { at: 0, ..next };
    let callee = Body {
        me: call.instance,
        text: body.design.method_text(method),
        design: body.design,
        state: body.state,
    };
    let answer = eval(&callee, log, g, first);
    let Answer::Value(v, inside) = answer else {
        return answer;
    };
    if !naming::has_kind(s.result, v) {
        return Answer::Stuck(Reason::Kind);
    }
    Answer::Value(v, Mark { at: m.at, ..inside })
}

// Purity, then operand, kind Num, call limit; a display is Void, and counts as one call.
#[cycle(evaluating)]
fn eval_display(body: &Body, log: &mut [u64], f: Frame, m: Mark) -> Answer
    requires { Ready log.old m }
    ensures { Evaluates (after G.Tag.display) body.now f.entry log.old m log.new result }
{
    if f.pure {
        return Answer::Stuck(Reason::Pure);
    }
    let answer = eval(body, log, f, m);
    let Answer::Value(v, m1) = answer else {
        return answer;
    };
    let Value::Num(word) = v else {
        return Answer::Stuck(Reason::Kind);
    };
    let Some(next) = note(log, m1, event::display(word)) else {
        return Answer::Stuck(Reason::Calls);
    };
    Answer::Value(Value::Void, next)
}
