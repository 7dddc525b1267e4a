// What a call names, by the plan.
ghost use Rattle.std.specs.Prelude.{◌≡◌, ◌<◌};
ghost use Rattle.design.specs.Kinds as K;
ghost use Rattle.design.specs.Records as R;
ghost use Rattle.meaning.specs.Values.{kind_of, same_kind};
ghost use Rattle.rule.specs.Answers.{value};
ghost use Rattle.rule.specs.Named.{Naming, PortNamed, MethodNamed, Fitting};

use crate::{Reason, Value};
use design::kinds::{Kind, Role};
use design::plan;

// A method with a body is known by its number through the file.
#[derive(Clone, Copy)]
pub enum Callee {
    Read,
    Write,
    User(usize),
}

// A port of a register: even numbers read, odd ones write.
#[tactic(auto, using(crate::proofs::Callees::no_port, crate::proofs::Callees::read_count, crate::proofs::Callees::reads, crate::proofs::Callees::write_count, crate::proofs::Callees::write_pure, crate::proofs::Callees::writes))]
fn port(ports: usize, m: usize, n: usize, pure: bool) -> Result<Callee, Reason>
    requires { ports < 65536 }
    ensures { PortNamed ports m n pure result }
{
    if 2 * ports <= m {
        return Err(Reason::Method);
    }
    if m % 2 == 0 {
        if n != 0 {
            return Err(Reason::Count);
        }
        return Ok(Callee::Read);
    }
    if n != 1 {
        return Err(Reason::Count);
    }
    if pure {
        return Err(Reason::Pure);
    }
    Ok(Callee::Write)
}

// A method of a user's instance.
fn method(plan: &[u16], i: usize, m: usize, n: usize, pure: bool) -> Result<Callee, Reason>
    ensures { MethodNamed plan.now i m n pure result }
{
    let Some(k) = plan::find(plan, i, m) else {
        return Err(Reason::Method);
    };
    let s = plan::signature_of(plan, k);
    if n != s.count {
        return Err(Reason::Count);
    }
    let value = s.role == Role::Value;
    if pure && !value {
        return Err(Reason::Pure);
    }
    Ok(Callee::User(k))
}

// What a call names in the body of instance `me`: instance i, method m, n arguments.
pub fn named(
    plan: &[u16],
    me: usize,
    i: usize,
    m: usize,
    n: usize,
    pure: bool,
) -> Result<Callee, Reason>
    ensures { Naming plan.now me i m n pure result }
{
    if me <= i {
        return Err(Reason::Instance);
    }
    if plan::instances(plan) <= i {
        return Err(Reason::Instance);
    }
    let p = plan::ports(plan, i);
    if p == 0 {
        method(plan, i, m, n, pure)
    } else {
        port(p, m, n, pure)
    }
}

// Whether a value has that kind.
pub fn has_kind(kind: Kind, v: Value) -> bool
    ensures { result ≡ same_kind (K.kind kind) (kind_of (value v)) }
{
    match v {
        Value::Num(_) => kind == Kind::Num,
        Value::Bool(_) => kind == Kind::Bool,
        Value::Void => kind == Kind::Void,
    }
}

// Whether a value has the kind of that number: 0 Void, 1 Num, any other Bool.
pub fn same_kind(res: usize, v: Value) -> bool
    ensures { result ≡ same_kind (R.kind_of res) (kind_of (value v)) }
{
    has_kind(Kind::from(res.min(2) as u8), v)
}

// Whether as many values have these kinds, a byte each.
pub(crate) fn fits(kinds: &[u8], locals: &[Value]) -> bool
    ensures { Fitting kinds.now locals.now result }
{
    for (kind, v) in kinds.iter().zip(locals) {
        if !has_kind(Kind::from(*kind), *v) {
            return false;
        }
    }
    true
}
