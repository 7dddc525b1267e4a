// Every method and rule is walked, in file order.
ghost use Rattle.std.specs.Prelude.{◌≤◌, length};
ghost use Rattle.checker.specs.Bodies.{Params, MethodWalks, RuleWalks, MethodNext, WalksAll};

use crate::Failure;
use crate::kinds::{Body, wants};
use crate::locals::Locals;
use design::kinds::{Kind, Role};
use design::plan;
use design::plan::Design;
use rule::Reason;

const MOST_PARAMS: usize = 4;

// The kinds of a method's parameters, its first locals, with room behind them.
fn params(kinds: &[u8]) -> [Kind; MOST_PARAMS]
    requires { length kinds.now ≤ 4 }
    ensures { Params kinds.now result }
{
    let mut own = [Kind::Void; MOST_PARAMS];
    for (j, &n) in kinds.iter().enumerate() {
        own[j] = Kind::from(n);
    }
    own
}

// The method of that number through the file. Its value must have the declared result kind.
fn walk_method(d: Design, k: usize) -> Result<(), Reason>
    ensures { MethodWalks d.entry.file.now d.entry.plan.now k result }
{
    let body = Body {
        me: plan::method_owner(d.plan, k),
        text: d.method_text(k),
        design: d,
    };
    let s = plan::signature_of(d.plan, k);
    let kinds = d.kinds(k);
    let own = params(kinds);
    let locals = Locals {
        kinds: &own[..kinds.len()],
    };
    let (kind, _) = body.kind_of(s.role == Role::Value, locals, 0)?;
    wants(s.result, kind)
}

// The rule of that number: its guard stands in a pure place and must be a Bool, and its body's value must be Void.
fn walk_rule(d: Design, n: usize) -> Result<(), Reason>
    ensures { RuleWalks d.entry.file.now d.entry.plan.now n result }
{
    let body = Body {
        me: plan::rule_owner(d.plan, n),
        text: d.rule_text(n),
        design: d,
    };
    let none = Locals { kinds: &[] };
    let (guard, start) = body.kind_of(true, none, 0)?;
    if guard != Kind::Bool {
        return Err(Reason::Kind);
    }
    let (kind, _) = body.kind_of(false, none, start)?;
    wants(Kind::Void, kind)
}

// Whether the next body is method k and not rule n: where both are left, the one that stands first.
fn method_next(plan: &[u16], k: usize, n: usize) -> bool
    ensures { MethodNext plan.now k n result }
{
    if plan::methods(plan) <= k {
        return false;
    }
    if plan::rules(plan) <= n {
        return true;
    }
    plan::method_place(plan, k) < plan::rule_place(plan, n)
}

// Walks the methods and the rules in the order in which they stand.
pub(crate) fn walk_all(d: Design) -> Result<(), Failure>
    ensures { WalksAll d.entry.file.now d.entry.plan.now result }
{
    let methods = plan::methods(d.plan);
    let rules = plan::rules(d.plan);
    let mut k = 0;
    let mut n = 0;
    for _ in 0..methods + rules {
        if method_next(d.plan, k, n) {
            if let Err(why) = walk_method(d, k) {
                return Err(Failure::Fails(why, plan::method_place(d.plan, k)));
            }
            k += 1;
        } else {
            if let Err(why) = walk_rule(d, n) {
                return Err(Failure::Fails(why, plan::rule_place(d.plan, n)));
            }
            n += 1;
        }
    }
    Ok(())
}
