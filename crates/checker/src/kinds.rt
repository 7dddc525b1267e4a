// The walk of a body with kinds for values, over its bytes: meaning's Kinds has what a tree's kind is, and specs/Walks what an answer has to do
// with it. Bytes that do not read are never walked by a check, which reads first.
ghost use Rattle.std.specs.Prelude.{◌<◌, ◌-◌};
ghost use Rattle.design.specs.Grammar as G;
ghost use Rattle.checker.specs.Walks.{whole, after, statements, calls, place, KindOf, Reads, Wants, Leaf, Local, Takes, Gives, Operates, Negates, Results, Param, Fits};

use crate::locals::{Locals, MOST_LOCALS};
use design::kinds::{Kind, Operator, Statement, Tag};
use design::plan::Design;
use design::{plan, text};
use rule::naming::Callee;
use rule::{Reason, naming};

// The bytes of a number.
const WORD: usize = 4;

// A body that is walked: whose it is, its bytes, and the design for what a call names.
#[derive(Clone, Copy)]
pub(crate) struct Body<'a> {
    pub me: usize,
    pub text: &'a [u8],
    pub design: Design<'a, 'a>,
}

// The byte at a place, and where the next one stands. A body that was read has it.
fn byte(text: &[u8], at: usize) -> Result<(u8, usize), Reason>
    ensures { Reads text.now at result }
{
    text::byte(text, at).ok_or(Reason::Kind)
}

// Whether a part has the kind that is wanted.
pub(crate) fn wants(wanted: Kind, kind: Kind) -> Result<(), Reason>
    ensures { Wants wanted kind result }
{
    if kind == wanted {
        Ok(())
    } else {
        Err(Reason::Kind)
    }
}

fn number(text: &[u8], at: usize) -> Result<(Kind, usize), Reason>
    ensures { Leaf G.Tag.number text.now at result }
{
    if text.len().saturating_sub(at) < WORD {
        return Err(Reason::Kind);
    }
    Ok((Kind::Num, at + WORD))
}

fn truth(text: &[u8], at: usize) -> Result<(Kind, usize), Reason>
    ensures { Leaf G.Tag.truth text.now at result }
{
    let (_, next) = byte(text, at)?;
    Ok((Kind::Bool, next))
}

fn local(text: &[u8], locals: Locals, at: usize) -> Result<(Kind, usize), Reason>
    ensures { Local text.now locals.entry at result }
{
    let (b, next) = byte(text, at)?;
    match locals.kinds.get(usize::from(b)) {
        Some(&kind) => Ok((kind, next)),
        None => Err(Reason::Local),
    }
}

// And and or take two Bools, and those before them two Nums.
fn taken(op: Operator) -> Kind
    ensures { Takes op result }
{
    match op {
        Operator::And | Operator::Or | Operator::Not => Kind::Bool,
        _ => Kind::Num,
    }
}

// Plus and minus give a Num, and the others a Bool.
fn given(op: Operator) -> Kind
    ensures { Gives op result }
{
    match op {
        Operator::Plus | Operator::Minus => Kind::Num,
        _ => Kind::Bool,
    }
}

fn operated(op: Operator, a: Kind, b: Kind, at: usize) -> Result<(Kind, usize), Reason>
    ensures { Operates op a b at result }
{
    let kind = taken(op);
    wants(kind, a)?;
    wants(kind, b)?;
    Ok((given(op), at))
}

// Not takes a Bool, and gives one.
fn negated(a: Kind, at: usize) -> Result<(Kind, usize), Reason>
    ensures { Negates a at result }
{
    wants(Kind::Bool, a)?;
    Ok((Kind::Bool, at))
}

// The kind of parameter j of what a call names. A port's is a Num.
fn param(d: Design, c: Callee, j: usize) -> Kind
    ensures { Param d.entry.file.now d.entry.plan.now c j result }
{
    let Callee::User(k) = c else {
        return Kind::Num;
    };
    match d.kinds(k).get(j) {
        Some(&n) => Kind::from(n),
        None => Kind::Void,
    }
}

// The kind of what a call gives.
fn result(plan: &[u16], c: Callee) -> Kind
    ensures { Results plan.now c result }
{
    match c {
        Callee::Read => Kind::Num,
        Callee::Write => Kind::Void,
        Callee::User(k) => plan::signature_of(plan, k).result,
    }
}

impl<'a> Body<'a> {
    // The kind of an expression, by its tag, and where the bytes go on.
    #[cycle(walking)]
    pub(crate) fn kind_of(
        self,
        pure: bool,
        locals: Locals,
        at: usize,
    ) -> Result<(Kind, usize), Reason>
        ensures { KindOf whole self.entry pure locals.entry at result }
    {
        let (b, next) = byte(self.text, at)?;
        match Tag::try_from(b) {
            Ok(Tag::Number) => number(self.text, next),
            Ok(Tag::Truth) => truth(self.text, next),
            Ok(Tag::Local) => local(self.text, locals, next),
            Ok(Tag::Operator) => self.operator(pure, locals, next),
            Ok(Tag::Choice) => self.choice(pure, locals, next),
            Ok(Tag::Guarded) => self.guarded(pure, locals, next),
            Ok(Tag::Block) => self.block(pure, locals, next),
            Ok(Tag::Call) => self.call(pure, locals, next),
            Ok(Tag::Display) => self.display(pure, locals, next),
            Err(_) => Err(Reason::Kind),
        }
    }

    // All operands are walked before their kinds are tested.
    #[cycle(walking)]
    fn operator(self, pure: bool, locals: Locals, at: usize) -> Result<(Kind, usize), Reason>
        ensures { KindOf (after G.Tag.operator) self.entry pure locals.entry at result }
    {
        let (b, next) = byte(self.text, at)?;
        let Ok(op) = Operator::try_from(b) else {
            return Err(Reason::Kind);
        };
        let (a, other) = self.kind_of(pure, locals, next)?;
        if op == Operator::Not {
            return negated(a, other);
        }
        let (c, last) = self.kind_of(pure, locals, other)?;
        operated(op, a, c, last)
    }

    // An if: the condition stands in a pure place; both arms are walked, and then must agree.
    #[cycle(walking)]
    fn choice(self, pure: bool, locals: Locals, at: usize) -> Result<(Kind, usize), Reason>
        ensures { KindOf (after G.Tag.choice) self.entry pure locals.entry at result }
    {
        let (c, then) = self.kind_of(true, locals, at)?;
        wants(Kind::Bool, c)?;
        let (a, other) = self.kind_of(pure, locals, then)?;
        let (b, last) = self.kind_of(pure, locals, other)?;
        wants(a, b)?;
        Ok((a, last))
    }

    // A when: the guard stands in a pure place.
    #[cycle(walking)]
    fn guarded(self, pure: bool, locals: Locals, at: usize) -> Result<(Kind, usize), Reason>
        ensures { KindOf (after G.Tag.guarded) self.entry pure locals.entry at result }
    {
        let (g, body) = self.kind_of(true, locals, at)?;
        wants(Kind::Bool, g)?;
        self.kind_of(pure, locals, body)
    }

    #[cycle(walking)]
    fn block(self, pure: bool, locals: Locals, at: usize) -> Result<(Kind, usize), Reason>
        ensures { KindOf (after G.Tag.block) self.entry pure locals.entry at result }
    {
        let (b, next) = byte(self.text, at)?;
        let count = usize::from(b);
        if count < 1 {
            return Err(Reason::Kind);
        }
        self.statements(pure, locals, next, count)
    }

    // So many statements. A let binds after its expression; the last statement's kind is the block's, Void for a let.
    #[cycle(walking)]
    fn statements(
        self,
        pure: bool,
        locals: Locals,
        at: usize,
        count: usize,
    ) -> Result<(Kind, usize), Reason>
        requires { 0 < count }
        ensures { KindOf (statements (count - 1)) self.entry pure locals.entry at result }
    {
        let mut live = locals.kinds.len();
        let mut own = [Kind::Void; MOST_LOCALS];
        own[..live].copy_from_slice(locals.kinds);
        let mut here = at;
        let mut kind = Kind::Void;
        for _ in 0..count {
            let (b, next) = byte(self.text, here)?;
            let Ok(statement) = Statement::try_from(b) else {
                return Err(Reason::Kind);
            };
            let lent = Locals {
                kinds: &own[..live],
            };
            let (k, last) = self.kind_of(pure, lent, next)?;
            kind = k;
            here = last;
            if statement == Statement::Let {
                if MOST_LOCALS <= live {
                    return Err(Reason::Locals);
                }
                own[live] = k;
                live += 1;
                kind = Kind::Void;
            }
        }
        Ok((kind, here))
    }

    // So many arguments of what a call names: all are walked, and then it is said whether they fit, and where the bytes go on.
    #[cycle(walking)]
    fn arguments(
        self,
        pure: bool,
        locals: Locals,
        at: usize,
        count: usize,
        c: Callee,
    ) -> Result<(bool, usize), Reason>
        ensures { Fits count self.entry.text.now self.entry.design.file.now self.entry.design.plan.now (place self.entry.me pure locals.entry) at c result }
    {
        let mut fit = true;
        let mut here = at;
        for j in 0..count {
            let (kind, next) = self.kind_of(pure, locals, here)?;
            if kind != param(self.design, c, j) {
                fit = false;
            }
            here = next;
        }
        Ok((fit, here))
    }

    // A call: instance, method, argument count.
    #[cycle(walking)]
    fn call(self, pure: bool, locals: Locals, at: usize) -> Result<(Kind, usize), Reason>
        ensures { KindOf (after G.Tag.call) self.entry pure locals.entry at result }
    {
        let (i, method) = byte(self.text, at)?;
        let (m, size) = byte(self.text, method)?;
        let (n, start) = byte(self.text, size)?;
        self.invoke(
            pure,
            locals,
            start,
            usize::from(i),
            usize::from(m),
            usize::from(n),
        )
    }

    // A call takes its callee's declared kinds.
    #[cycle(walking)]
    fn invoke(
        self,
        pure: bool,
        locals: Locals,
        at: usize,
        i: usize,
        m: usize,
        n: usize,
    ) -> Result<(Kind, usize), Reason>
        ensures { KindOf (calls i m n) self.entry pure locals.entry at result }
    {
        let callee = naming::named(self.design.plan, self.me, i, m, n, pure)?;
        let (fit, last) = self.arguments(pure, locals, at, n, callee)?;
        if !fit {
            return Err(Reason::Kind);
        }
        Ok((result(self.design.plan, callee), last))
    }

    // A display tests purity, then its operand, which is a Num, and is Void.
    #[cycle(walking)]
    fn display(self, pure: bool, locals: Locals, at: usize) -> Result<(Kind, usize), Reason>
        ensures { KindOf (after G.Tag.display) self.entry pure locals.entry at result }
    {
        if pure {
            return Err(Reason::Pure);
        }
        let (k, last) = self.kind_of(pure, locals, at)?;
        wants(Kind::Num, k)?;
        Ok((Kind::Void, last))
    }
}
