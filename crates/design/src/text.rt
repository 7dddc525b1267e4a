// Passing over the expressions of a body. A text ends with the body: while the file is read it is the file up to there, so that places are the
// file's; a walker of what was read has the body alone.
ghost use Rattle.std.specs.Prelude.{◌≡◌, ◌≤◌, length};
ghost use Rattle.design.specs.Grammar as G;
ghost use Rattle.design.specs.Text.{Sees, Bytes, After, Starts, Skips, whole, one, several, statements};

use crate::kinds::{Operator, Statement, Tag};

// "depth 16 is read, 17 refused"
pub const DEPTH: usize = 16;

// What stands behind an expression's tag and its plain bytes: nothing more; so many expressions; one statement and so many more.
#[derive(Clone, Copy)]
pub enum Head {
    Plain,
    Exprs(usize),
    Statements(usize),
}

// The byte at a place, and where the next one stands.
pub fn byte(text: &[u8], at: usize) -> Option<(u8, usize)>
    ensures { Sees text.now at result }
{
    if at < text.len() {
        Some((text[at], at + 1))
    } else {
        None
    }
}

pub fn wide(x: u8) -> usize
    ensures { result ≡ x }
{
    usize::from(x)
}

// Where the bytes go on behind so many plain ones.
#[tactic(auto, unfolding(crate::specs::Text::Room))]
fn skip_bytes(text: &[u8], at: usize, count: usize) -> Option<usize>
    ensures { Bytes text.now at count result }
{
    let left = text.len().checked_sub(at)?;
    if left < count { None } else { Some(at + count) }
}

fn number_head(text: &[u8], at: usize) -> Option<(Head, usize)>
    ensures { After G.Tag.number text.now at result }
{
    let next = skip_bytes(text, at, 4)?;
    Some((Head::Plain, next))
}

#[tactic(auto, using(crate::proofs::Heads::truth_done, crate::proofs::Heads::truth_bad))]
fn truth_head(text: &[u8], at: usize) -> Option<(Head, usize)>
    ensures { After G.Tag.truth text.now at result }
{
    let (b, next) = byte(text, at)?;
    if b < 2 {
        Some((Head::Plain, next))
    } else {
        None
    }
}

#[tactic(auto, using(crate::proofs::Heads::local_done))]
fn local_head(text: &[u8], at: usize) -> Option<(Head, usize)>
    ensures { After G.Tag.local text.now at result }
{
    let (_, next) = byte(text, at)?;
    Some((Head::Plain, next))
}

// Not has one operand, and the other operators have two.
fn operator_head(text: &[u8], at: usize) -> Option<(Head, usize)>
    ensures { After G.Tag.operator text.now at result }
{
    let (b, next) = byte(text, at)?;
    let Ok(operator) = Operator::try_from(b) else {
        return None;
    };
    match operator {
        Operator::Not => Some((Head::Exprs(1), next)),
        _ => Some((Head::Exprs(2), next)),
    }
}

fn block_head(text: &[u8], at: usize) -> Option<(Head, usize)>
    ensures { After G.Tag.block text.now at result }
{
    let (b, next) = byte(text, at)?;
    let count = wide(b);
    if count < 1 {
        return None;
    }
    if 32 < count {
        return None;
    }
    Some((Head::Statements(count - 1), next))
}

fn call_head(text: &[u8], at: usize) -> Option<(Head, usize)>
    ensures { After G.Tag.call text.now at result }
{
    let (_, method) = byte(text, at)?;
    let (_, arguments) = byte(text, method)?;
    let (b, next) = byte(text, arguments)?;
    let count = wide(b);
    if count <= 4 {
        Some((Head::Exprs(count), next))
    } else {
        None
    }
}

// What begins the expression at a place, and where it goes on.
fn begin(text: &[u8], at: usize) -> Option<(Head, usize)>
    ensures { Starts text.now at result }
{
    let (b, next) = byte(text, at)?;
    match Tag::try_from(b) {
        Ok(Tag::Number) => number_head(text, next),
        Ok(Tag::Truth) => truth_head(text, next),
        Ok(Tag::Local) => local_head(text, next),
        Ok(Tag::Operator) => operator_head(text, next),
        Ok(Tag::Choice) => Some((Head::Exprs(3), next)),
        Ok(Tag::Guarded) => Some((Head::Exprs(2), next)),
        Ok(Tag::Block) => block_head(text, next),
        Ok(Tag::Call) => call_head(text, next),
        Ok(Tag::Display) => Some((Head::Exprs(1), next)),
        Err(_) => None,
    }
}

// Passes over an expression, where so many levels of depth are left.
#[cycle(skipping)]
pub fn skip_expr(text: &[u8], at: usize, levels: usize) -> Option<usize>
    ensures { Skips whole text.now at levels result }
{
    let inner = levels.checked_sub(1)?;
    let (head, next) = begin(text, at)?;
    match head {
        Head::Plain => Some(next),
        Head::Exprs(count) => skip_exprs(text, next, inner, count),
        Head::Statements(more) => skip_statements(text, next, inner, more),
    }
}

// Passes over so many expressions.
#[cycle(skipping)]
pub(crate) fn skip_exprs(text: &[u8], at: usize, levels: usize, count: usize) -> Option<usize>
    requires { at ≤ length text.now }
    ensures { Skips (several count) text.now at levels result }
{
    let mut here = at;
    for _ in 0..count {
        here = skip_expr(text, here, levels)?;
    }
    Some(here)
}

// Passes over one statement, which is 08 or 09 and an expression.
#[cycle(skipping)]
fn skip_statement(text: &[u8], at: usize, levels: usize) -> Option<usize>
    ensures { Skips one text.now at levels result }
{
    let (b, next) = byte(text, at)?;
    match Statement::try_from(b) {
        Ok(_) => skip_expr(text, next, levels),
        Err(_) => None,
    }
}

// Passes over one statement and so many more.
#[cycle(skipping)]
fn skip_statements(text: &[u8], at: usize, levels: usize, more: usize) -> Option<usize>
    ensures { Skips (statements more) text.now at levels result }
{
    let mut here = at;
    for _ in 0..more {
        here = skip_statement(text, here, levels)?;
    }
    skip_statement(text, here, levels)
}
