// The fields of a record, left to right: each its own 2 first, then its range. A field is read as where the next one stands, before that the
// number that it tells, if it tells one.
ghost use Rattle.std.specs.Prelude.{◌≡◌, ◌+◌, ◌*◌, ◌≤◌, length};
ghost use Rattle.design.specs.Records as R;
ghost use Rattle.design.specs.Fields.{ByteOrCut, Tells, TellsInstance, placed, ranged, two, four, params, bodies, method, rule, entries, schedule};

use crate::{Fault, text};

// An instance's ports (a user's has none), the word of its start value, and where the next record stands.
#[derive(Clone, Copy)]
pub struct Register {
    pub ports: usize,
    pub word: u32,
    pub next: usize,
}

// A byte of a record, before which the file may end.
pub fn byte(file: &[u8], at: usize) -> Result<(u8, usize), Fault>
    ensures { ByteOrCut file.now at result }
{
    text::byte(file, at).ok_or(Fault::Cut)
}

// A byte from `low` to `high`.
fn ranged(file: &[u8], at: usize, low: usize, high: usize) -> Result<(usize, usize), Fault>
    ensures { Tells (ranged low high) file.now at result }
{
    let (b, next) = byte(file, at)?;
    let value = text::wide(b);
    if (low..=high).contains(&value) {
        Ok((value, next))
    } else {
        Err(Fault::Field)
    }
}

// A length of two bytes.
pub fn two(file: &[u8], at: usize) -> Result<(usize, usize), Fault>
    ensures { Tells two file.now at result }
{
    let Some([low, high, ..]) = file.get(at..) else {
        return Err(Fault::Cut);
    };
    Ok((usize::from(u16::from_le_bytes([*low, *high])), at + 2))
}

// The word of a start value, of four bytes.
fn four(file: &[u8], at: usize) -> Result<(u32, usize), Fault>
    ensures { Tells four file.now at result }
{
    let Some([a, b, c, d, ..]) = file.get(at..) else {
        return Err(Fault::Cut);
    };
    Ok((u32::from_le_bytes([*a, *b, *c, *d]), at + 4))
}

// An RG counts as a CR with one port.
pub fn register_fields(file: &[u8], at: usize) -> Result<Register, Fault>
    ensures { TellsInstance R.RG file.now at result }
{
    let (word, next) = four(file, at)?;
    Ok(Register {
        ports: 1,
        word,
        next,
    })
}

pub fn concurrent_fields(file: &[u8], at: usize) -> Result<Register, Fault>
    ensures { TellsInstance R.CR file.now at result }
{
    let (ports, start) = ranged(file, at, 1, 4)?;
    let (word, next) = four(file, start)?;
    Ok(Register { ports, word, next })
}

// So many kinds of parameters, one byte each.
fn params(file: &[u8], at: usize, count: usize) -> Result<usize, Fault>
    requires { at ≤ length file.now }
    ensures { Tells (params count) file.now at (placed result) }
{
    let mut here = at;
    for _ in 0..count {
        let (_, next) = ranged(file, here, 1, 2)?;
        here = next;
    }
    Ok(here)
}

// A length, and so many bytes that are exactly `count` expressions.
fn bodies(file: &[u8], at: usize, count: usize) -> Result<usize, Fault>
    ensures { Tells (bodies count) file.now at (placed result) }
{
    let (bytes, start) = two(file, at)?;
    if file.len() - start < bytes {
        return Err(Fault::Cut);
    }
    let end = start + bytes;
    let last = text::skip_exprs(&file[..end], start, text::DEPTH, count).ok_or(Fault::Body)?;
    if last < end {
        Err(Fault::Body)
    } else {
        Ok(end)
    }
}

// Kind 1, A, has result 0, and the others have 1 or 2.
#[tactic(auto, unfolding(crate::specs::Records::agree, crate::specs::Take::pick))]
fn agree(kind: usize, res: usize) -> bool
    ensures { result ≡ R.agree kind res }
{
    if kind == 1 { res == 0 } else { 1 <= res }
}

// Kind, result and parameter count as one number.
fn shape(kind: usize, res: usize, count: usize) -> usize
    requires { (kind ≤ 2) × (res ≤ 2) × (count ≤ 4) }
    ensures { result ≡ kind + 4 * res + 16 * count }
{
    kind + 4 * res + 16 * count
}

// The value is the method's shape.
pub fn method_fields(file: &[u8], at: usize) -> Result<(usize, usize), Fault>
    ensures { Tells method file.now at result }
{
    let (kind, second) = ranged(file, at, 0, 2)?;
    let (res, third) = ranged(file, second, 0, 2)?;
    if !agree(kind, res) {
        return Err(Fault::Field);
    }
    let (count, fourth) = ranged(file, third, 0, 4)?;
    let length = params(file, fourth, count)?;
    let next = bodies(file, length, 1)?;
    Ok((shape(kind, res, count), next))
}

pub fn rule_fields(file: &[u8], at: usize) -> Result<usize, Fault>
    ensures { Tells rule file.now at (placed result) }
{
    bodies(file, at, 2)
}

// So many entries of the schedule: each names a rule, and none that an earlier one named.
fn entries(file: &[u8], at: usize, rules: usize, count: usize) -> Result<usize, Fault>
    requires { at ≤ length file.now }
    ensures { Tells (entries rules count) file.now at (placed result) }
{
    let mut here = at;
    for _ in 0..count {
        let (number, next) = byte(file, here)?;
        if rules <= text::wide(number) {
            return Err(Fault::Schedule);
        }
        if file[at..here].contains(&number) {
            return Err(Fault::Schedule);
        }
        here = next;
    }
    Ok(here)
}

// The value is the count of entries.
pub fn schedule_fields(file: &[u8], at: usize, rules: usize) -> Result<(usize, usize), Fault>
    ensures { Tells (schedule rules) file.now at result }
{
    let (count, first) = ranged(file, at, 0, 64)?;
    let next = entries(file, first, rules, count)?;
    Ok((count, next))
}
