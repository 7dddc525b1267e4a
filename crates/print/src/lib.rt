// Text that goes into a buffer, behind what it holds already. What finds no room is left out. specs/Page has what that means.
#![tactic(auto)]

ghost use Rattle.std.specs.Prelude.{◌≡◌, [], ◌∷◌, ◌≤◌, min, take, IsOk};
ghost use Rattle.print.specs.Page.{puts, page, Puts, Spells, Writes};

use std::fmt;

// A buffer, and where its text ends.
#[derive(Drop)]
pub struct Page<'a> {
    pub out: &'a mut [u8],
    pub end: usize,
}

impl<'a> Page<'a> {
    // An empty page.
    pub fn new(out: &'a mut [u8]) -> Page<'a>
        ensures page { page result ≡ record { buffer = out.old; end = 0 } }
        ensures lent { result.out.ghost_name ≡ out.entry.ghost_name }
    {
        Page { out, end: 0 }
    }

    // Begins the text anew.
    pub fn clear(&mut self)
        ensures page { page self.new ≡ record { buffer = (page self.old).buffer; end = 0 } }
        ensures lent { self.new.out.ghost_name ≡ self.old.out.ghost_name }
    {
        self.end = 0;
    }

    #[tactic(auto, using(crate::proofs::Filling::put_room, crate::proofs::Filling::put_full))]
    pub fn put(&mut self, byte: u8)
        ensures page { Puts (byte ∷ []) (page self.old) (page self.new) }
        ensures lent { self.new.out.ghost_name ≡ self.old.out.ghost_name }
    {
        if self.end < self.out.len() {
            self.out[self.end] = byte;
            self.end += 1;
        }
    }

    #[tactic(auto, using(crate::proofs::Filling::filling_start, crate::proofs::Filling::filling_on, crate::proofs::Filling::filling_done))]
    pub fn word(&mut self, w: &[u8])
        ensures page { Puts w.now (page self.old) (page self.new) }
        ensures lent { self.new.out.ghost_name ≡ self.old.out.ghost_name }
    {
        for k in 0..w.len() {
            self.put(w[k]);
        }
    }

    pub fn decimal(&mut self, n: u64)
        ensures page { Spells n (page self.old) (page self.new) }
        ensures lent { self.new.out.ghost_name ≡ self.old.out.ghost_name }
    {
        let mut digits = [0u8; 20];
        let k = io::decimal(n, &mut digits);
        self.word(&digits[..k]);
    }

    // A number with its sign; the least one, too.
    pub fn number(&mut self, x: i32)
        ensures page { Writes x (page self.old) (page self.new) }
        ensures lent { self.new.out.ghost_name ≡ self.old.out.ghost_name }
    {
        let negative = x < 0;
        if negative {
            self.put(b'-');
        }
        self.decimal(u64::from(x.unsigned_abs()));
    }

    // The text so far.
    pub fn text(&self) -> &[u8]
        ensures { result.now ≡ take self.now.end self.now.out.now }
    {
        text(self.out, self.end)
    }
}

// What is formatted goes onto a page as text. It cannot fail: what finds no room is left out.
impl fmt::Write for Page<'_> {
    ghost write_str_gives = { λ before text after. Puts text (page before) (page after) };

    fn write_str(&mut self, s: &str) -> fmt::Result
        ensures ok { IsOk result → Puts s.now (page self.old) (page self.new) }
        ensures done { IsOk result }
        ensures lent { self.new.out.ghost_name ≡ self.old.out.ghost_name }
    {
        self.word(s.as_bytes());
        Ok(())
    }
}

// The text of a buffer, up to an end.
pub fn text(out: &[u8], end: usize) -> &[u8]
    ensures { result.now ≡ take end out.now }
{
    let n = least(end, out.len());
    &out[..n]
}

pub fn least(a: usize, b: usize) -> usize
    ensures { (result ≤ a) × (result ≤ b) × (result ≡ min a b) }
{
    a.min(b)
}
