// The board's arithmetic, as specs/Words.antt defines it: numbers of 32 bits with a sign, sums and differences that wrap, and the
// ordinary order. A number and its word have the same bits, so `word` and `number` compile to nothing.
#![tactic(auto)]

ghost use Rattle.std.specs.Prelude.{◌≡◌};
ghost use Rattle.words.specs.Words as W;

// The word of a number: its residue modulo 2^32.
#[tactic(auto, using(crate::proofs::Laws::word_of_z))]
pub fn word(x: i32) -> u32
    ensures { result ≡ W.word x }
{
    x.cast_unsigned()
}

// The number of a word.
#[tactic(auto, using(crate::proofs::Laws::number_to_z))]
pub fn number(w: u32) -> i32
    ensures { result ≡ W.number w }
{
    w.cast_signed()
}

// a + b, wrapped.
#[tactic(auto, using(crate::proofs::Laws::summed, crate::proofs::Laws::summed_round))]
pub fn plus(a: i32, b: i32) -> i32
    ensures { result ≡ W.plus a b }
{
    a.wrapping_add(b)
}

// a - b, wrapped.
#[tactic(auto, using(crate::proofs::Laws::subtracted))]
pub fn minus(a: i32, b: i32) -> i32
    ensures { result ≡ W.minus a b }
{
    a.wrapping_sub(b)
}

// Whether a is below b in the ordinary order, however far apart they are.
#[tactic(auto, unfolding(crate::specs::Words::less))]
pub fn less(a: i32, b: i32) -> bool
    ensures { result ≡ W.less a b }
{
    a < b
}

// Whether the two are the same number.
#[tactic(auto, unfolding(crate::specs::Words::equal))]
pub fn equal(a: i32, b: i32) -> bool
    ensures { result ≡ W.equal a b }
{
    a == b
}
