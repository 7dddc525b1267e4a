// The locals of a walk over kinds.
ghost use Rattle.std.specs.Prelude.{◌≤◌, length};

use design::kinds::Kind;

// "28: 17th live local"
pub const MOST_LOCALS: usize = 16;

// The kinds of the live locals, lent by whoever binds them.
#[derive(Clone, Copy)]
pub struct Locals<'a> {
    pub kinds: &'a [Kind],
    pub ghost few: { length kinds.now ≤ 16 },
}
