// What an evaluation goes by, beside the log: a body, a place in it, and a call that stands there.
ghost use Rattle.std.specs.Prelude.{◌≤◌, ◌<◌, length};

use crate::Value;
use design::plan::Design;

// A body that is evaluated: whose it is, its bytes, the design that it calls in, and the registers' numbers. An instance that owns a body
// has a number below 64, and so have those that it calls.
#[derive(Clone, Copy)]
pub struct Body<'a> {
    pub me: usize,
    pub text: &'a [u8],
    pub design: Design<'a, 'a>,
    pub state: &'a [i32],
    pub ghost short: { length text.now < 65536 },
    pub ghost below: { me ≤ length state.now },
    pub ghost small: { me ≤ 64 },
}

// Where in a body: whether it is a pure place, and the locals that live.
#[derive(Clone, Copy)]
pub struct Frame<'a> {
    pub pure: bool,
    pub locals: &'a [Value],
    pub ghost few: { length locals.now ≤ 16 },
}

// What a call says before its arguments, a byte each, and where the arguments stand.
#[derive(Clone, Copy)]
pub struct Call {
    pub instance: usize,
    pub method: usize,
    pub count: usize,
    pub at: usize,
    pub ghost instance_byte: { instance < 256 },
    pub ghost method_byte: { method < 256 },
    pub ghost few: { count ≤ 4 },
}
