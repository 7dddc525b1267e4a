// The start values of the registers.
ghost use Rattle.std.specs.Prelude.{◌<◌, length};
ghost use Rattle.clock.specs.Post.{Sets, SetsAll};

use crate::fired;
use design::plan;

// The start value of an instance; a user's has none.
fn set_one(plan: &[u16], i: usize, state: &mut [i32])
    requires { i < length state.old }
    ensures { Sets plan.now i state.old state.new }
{
    if plan::ports(plan, i) == 0 {
        return;
    }
    fired::store(state, i, plan::start_word(plan, i));
}

pub fn set_all(plan: &[u16], state: &mut [i32])
    ensures { SetsAll plan.now state.old state.new }
{
    for i in 0..state.len() {
        set_one(plan, i, state);
    }
}
