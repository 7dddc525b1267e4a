// What a fired rule does: its writes in the order recorded. And the displays of a clock, which are read off its log.
ghost use Rattle.std.specs.Prelude.{◌≡◌, [], ◌∷◌, ◌<◌, ◌≤◌, length, set};
ghost use Rattle.words.specs.Words as W;
ghost use Rattle.clock.specs.Post.{Writes, Performs, Shows, Displays};

use design::plan;
use rule::event;

// The number of a word goes to a place.
pub(crate) fn store(list: &mut [i32], at: usize, word: u32)
    requires { at < length list.old }
    ensures { list.new ≡ set list.old at (W.number word) }
{
    list[at] = words::number(word);
}

// Odd methods write, and a register has ports.
fn write(plan: &[u16], event: u64, state: &mut [i32])
    ensures { Writes plan.now event state.old state.new }
{
    if event::method(event) % 2 == 0 {
        return;
    }
    let instance = event::instance(event);
    if state.len() <= instance {
        return;
    }
    if plan::ports(plan, instance) == 0 {
        return;
    }
    store(state, instance, event::word(event));
}

// The writes of a rule, in the order recorded.
pub fn perform(plan: &[u16], mine: &[u64], state: &mut [i32])
    ensures { Performs plan.now mine.now state.old state.new }
{
    for &event in mine {
        write(plan, event, state);
    }
}

// Puts the number of an event that is a display behind those shown.
fn show(event: u64, displays: &mut [i32], shown: usize) -> usize
    requires { shown < length displays.old }
    ensures { Shows (event ∷ []) displays.old shown displays.new result }
{
    if !event::is_display(event) {
        return shown;
    }
    store(displays, shown, event::word(event));
    shown + 1
}

// The displays of a log, in the order recorded; so many were made.
pub fn display(log: &[u64], displays: &mut [i32]) -> usize
    requires { length log.now ≤ length displays.old }
    ensures { Displays log.now displays.old displays.new result }
{
    let mut made = 0;
    for &event in log {
        made = show(event, displays, made);
    }
    made
}
