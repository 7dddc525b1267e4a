// Whether the calls that a rule recorded clash, among themselves or with those of the rules that fired earlier in the clock: the fate of a
// rule that came to a value. meaning's Conflict has what that means, on lists of events; rule's specs/Log how an event is kept as a number.
// What a call names is asked of the design's plan: no record is read here.
#![tactic(auto)]

ghost use Rattle.std.specs.Prelude.{◌≡◌, ◌%◌};
ghost use Rattle.meaning.specs.Lookup as L;
ghost use Rattle.meaning.specs.Conflict as C;
ghost use Rattle.conflict.specs.Post.{access_of, Ruled, Plain, PlainMethod, OnPorts, Twice, Clashes, Within, Against};
ghost use Rattle.conflict.specs.Promises.{fate_of, Judges};

use design::kinds::Role;
use design::plan;
use rule::event;

// Document 01's fates 0 to 6, in their order.
#[derive(Clone, Copy, PartialEq, Eq)]
pub enum Fate {
    Fired,
    Unavailable,
    Inside,
    Earlier,
    Hardware,
    Stuck,
    NotReached,
}

#[tactic(auto, unfolding(crate::specs::Promises::fate_of, meaning::specs::Conflict::fate_number))]
impl From<Fate> for u8 {
    ghost from_gives = { λ fate n. n ≡ C.fate_number (fate_of fate) };

    fn from(fate: Fate) -> u8 {
        match fate {
            Fate::Fired => 0,
            Fate::Unavailable => 1,
            Fate::Inside => 2,
            Fate::Earlier => 3,
            Fate::Hardware => 4,
            Fate::Stuck => 5,
            Fate::NotReached => 6,
        }
    }
}

// The three ways in which two calls clash.
#[derive(Clone, Copy)]
enum Clash {
    Inside,
    Earlier,
    Hardware,
}

// A method of a register: "2i = read i and 2i+1 = write i".
#[derive(Clone, Copy)]
enum Access {
    Read(usize),
    Write(usize),
}

// A register has at most four ports, so eight methods.
const METHODS: usize = 8;

// A number past the methods counts as what is left of it by them.
fn as_access(method: usize) -> Access
    ensures { access_of result ≡ L.access (method % 8) }
{
    let port = method % METHODS / 2;
    if method % 2 == 0 {
        return Access::Read(port);
    }
    Access::Write(port)
}

// Document 01's five comparisons of port numbers: two of calls inside one rule, in any order of the two, and three of a call of an earlier
// rule with one of a later. Read with read never clashes.
#[tactic(auto, unfolding(meaning::specs::Conflict::inside_ports))]
fn write_with_read(i: usize, j: usize) -> bool
    ensures { result ≡ C.inside_ports (L.Access.write i) (L.Access.read j) }
{
    i < j // "write i with read j, i < j"
}

#[tactic(auto, unfolding(meaning::specs::Conflict::inside_ports))]
fn write_with_write(i: usize, j: usize) -> bool
    ensures { result ≡ C.inside_ports (L.Access.write i) (L.Access.write j) }
{
    i != j // "write i with write j, i different from j"
}

#[tactic(auto, unfolding(meaning::specs::Conflict::earlier_ports))]
fn write_then_read(i: usize, j: usize) -> bool
    ensures { result ≡ C.earlier_ports (L.Access.write i) (L.Access.read j) }
{
    j <= i // "write i then read j, j <= i"
}

#[tactic(auto, unfolding(meaning::specs::Conflict::earlier_ports))]
fn write_then_write(i: usize, j: usize) -> bool
    ensures { result ≡ C.earlier_ports (L.Access.write i) (L.Access.write j) }
{
    j < i // "write i then write j, j < i"
}

#[tactic(auto, unfolding(meaning::specs::Conflict::earlier_ports))]
fn read_then_write(i: usize, j: usize) -> bool
    ensures { result ≡ C.earlier_ports (L.Access.read i) (L.Access.write j) }
{
    j < i // "read i then write j, j < i"
}

// The rule of a pair inside one rule: which of the two calls came first does not matter.
fn inside_ports(first: usize, second: usize) -> bool
    ensures { Ruled C.inside_ports first second result }
{
    match (as_access(first), as_access(second)) {
        (Access::Write(i), Access::Read(j)) => write_with_read(i, j),
        (Access::Write(i), Access::Write(j)) => write_with_write(i, j),
        (Access::Read(j), Access::Write(i)) => write_with_read(i, j),
        (Access::Read(_), Access::Read(_)) => false,
    }
}

// The rule of a pair of an earlier and a later rule.
fn earlier_ports(first: usize, second: usize) -> bool
    ensures { Ruled C.earlier_ports first second result }
{
    match (as_access(first), as_access(second)) {
        (Access::Write(i), Access::Read(j)) => write_then_read(i, j),
        (Access::Write(i), Access::Write(j)) => write_then_write(i, j),
        (Access::Read(i), Access::Write(j)) => read_then_write(i, j),
        (Access::Read(_), Access::Read(_)) => false,
    }
}

// Is a user's method V and without parameters?
fn is_plain_method(plan: &[u16], instance: usize, method: usize) -> bool
    ensures { PlainMethod plan.now instance method result }
{
    let Some(k) = plan::find(plan, instance, method) else {
        return false;
    };
    let s = plan::signature_of(plan, k);
    s.role == Role::Value && s.count == 0
}

// Is a method V and without parameters? Of a register the reads are.
fn is_plain(plan: &[u16], instance: usize, method: usize) -> bool
    ensures { Plain plan.now instance method result }
{
    let ports = plan::ports(plan, instance);
    if ports == 0 {
        return is_plain_method(plan, instance, method);
    }
    if ports <= method / 2 {
        return false;
    }
    method % 2 == 0
}

// Two calls of one instance clash by their ports only where the instance is a register.
fn on_ports(plan: &[u16], instance: usize, clash: bool) -> bool
    ensures { OnPorts plan.now instance clash result }
{
    clash && 0 < plan::ports(plan, instance)
}

// The same method twice, unless it is plain.
fn twice(plan: &[u16], instance: usize, method: usize, event: u64) -> bool
    ensures { Twice plan.now instance method event result }
{
    if event::is_display(event) {
        return false; // a display takes no part
    }
    if event::method(event) != method {
        return false;
    }
    !is_plain(plan, instance, method)
}

// Does an event clash with a later one?
fn clashes(plan: &[u16], clash: Clash, first: u64, second: u64) -> bool
    ensures { Clashes clash plan.now first second result }
{
    let instance = event::instance(first);
    if event::instance(second) != instance {
        return false;
    }
    let method = event::method(first);
    let other = event::method(second);
    match clash {
        Clash::Inside => on_ports(plan, instance, inside_ports(method, other)),
        Clash::Earlier => on_ports(plan, instance, earlier_ports(method, other)),
        Clash::Hardware => twice(plan, instance, method, second),
    }
}

// Does some pair of one rule's calls clash? Tried in call order, up to the first that does.
fn within(plan: &[u16], mine: &[u64], clash: Clash) -> bool
    ensures { Within clash plan.now mine.now result }
{
    let mut found = false;
    'search: for (a, &first) in mine.iter().enumerate() {
        for b in a + 1..mine.len() {
            if clashes(plan, clash, first, mine[b]) {
                found = true;
                break 'search;
            }
        }
    }
    found
}

// Does some call of an earlier rule clash with one of this rule's?
fn against(plan: &[u16], before: &[u64], mine: &[u64], clash: Clash) -> bool
    ensures { Against clash plan.now before.now mine.now result }
{
    let mut found = false;
    'search: for &first in before {
        for b in 0..mine.len() {
            if clashes(plan, clash, first, mine[b]) {
                found = true;
                break 'search;
            }
        }
    }
    found
}

// The fate of a rule that recorded `mine`, after rules that fired and recorded `before`: the first that applies.
pub fn judge(plan: &[u16], before: &[u64], mine: &[u64]) -> Fate
    ensures { Judges plan.now before.now mine.now result }
{
    if within(plan, mine, Clash::Inside) {
        return Fate::Inside;
    }
    if against(plan, before, mine, Clash::Earlier) {
        return Fate::Earlier;
    }
    if within(plan, mine, Clash::Hardware) {
        return Fate::Hardware;
    }
    if against(plan, before, mine, Clash::Hardware) {
        return Fate::Hardware;
    }
    Fate::Fired
}
