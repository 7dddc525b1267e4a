// The check of a design, over the bytes of its file: meaning's Check says what it answers. It reads the file once, to a plan, walks every body
// with kinds for values (kinds, bodies), and then counts the calls that each rule could make (calls).
#![tactic(auto)]

mod bodies;
mod calls;
mod kinds;
mod locals;

ghost use Rattle.std.specs.Prelude.{◌≡◌};
ghost use Rattle.meaning.specs.Check.{check_file};
ghost use Rattle.checker.specs.Answers.{verdict, Bounded};
ghost use Rattle.checker.specs.Unstuck.{Unstuck};
ghost use Rattle.checker.specs.declared.Failure.{Failure};

use design::Refused;
use design::plan::Design;
use rule::Reason;

// Why a check does not pass: the file is refused, as reading it is; or a body or a rule fails, with its number and the offset of its record.
#[derive(Clone, Copy)]
pub enum Failure {
    Refused(Refused),
    Fails(Reason, usize),
}

impl From<Refused> for Failure {
    ghost from_gives = { λ why f. f ≡ Failure.Refused why };

    fn from(why: Refused) -> Failure {
        Failure::Refused(why)
    }
}

// Checks a file. The first failure is the answer. What passes never gets stuck.
pub fn check(file: &[u8]) -> Result<(), Failure>
    ensures verdict { verdict result ≡ check_file file.now }
    ensures unstuck { Unstuck file.now result }
    ensures bounded { Bounded result }
{
    let p = design::plan_of(file)?;
    let d = Design {
        file,
        plan: &p.plan,
    };
    bodies::walk_all(d)?;
    match calls::count_all(d) {
        None => Ok(()),
        Some(place) => Err(Failure::Fails(Reason::Calls, place)),
    }
}
