// Reasons as numbers.
ghost use Rattle.std.specs.Prelude.{◌≡◌};
ghost use Rattle.flat.specs.Answers.{why_by};

use crate::FlatWhy;
use crate::answers::{flaw, told};
use cpuset::CpuSet;
use history::DEPARTS;
use reason::{Reason, Unexplained};

#[tactic(auto, unfolding(crate::specs::Answers::why_with, reason::specs::Numbers::because_of, reason::specs::Numbers::refused_with))]
pub(crate) fn explained(e: Result<Reason, Unexplained>) -> FlatWhy
    ensures { result ≡ why_by e }
{
    let named = e.map(|x| (x.number(), x.component(), x.missing()));
    let numbered = named.map_err(|x| match x {
        Unexplained::Board(x) => (u64::from(x), 0),
        Unexplained::Log(f) => flaw(f),
        Unexplained::Departs(place) => (DEPARTS, place),
        Unexplained::Call(x) => (u64::from(x), 0),
    });
    let (refusal, place, (reason, component, missing)) = told(numbered, (0, 0, CpuSet::none()));
    FlatWhy {
        refusal,
        place,
        reason,
        component,
        missing,
    }
}
