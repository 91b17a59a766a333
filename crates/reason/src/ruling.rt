// The rules of ACTIVATE, one after another, as reasons.
ghost use Rattle.std.specs.Prelude.{◌≡◌, ◌++◌};
ghost use Rattle.basics.specs.First.{first_in};
ghost use Rattle.reason.specs.Reason.{missing_of, skip_rows, answer_rows, join_rows, ask_rows, reason_of};
ghost use Rattle.reason.specs.declared.Reason.TheVariants.{AllPresent};

use crate::{Activate, Reason};
use board_record::{Record, State};
use cpuset::CpuSet;

// Whom a rendezvous waits for: the powered CPUs that are not held and are not the caller; none that is off.
#[tactic(auto, unfolding(crate::specs::Reason::missing_of))]
fn still_missing(rec: Record, cpu: u64) -> CpuSet
    ensures { result ≡ missing_of rec cpu }
{
    rec.on.without(cpu).less(rec.held)
}

// The call is granted: it skips, or the caller joins those who wait.
#[tactic(auto, unfolding(crate::specs::Reason::call_of))]
fn joined(rec: Record, a: Activate) -> Reason
    ensures { result ≡ first_in AllPresent (join_rows rec a) }
{
    if a.x2 == 1 {
        Reason::Skipped
    } else if rec.held.with(a.cpu).same(rec.on) {
        Reason::AllPresent
    } else {
        Reason::Held(still_missing(rec, a.cpu))
    }
}

// The entry, and whether an activation runs already.
fn answered(rec: Record, a: Activate) -> Reason
    ensures { result ≡ first_in AllPresent (answer_rows rec a ++ join_rows rec a) }
{
    if !rec.board.is_entry_right(a.x1, a.x3) {
        Reason::BadEntry
    } else if let State::Alone(c) = rec.state {
        Reason::BeingActivated(c)
    } else {
        joined(rec, a)
    }
}

// Whether skip fits the component and the state.
#[tactic(auto, unfolding(crate::specs::Reason::call_of))]
fn skipping(rec: Record, a: Activate) -> Reason
    ensures { result ≡ first_in AllPresent (skip_rows rec a ++ (answer_rows rec a ++ join_rows rec a)) }
{
    let skip = a.x2 == 1;
    if skip && !rec.board.numbered(a.x1).optional {
        Reason::NotOptional
    } else if skip && rec.state.is_gathering() {
        Reason::SkipInGathering
    } else if !skip && rec.state.skips_rendezvous() {
        Reason::NoSkip
    } else {
        answered(rec, a)
    }
}

// The component and the flags.
#[tactic(auto, unfolding(crate::specs::Reason::call_of))]
fn asked(rec: Record, a: Activate) -> Reason
    ensures { result ≡ first_in AllPresent (ask_rows rec a ++ (skip_rows rec a ++ (answer_rows rec a ++ join_rows rec a))) }
{
    if !rec.state.is_for(a.x1) {
        Reason::OtherComponent(rec.state.subject_number())
    } else if a.x2 > 1 {
        Reason::OtherFlags
    } else {
        skipping(rec, a)
    }
}

// The first rule that applies, beginning with the state's.
#[tactic(auto, unfolding(crate::specs::Reason::reason_of))]
pub(crate) fn reason(rec: Record, a: Activate) -> Reason
    ensures { result ≡ reason_of rec a }
{
    match rec.state {
        State::Idle => Reason::NothingPrepared,
        State::Preparing(c) => Reason::BeingPrepared(c),
        State::HalfPrepared(c) => Reason::HalfPrepared(c),
        State::Dead => Reason::BoardDead,
        State::Withdrawn(c) => Reason::WasWithdrawn(c),
        _ => asked(rec, a),
    }
}
