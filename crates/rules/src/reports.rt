// The two reports, and images.
ghost use Rattle.std.specs.Prelude.{◌≡◌};
ghost use Rattle.rules.specs.Reports.{is_priming, is_activating, activate_allows, ending_of, prime_report_of, activate_report_of, image_of};

use crate::{Image, Move, Refusal, Report};
use board_record::{Record, State};
use codes::BY_RESET;

// A prime job is running for component id, withdrawn or not.
fn is_priming(s: State, id: u64) -> bool
    ensures { result ≡ is_priming s id }
{
    matches!(s, State::Preparing(c) | State::Withdrawn(c) if c == id)
}

// An activate job is running for component id, with rendezvous or without.
fn is_activating(s: State, id: u64) -> bool
    ensures { result ≡ is_activating s id }
{
    matches!(s, State::Together(c) | State::Alone(c) if c == id)
}

#[tactic(auto, unfolding(crate::specs::Reports::activate_allows))]
fn activate_allows(alone: bool, reset: bool, code: u64) -> bool
    ensures { result ≡ activate_allows alone reset code }
{
    match code {
        1 => alone,
        BY_RESET => !alone && reset,
        _ => codes::is_activate_code(code),
    }
}

// A withdrawn preparation ends as such, however its job went.
fn ending(s: State, report: Report) -> Move
    ensures { result ≡ ending_of s report }
{
    match s {
        State::Withdrawn(_) => Move::EndWithdrawn,
        _ => Move::EndPrime(report),
    }
}

#[tactic(auto, unfolding(crate::specs::Reports::prime_report_of))]
pub(crate) fn prime(rec: Record, report: Report) -> Move
    ensures { result ≡ prime_report_of rec report }
{
    if !is_priming(rec.state, report.component) {
        return Move::Refuse(Refusal::NoSuchJob);
    }
    if !codes::is_prime_code(report.code) {
        return Move::Refuse(Refusal::CodeNotAllowed);
    }
    ending(rec.state, report)
}

#[tactic(auto, unfolding(crate::specs::Reports::activate_report_of))]
pub(crate) fn activate(rec: Record, report: Report) -> Move
    ensures { result ≡ activate_report_of rec report }
{
    if !is_activating(rec.state, report.component) {
        return Move::Refuse(Refusal::NoSuchJob);
    }
    let reset = rec.board.may_reset(report.component);
    if !activate_allows(rec.state.is_alone(), reset, report.code) {
        return Move::Refuse(Refusal::CodeNotAllowed);
    }
    Move::EndActivate(report)
}

#[tactic(auto, unfolding(crate::specs::Reports::image_of))]
pub(crate) fn image(rec: Record, image: Image) -> Move
    ensures { result ≡ image_of rec image }
{
    if !rec.board.is_capable(image.component) {
        return Move::Refuse(Refusal::NotCapable);
    }
    if rec.state.is_for(image.component) {
        return Move::Refuse(Refusal::StateComponent);
    }
    Move::NoteImage(image)
}
