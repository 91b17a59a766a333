// What each move does to the record, and what it answers.
ghost use Rattle.std.specs.Prelude.{◌≡◌, set};
ghost use Rattle.agent.specs.Perform.{refused_of, accepted_of, success_of, informed_of, note_info_of, imaged_of, note_image_of, joined_of, held_of, settled_of, freed_of, cancelled_of, to_idle_of, withdrawn_of, withdraw_of, powered_of, power_off_of, power_on_of, reported_of, after_prime, end_prime_of, end_withdrawn_of, after_activate, forgotten_of, is_done, ended_of, released_of, end_activate_of, perform_of};

use crate::{Answer, Caller, Freed, Release, Stepped};
use board_record::{Record, State};
use cpuset::CpuSet;
use rules::{Arrival, Image, Move, Refusal, Registers, Report, Waking};

// The status, without its sign, of those whose wait a CANCEL ended.
const CANCELLED: u64 = 11;

#[tactic(auto, unfolding(crate::specs::Perform::refused_of))]
fn refused(rec: Record, x: Refusal) -> Stepped
    ensures { result ≡ refused_of rec x }
{
    Stepped {
        rec,
        outcome: Err(x),
    }
}

#[tactic(auto, unfolding(crate::specs::Perform::accepted_of))]
fn accepted(rec: Record, caller: Caller, release: Release) -> Stepped
    ensures { result ≡ accepted_of rec caller release }
{
    Stepped {
        rec,
        outcome: Ok(Answer { caller, release }),
    }
}

// The caller goes on with 0 in X0, and x1.
fn success(x1: u64) -> Caller
    ensures { result ≡ success_of x1 }
{
    Caller::Returned(Registers {
        x0: 0,
        x1,
        x2: 0,
        x3: 0,
    })
}

#[tactic(auto, unfolding(crate::specs::Perform::informed_of))]
fn informed(rec: Record, noted: bool) -> Record
    ensures { result ≡ informed_of rec noted }
{
    Record {
        informed: noted,
        ..rec
    }
}

fn note_info(rec: Record) -> Stepped
    ensures { result ≡ note_info_of rec }
{
    accepted(
        informed(rec, true),
        success(rec.board.components),
        Release::Nobody,
    )
}

// An image of component id is pending with this version, or none is.
#[tactic(auto, unfolding(crate::specs::Perform::imaged_of), using(crate::proofs::Written::outside))]
fn imaged(rec: Record, id: u64, pending: bool, version: u32) -> Record
    ensures { result ≡ imaged_of rec id pending version }
{
    let mut next = rec;
    if id < board::MOST_COMPONENTS as u64 {
        next.pending[id as usize] = pending;
        next.version[id as usize] = version;
    }
    next
}

fn note_image(rec: Record, i: Image) -> Stepped
    ensures { result ≡ note_image_of rec i }
{
    accepted(
        imaged(rec, i.component, true, i.version),
        Caller::Nothing,
        Release::Nobody,
    )
}

// A table of CPUs with one place written.
#[tactic(auto, using(crate::proofs::Written::outside))]
fn put(mut table: [u64; board::MOST_CPUS], i: u64, v: u64) -> [u64; board::MOST_CPUS]
    ensures { result ≡ set table i v }
{
    if i < board::MOST_CPUS as u64 {
        table[i as usize] = v;
    }
    table
}

// The caller joins the held CPUs.
#[tactic(auto, unfolding(crate::specs::Perform::joined_of))]
fn joined(rec: Record, s: State, a: Arrival) -> Record
    ensures { result ≡ joined_of rec s a }
{
    Record {
        state: s,
        held: rec.held.with(a.cpu),
        entry: put(rec.entry, a.cpu, a.entry),
        context: put(rec.context, a.cpu, a.context),
        ..rec
    }
}

// The caller is held in this state.
fn hold(rec: Record, s: State, a: Arrival, caller: Caller) -> Stepped
    ensures { result ≡ held_of rec s a caller }
{
    accepted(joined(rec, s, a), caller, Release::Nobody)
}

// The held CPUs are released, and nothing is kept of them.
#[tactic(auto, unfolding(crate::specs::Perform::settled_of))]
fn settled(rec: Record, s: State) -> Record
    ensures { result ≡ settled_of rec s }
{
    Record {
        state: s,
        held: CpuSet::none(),
        entry: [0; board::MOST_CPUS],
        context: [0; board::MOST_CPUS],
        ..rec
    }
}

// CPUs that go on with a status and X1.
fn freed(cpus: CpuSet, x0: u64, x1: u64) -> Release
    ensures { result ≡ freed_of cpus x0 x1 }
{
    Release::Returned(Freed { cpus, x0, x1 })
}

// Those that a CANCEL releases: the CPUs held for ACTIVATE, and no others.
fn cancelled(rec: Record) -> Release
    ensures { result ≡ cancelled_of rec }
{
    if rec.state.is_gathering() {
        freed(rec.held, rules::minus(CANCELLED), 0)
    } else {
        Release::Nobody
    }
}

fn to_idle(rec: Record) -> Stepped
    ensures { result ≡ to_idle_of rec }
{
    accepted(settled(rec, State::Idle), success(0), cancelled(rec))
}

// The preparation is withdrawn; who called for it stays held.
#[tactic(auto, unfolding(crate::specs::Perform::withdrawn_of))]
fn withdrawn(rec: Record, id: u64) -> Record
    ensures { result ≡ withdrawn_of rec id }
{
    Record {
        state: State::Withdrawn(id),
        ..rec
    }
}

fn withdraw(rec: Record, id: u64) -> Stepped
    ensures { result ≡ withdraw_of rec id }
{
    accepted(withdrawn(rec, id), success(0), Release::Nobody)
}

#[tactic(auto, unfolding(crate::specs::Perform::powered_of))]
fn powered(rec: Record, cpus: CpuSet) -> Record
    ensures { result ≡ powered_of rec cpus }
{
    Record { on: cpus, ..rec }
}

fn power_off(rec: Record, cpu: u64) -> Stepped
    ensures { result ≡ power_off_of rec cpu }
{
    accepted(
        powered(rec, rec.on.without(cpu)),
        Caller::Gone,
        Release::Nobody,
    )
}

fn power_on(rec: Record, w: Waking) -> Stepped
    ensures { result ≡ power_on_of rec w }
{
    accepted(
        powered(rec, rec.on.with(w.target)),
        success(0),
        Release::Resumed(CpuSet::only(w.target)),
    )
}

// The status that a code says, and whether to call again.
#[tactic(auto, unfolding(crate::specs::Perform::reported_of))]
fn reported(held: CpuSet, code: u64) -> Release
    ensures { result ≡ reported_of held code }
{
    if code == 1 {
        freed(held, 0, 1)
    } else {
        freed(held, rules::minus(code), 0)
    }
}

#[tactic(auto, unfolding(crate::specs::Perform::after_prime))]
fn after_prime(p: Report) -> State
    ensures { result ≡ after_prime p }
{
    match p.code {
        0 => State::Ready(p.component),
        1 => State::HalfPrepared(p.component),
        _ => State::Idle,
    }
}

fn end_prime(rec: Record, p: Report) -> Stepped
    ensures { result ≡ end_prime_of rec p }
{
    accepted(
        settled(rec, after_prime(p)),
        Caller::Nothing,
        reported(rec.held, p.code),
    )
}

// A withdrawn preparation ended: its job's own result counts for nothing.
fn end_withdrawn(rec: Record) -> Stepped
    ensures { result ≡ end_withdrawn_of rec }
{
    accepted(
        settled(rec, State::Idle),
        Caller::Nothing,
        freed(rec.held, rules::minus(CANCELLED), 0),
    )
}

#[tactic(auto, unfolding(crate::specs::Perform::after_activate))]
fn after_activate(p: Report) -> State
    ensures { result ≡ after_activate p }
{
    match p.code {
        1 => State::HalfActivated(p.component),
        2 => State::Ready(p.component),
        5 => State::Dead,
        _ => State::Idle,
    }
}

// The image of component id is pending no more, and GET_INFO is forgotten.
fn forgotten(rec: Record, id: u64) -> Record
    ensures { result ≡ forgotten_of rec id }
{
    informed(imaged(rec, id, false, 0), false)
}

#[tactic(auto, unfolding(crate::specs::Perform::is_done))]
fn is_done(code: u64) -> bool
    ensures { result ≡ is_done code }
{
    code == 0 || code == codes::BY_RESET
}

#[tactic(auto, unfolding(crate::specs::Perform::ended_of))]
fn ended(rec: Record, p: Report) -> Record
    ensures { result ≡ ended_of rec p }
{
    let next = settled(rec, after_activate(p));
    if is_done(p.code) {
        forgotten(next, p.component)
    } else {
        next
    }
}

#[tactic(auto, unfolding(crate::specs::Perform::released_of))]
fn released(held: CpuSet, code: u64) -> Release
    ensures { result ≡ released_of held code }
{
    if code == codes::BY_RESET {
        Release::Resumed(held)
    } else {
        reported(held, code)
    }
}

fn end_activate(rec: Record, p: Report) -> Stepped
    ensures { result ≡ end_activate_of rec p }
{
    accepted(ended(rec, p), Caller::Nothing, released(rec.held, p.code))
}

// The next record and the answer of a move.
pub(crate) fn perform(rec: Record, m: Move) -> Stepped
    ensures { result ≡ perform_of rec m }
{
    match m {
        Move::Refuse(x) => refused(rec, x),
        Move::Return(x) => accepted(rec, Caller::Returned(x), Release::Nobody),
        Move::NoteInfo => note_info(rec),
        Move::StartPrime(a) => hold(rec, State::Preparing(a.component), a, Caller::PrimeStarted),
        Move::Gather(a) => hold(rec, State::Gathering(a.component), a, Caller::Held),
        Move::StartTogether(a) => hold(
            rec,
            State::Together(a.component),
            a,
            Caller::ActivationStarted,
        ),
        Move::StartAlone(a) => hold(rec, State::Alone(a.component), a, Caller::ActivationStarted),
        Move::ToIdle => to_idle(rec),
        Move::Withdraw(id) => withdraw(rec, id),
        Move::PowerOff(cpu) => power_off(rec, cpu),
        Move::PowerOn(w) => power_on(rec, w),
        Move::EndPrime(p) => end_prime(rec, p),
        Move::EndWithdrawn => end_withdrawn(rec),
        Move::EndActivate(p) => end_activate(rec, p),
        Move::NoteImage(i) => note_image(rec, i),
    }
}
