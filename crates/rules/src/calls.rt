// The nine calls.
ghost use Rattle.std.specs.Prelude.{◌≡◌, ◌+◌, ◌≤◌};
ghost use Rattle.board.specs.Description.{uuid_bytes};
ghost use Rattle.rules.specs.Calls.{returned, says, no_caller, word_of, flags_of, described_of, features_of, info_of, inventory_of, may_prime, arrival_of, try_prime_of, try_same_of, prime_of, skip_right, fields_right, join_of, try_activate_of, activate_of, is_other, cancel_of, off_free, off_of, wake_of, on_of, function_of, answer_of, call_of};

use crate::cells::{ActivateCell, CancelCell, PowerCell, PrimeCell};
use crate::numbers::Function;
use crate::{Arrival, Move, Refusal, Registers, Waking};
use board::Component;
use board_record::{Record, State};
use codes::{CANCEL, Call, VERSION};
use cpuset::CpuSet;

// The caller goes on with X0, and 0 in the other registers.
#[tactic(auto, unfolding(crate::specs::Calls::returned))]
fn go_on(x0: u64) -> Move
    ensures { result ≡ returned x0 }
{
    Move::Return(Registers {
        x0,
        x1: 0,
        x2: 0,
        x3: 0,
    })
}

// The caller goes on with the status -k.
fn say(k: u64) -> Move
    ensures { result ≡ says k }
{
    go_on(crate::minus(k))
}

// In a state that no caller is in.
fn no_caller() -> Move
    ensures { result ≡ no_caller }
{
    Move::Refuse(Refusal::NotWellFormed)
}

#[tactic(auto, unfolding(crate::specs::Calls::features_of))]
fn features(x1: u64) -> Move
    ensures { result ≡ features_of x1 }
{
    if (VERSION..=CANCEL).contains(&x1) {
        say(0)
    } else {
        say(1)
    }
}

#[tactic(auto, unfolding(crate::specs::Calls::info_of))]
fn info(x1: u64) -> Move
    ensures { result ≡ info_of x1 }
{
    if x1 == 0 { Move::NoteInfo } else { say(8) }
}

// Eight bytes of a UUID from byte i on, lowest first.
#[tactic(auto, using(crate::proofs::Laws::words))]
fn word(uuid: [u8; board::UUID_BYTES], i: usize) -> u64
    requires { i + 8 ≤ uuid_bytes }
    ensures { result ≡ word_of uuid i }
{
    let mut bytes = [0; 8];
    bytes.copy_from_slice(&uuid[i..i + 8]);
    u64::from_le_bytes(bytes)
}

fn flags(c: Component, pending: bool) -> u64
    ensures { result ≡ flags_of c pending }
{
    u64::from(c.capable)
        + 2 * u64::from(pending)
        + 4 * u64::from(c.may_reset)
        + 8 * u64::from(c.optional)
}

#[tactic(auto, unfolding(crate::specs::Calls::described_of))]
fn described(c: Component, pending: bool) -> Registers
    ensures { result ≡ described_of c pending }
{
    Registers {
        x0: 0,
        x1: word(c.uuid, 0),
        x2: word(c.uuid, 8),
        x3: flags(c, pending),
    }
}

#[tactic(auto, unfolding(crate::specs::Calls::inventory_of))]
fn inventory(rec: Record, x1: u64) -> Move
    ensures { result ≡ inventory_of rec x1 }
{
    if !rec.informed {
        return say(7);
    }
    if x1 >= rec.board.components {
        return say(8);
    }
    Move::Return(described(
        rec.board.numbered(x1),
        board_record::is_pending(rec.pending, x1),
    ))
}

#[tactic(auto, unfolding(crate::specs::Calls::may_prime))]
fn may_prime(rec: Record, id: u64) -> bool
    ensures { result ≡ may_prime rec id }
{
    rec.board.is_capable(id) && board_record::is_pending(rec.pending, id)
}

// A caller that becomes held; where it resumes is kept only for a rendezvous with may_reset.
#[tactic(auto, unfolding(crate::specs::Calls::arrival_of))]
fn arrival(call: Call, keeps: bool) -> Arrival
    ensures { result ≡ arrival_of call keeps }
{
    let (entry, context) = if keeps { (call.x3, call.x4) } else { (0, 0) };
    Arrival {
        component: call.x1,
        cpu: call.cpu,
        entry,
        context,
    }
}

#[tactic(auto, unfolding(crate::specs::Calls::try_prime_of))]
fn try_prime(rec: Record, call: Call) -> Move
    ensures { result ≡ try_prime_of rec call }
{
    if !may_prime(rec, call.x1) {
        return say(7);
    }
    if board_record::version_of(rec.version, call.x1) < rec.board.numbered(call.x1).svn {
        return say(3);
    }
    Move::StartPrime(arrival(call, false))
}

#[tactic(auto, unfolding(crate::specs::Calls::try_same_of))]
fn try_same(rec: Record, call: Call) -> Move
    ensures { result ≡ try_same_of rec call }
{
    if rec.state.is_for(call.x1) {
        try_prime(rec, call)
    } else {
        say(7)
    }
}

fn prime(rec: Record, call: Call) -> Move
    ensures { result ≡ prime_of rec call }
{
    match crate::cells::rule(rec.state).prime {
        PrimeCell::Try => try_prime(rec, call),
        PrimeCell::TrySame => try_same(rec, call),
        PrimeCell::Answers(k) => say(k),
        PrimeCell::NoCaller => no_caller(),
    }
}

// The skip flag fits the component and the state.
#[tactic(auto, unfolding(crate::specs::Calls::skip_right))]
fn is_skip_right(c: Component, s: State, skip: bool) -> bool
    ensures { result ≡ skip_right c s skip }
{
    if skip {
        !s.is_gathering() && c.optional
    } else {
        !s.skips_rendezvous()
    }
}

// The id is the state's, no flag stands above bit 0, and skip fits.
#[tactic(auto, unfolding(crate::specs::Calls::fields_right))]
fn are_fields_right(rec: Record, call: Call) -> bool
    ensures { result ≡ fields_right rec call }
{
    rec.state.is_for(call.x1)
        && call.x2 <= 1
        && is_skip_right(rec.board.numbered(call.x1), rec.state, call.x2 == 1)
}

// The caller joins those that are held: the last of the powered CPUs starts the activation.
#[tactic(auto, unfolding(crate::specs::Calls::join_of))]
fn join(rec: Record, call: Call) -> Move
    ensures { result ≡ join_of rec call }
{
    let a = arrival(call, rec.board.may_reset(call.x1));
    if rec.held.with(call.cpu).same(rec.on) {
        Move::StartTogether(a)
    } else {
        Move::Gather(a)
    }
}

#[tactic(auto, unfolding(crate::specs::Calls::try_activate_of))]
fn try_activate(rec: Record, call: Call) -> Move
    ensures { result ≡ try_activate_of rec call }
{
    if !are_fields_right(rec, call) {
        return say(8);
    }
    if !rec.board.is_entry_right(call.x1, call.x3) {
        return say(10);
    }
    if rec.state.is_alone() {
        return say(2);
    }
    if call.x2 == 1 {
        return Move::StartAlone(arrival(call, false));
    }
    join(rec, call)
}

fn activate(rec: Record, call: Call) -> Move
    ensures { result ≡ activate_of rec call }
{
    match crate::cells::rule(rec.state).activate {
        ActivateCell::Try => try_activate(rec, call),
        ActivateCell::Answers(k) => say(k),
        ActivateCell::NoCaller => no_caller(),
    }
}

// The state is about a component, and not about this one.
fn is_other(s: State, id: u64) -> bool
    ensures { result ≡ is_other s id }
{
    matches!(s.subject(), Some(c) if c != id)
}

#[tactic(auto, unfolding(crate::specs::Calls::cancel_of))]
fn cancel(rec: Record, call: Call) -> Move
    ensures { result ≡ cancel_of rec call }
{
    if is_other(rec.state, call.x1) {
        return say(8);
    }
    match crate::cells::rule(rec.state).cancel {
        CancelCell::ToIdle => Move::ToIdle,
        CancelCell::Withdraw => Move::Withdraw(call.x1),
        CancelCell::Answers(k) => say(k),
        CancelCell::NoCaller => no_caller(),
    }
}

#[tactic(auto, unfolding(crate::specs::Calls::off_free))]
fn off_free(rec: Record, cpu: u64) -> Move
    ensures { result ≡ off_free rec cpu }
{
    if rec.on.same(CpuSet::only(cpu)) {
        say(3)
    } else {
        Move::PowerOff(cpu)
    }
}

fn off(rec: Record, cpu: u64) -> Move
    ensures { result ≡ off_of rec cpu }
{
    match crate::cells::rule(rec.state).power {
        PowerCell::Free => off_free(rec, cpu),
        PowerCell::Frozen => say(3),
        PowerCell::NoCaller => no_caller(),
    }
}

fn wake(s: State, call: Call) -> Move
    ensures { result ≡ wake_of s call }
{
    match crate::cells::rule(s).power {
        PowerCell::Free => Move::PowerOn(Waking {
            target: call.x1,
            entry: call.x2,
            context: call.x3,
        }),
        PowerCell::Frozen => say(6),
        PowerCell::NoCaller => no_caller(),
    }
}

#[tactic(auto, unfolding(crate::specs::Calls::on_of))]
fn on(rec: Record, call: Call) -> Move
    ensures { result ≡ on_of rec call }
{
    if rec.board.cpus <= call.x1 {
        return say(2);
    }
    if !board::good_entry(rec.board.first, rec.board.last, call.x2) {
        return say(9);
    }
    if rec.on.has(call.x1) {
        return say(4);
    }
    wake(rec.state, call)
}

fn known(rec: Record, call: Call, f: Function) -> Move
    ensures { result ≡ function_of rec call f }
{
    match f {
        Function::Version => go_on(65536),
        Function::Features => features(call.x1),
        Function::GetInfo => info(call.x1),
        Function::GetInventory => inventory(rec, call.x1),
        Function::Prime => prime(rec, call),
        Function::Activate => activate(rec, call),
        Function::Cancel => cancel(rec, call),
        Function::CpuOff => off(rec, call.cpu),
        Function::CpuOn => on(rec, call),
    }
}

#[tactic(auto, unfolding(crate::specs::Calls::answer_of))]
fn answer(rec: Record, call: Call) -> Move
    ensures { result ≡ answer_of rec call }
{
    let Some(f) = crate::numbers::decode(call.x0) else {
        return say(1);
    };
    known(rec, call, f)
}

// A call: only a CPU that exists, is on and is not held has one.
#[tactic(auto, unfolding(crate::specs::Calls::call_of))]
pub(crate) fn call(rec: Record, call: Call) -> Move
    ensures { result ≡ call_of rec call }
{
    if rec.board.cpus <= call.cpu {
        return Move::Refuse(Refusal::NoSuchCpu);
    }
    if !rec.on.has(call.cpu) {
        return Move::Refuse(Refusal::CpuOff);
    }
    if rec.held.has(call.cpu) {
        return Move::Refuse(Refusal::CpuHeld);
    }
    answer(rec, call)
}
