// Events, answers and what questions find, as numbers and back.
ghost use Rattle.std.specs.Prelude.{◌≡◌, MatchResult};
ghost use Rattle.log_record.specs.Rules.{number_of as log_number};
ghost use Rattle.flat.specs.Answers.{event_in, refused_answer, answer_of, caller_in, release_in, logged_in, written_by, read_by, found_of, prepared_by, started_by, cpus_by};
ghost use Rattle.flat.specs.Calls.{kept_with, through_of};

use crate::{
    FlatAnswer, FlatCpus, FlatEvent, FlatFound, FlatPrepared, FlatRead, FlatRecord, FlatStarted,
    FlatStepped, FlatWritten,
};
use agent::{Answer, BY_ENTRY, Caller, Freed, NOBODY, Release, Stepped, WITH_STATUS};
use codes::{ACTIVATION_STARTED, GONE, HELD, PRIME_STARTED, RETURNED};
use cpuset::CpuSet;
use log_book::{Flaw, Prepared};
use log_record::{LogRecord, RECORD_BYTES};
use rules::Registers;

// No `TryFrom`: which refusal a kind that is none of the four gets depends on the record too (`no_event`).
pub(crate) fn event(e: FlatEvent) -> Option<rules::Event>
    ensures { result ≡ event_in e }
{
    trace::event_of_kind(e.kind, e.call, e.report, e.image)
}

// A refusal, and nothing else.
#[tactic(auto, unfolding(crate::specs::Answers::answer_by, agent::specs::Numbers::refused_with))]
fn refused_answer(number: u64) -> FlatAnswer
    ensures { result ≡ refused_answer number }
{
    FlatAnswer {
        refusal: number,
        caller: 0,
        returned: Caller::Nothing.returned(),
        release: NOBODY,
        freed: Release::Nobody.freed(),
    }
}

#[tactic(auto, unfolding(crate::specs::Answers::answer_by, agent::specs::Numbers::accepted_with))]
fn answer(o: Result<Answer, rules::Refusal>) -> FlatAnswer
    ensures { result ≡ answer_of o }
{
    match o {
        Err(x) => refused_answer(u64::from(x)),
        Ok(a) => FlatAnswer {
            refusal: 0,
            caller: a.caller.outcome(),
            returned: a.caller.returned(),
            release: a.release.number(),
            freed: a.release.freed(),
        },
    }
}

// The record stays, and nothing but the refusal is answered.
#[tactic(auto, unfolding(crate::specs::Calls::kept_with))]
pub(crate) fn refused(rec: FlatRecord, number: u64) -> FlatStepped
    ensures { result ≡ kept_with rec number }
{
    FlatStepped {
        rec,
        answer: refused_answer(number),
    }
}

// What the agent's step is as numbers; no event changes the board.
#[tactic(auto, unfolding(crate::specs::Calls::through_of))]
pub(crate) fn stepped(rec: FlatRecord, s: Stepped) -> FlatStepped
    ensures { result ≡ through_of rec s }
{
    FlatStepped {
        rec: crate::records::flat_with(rec.board, s.rec),
        answer: answer(s.outcome),
    }
}

// The caller's part of this number; of another, none: no `From`, as it takes two.
fn caller(number: u64, x: Registers) -> Caller
    ensures { result ≡ caller_in number x }
{
    match number {
        RETURNED => Caller::Returned(x),
        HELD => Caller::Held,
        PRIME_STARTED => Caller::PrimeStarted,
        ACTIVATION_STARTED => Caller::ActivationStarted,
        GONE => Caller::Gone,
        _ => Caller::Nothing,
    }
}

// The release of this number; of another, nobody: no `From`, as it takes two.
fn release(number: u64, f: Freed) -> Release
    ensures { result ≡ release_in number f }
{
    match number {
        WITH_STATUS => Release::Returned(f),
        BY_ENTRY => Release::Resumed(f.cpus),
        _ => Release::Nobody,
    }
}

// The record that an event with this answer leaves; one of zeros, which the writer refuses, where it leaves none.
#[tactic(auto, unfolding(crate::specs::Answers::logged_in, crate::specs::Answers::accepted_in))]
pub(crate) fn logged(e: FlatEvent, a: FlatAnswer) -> LogRecord
    ensures { result ≡ logged_in e a }
{
    if a.refusal != 0 {
        return log_book::blank();
    }
    match event(e) {
        None => log_book::blank(),
        Some(event) => trace::logged(
            event,
            Answer {
                caller: caller(a.caller, a.returned),
                release: release(a.release, a.freed),
            },
        ),
    }
}

// How many bytes were written, or the number of the refusal.
pub(crate) fn written(w: Result<usize, u64>) -> FlatWritten
    ensures { result ≡ written_by (λ n. n) w }
{
    match w {
        Ok(bytes) => FlatWritten { refusal: 0, bytes },
        Err(refusal) => FlatWritten { refusal, bytes: 0 },
    }
}

pub(crate) fn record_read(r: Result<LogRecord, log_record::Refusal>) -> FlatRead
    ensures { result ≡ read_by r }
{
    match r {
        Ok(rec) => FlatRead {
            refusal: 0,
            bytes: RECORD_BYTES,
            rec,
        },
        Err(x) => FlatRead {
            refusal: u64::from(x),
            bytes: 0,
            rec: log_book::blank(),
        },
    }
}

// The component, where there is one.
fn found(c: Option<u64>) -> FlatFound
    ensures { result ≡ found_of c }
{
    FlatFound {
        found: u64::from(c.is_some()),
        component: c.unwrap_or(0),
    }
}

// The number and the place of a refusal.
pub(crate) fn flaw(f: Flaw) -> (u64, usize)
    ensures { result ≡ (log_number f.refusal, f.place) }
{
    (u64::from(f.refusal), f.place)
}

// A refusal's number and place, and `none`; where there is no refusal, zeros and what was found.
pub(crate) fn told<T: Copy>(a: Result<T, (u64, usize)>, none: T) -> (u64, usize, T)
    ensures { MatchResult a (λ x. result ≡ (0, 0, x)) (λ r. result ≡ (r.0, r.1, none)) }
{
    match a {
        Ok(x) => (0, 0, x),
        Err((number, place)) => (number, place, none),
    }
}

#[tactic(auto, unfolding(crate::specs::Answers::prepared_with, log_book::specs::Numbers::found_with, log_book::specs::Numbers::refused_with))]
pub(crate) fn prepared(a: Result<Prepared, Flaw>) -> FlatPrepared
    ensures { result ≡ prepared_by a }
{
    let nothing = Prepared {
        primed: None,
        looked: 0,
    };
    let (refusal, place, p) = told(a.map_err(flaw), nothing);
    FlatPrepared {
        refusal,
        place,
        prepared: found(p.primed),
        looked: p.looked,
    }
}

#[tactic(auto, unfolding(crate::specs::Answers::started_with, reader::specs::Numbers::found_with, reader::specs::Numbers::refused_with))]
pub(crate) fn started(a: Result<Option<u64>, reader::Refusal>) -> FlatStarted
    ensures { result ≡ started_by a }
{
    let numbered = a.map_err(|r| match r {
        reader::Refusal::Board(x) => (u64::from(x), 0),
        reader::Refusal::Log(f) => flaw(f),
    });
    let (refusal, place, s) = told(numbered, None);
    FlatStarted {
        refusal,
        place,
        started: found(s),
    }
}

pub(crate) fn cpus(c: Result<CpuSet, Flaw>) -> FlatCpus
    ensures { result ≡ cpus_by c }
{
    let (refusal, place, cpus) = told(c.map_err(flaw), CpuSet::none());
    FlatCpus {
        refusal,
        place,
        cpus,
    }
}
