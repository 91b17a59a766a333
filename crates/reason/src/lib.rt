// Why an ACTIVATE, made at a place of a log, is refused, held or started: the first rule of document 01 that applies.
#![tactic(auto)]

mod ruling;

ghost use Rattle.std.specs.Prelude.{◌≡◌};
ghost use Rattle.history.specs.Walk.{walked_of};
ghost use Rattle.reason.specs.Reason.{call_of};
ghost use Rattle.reason.specs.Explained.{called_of, stopped_by, explained_of};
ghost use Rattle.reason.specs.Numbers.{number_of, component_in, missing_in, numbers_of, Explains};
ghost use Rattle.reason.specs.declared.Unexplained.TheVariants as unexplained;

use board::MOST_CPUS;
use board_record::Record;
use codes::{ACTIVATE, Call};
use cpuset::CpuSet;
use history::Stop;
use log_book::Flaw;
use rules::{Event, Refusal};

// An ACTIVATE: the CPU that makes it, and its registers but X0.
#[repr(C)]
#[derive(Clone, Copy)]
pub struct Activate {
    pub cpu: u64,
    pub x1: u64,
    pub x2: u64,
    pub x3: u64,
    pub x4: u64,
}

// The rules of ACTIVATE, in document 01's order, each with what it names: the state's component, or the powered CPUs still
// missing.
#[derive(Clone, Copy)]
pub enum Reason {
    NothingPrepared,
    BeingPrepared(u64),
    HalfPrepared(u64),
    BoardDead,
    WasWithdrawn(u64),
    OtherComponent(u64),
    OtherFlags,
    NotOptional,
    SkipInGathering,
    NoSkip,
    BadEntry,
    BeingActivated(u64),
    Skipped,
    Held(CpuSet),
    AllPresent,
}

// Why there is no reason: the board's refusal, the log's, the place of the first record that is not the agent's own, or the caller's.
#[derive(Clone, Copy)]
pub enum Unexplained {
    Board(board::Refusal),
    Log(Flaw),
    Departs(usize),
    Call(Refusal),
}

impl From<Stop> for Unexplained {
    ghost from_gives = { λ x u. u ≡ stopped_by x };

    fn from(x: Stop) -> Unexplained {
        match x {
            Stop::Departs(d) => Unexplained::Departs(d.place),
            Stop::Board(x) => Unexplained::Board(x),
            Stop::Log(f) => Unexplained::Log(f),
        }
    }
}

impl From<Refusal> for Unexplained {
    ghost from_gives = { λ x u. u ≡ unexplained.Call x };

    fn from(x: Refusal) -> Unexplained {
        Unexplained::Call(x)
    }
}

#[tactic(auto, unfolding(crate::specs::Reason::call_of))]
fn call(a: Activate) -> Call
    ensures { result ≡ call_of a }
{
    Call {
        cpu: a.cpu,
        x0: ACTIVATE,
        x1: a.x1,
        x2: a.x2,
        x3: a.x3,
        x4: a.x4,
    }
}

// By the board's record: whom the agent refuses is refused, and else a rule applies.
#[tactic(auto, unfolding(crate::specs::Reason::call_of, crate::specs::Explained::called_of))]
fn called(rec: Record, a: Activate) -> Result<Reason, Unexplained>
    ensures { result ≡ called_of rec a }
{
    let mut entries = [0u64; MOST_CPUS];
    let mut contexts = [0u64; MOST_CPUS];
    let after = agent::step(rec, Event::Call(call(a)), &mut entries, &mut contexts);
    after.outcome?;
    Ok(ruling::reason(rec, a))
}

// Why an ACTIVATE that is made at a place of a log gets its answer, from the board's description and the log alone.
#[tactic(auto, using(crate::proofs::Numbers::explains), unfolding(crate::specs::Explained::explained_of))]
pub fn explain(board: &[u8], log: &[u8], place: usize, a: Activate) -> Result<Reason, Unexplained>
    ensures value { result ≡ explained_of board.now log.now place a }
    ensures explains { Explains (walked_of board.now log.now place) a (numbers_of result) }
{
    let walked = history::walk_to(board, log, place);
    walked.ended?;
    called(walked.rec, a)
}

impl Reason {
    // The number of a reason, from 1 on.
    pub fn number(self) -> u64
        ensures { result ≡ number_of self }
    {
        // an arm each: no rule gives these numbers
        match self {
            Reason::NothingPrepared => 1,
            Reason::BeingPrepared(_) => 2,
            Reason::HalfPrepared(_) => 3,
            Reason::BoardDead => 4,
            Reason::WasWithdrawn(_) => 15,
            Reason::OtherComponent(_) => 5,
            Reason::OtherFlags => 6,
            Reason::NotOptional => 7,
            Reason::SkipInGathering => 8,
            Reason::NoSkip => 9,
            Reason::BadEntry => 10,
            Reason::BeingActivated(_) => 11,
            Reason::Skipped => 12,
            Reason::Held(_) => 13,
            Reason::AllPresent => 14,
        }
    }

    // The component that a reason names; 0 where it names none.
    pub fn component(self) -> u64
        ensures { result ≡ component_in self }
    {
        match self {
            Reason::BeingPrepared(c)
            | Reason::HalfPrepared(c)
            | Reason::WasWithdrawn(c)
            | Reason::OtherComponent(c)
            | Reason::BeingActivated(c) => c,
            _ => 0,
        }
    }

    // The CPUs that a reason names as missing; none where it names none.
    pub fn missing(self) -> CpuSet
        ensures { result ≡ missing_in self }
    {
        match self {
            Reason::Held(s) => s,
            _ => CpuSet::none(),
        }
    }
}
