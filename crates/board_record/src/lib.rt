// The board's record: what it holds, how it starts, and when it is well formed.
#![tactic(auto)]

mod standing;

ghost use Rattle.std.specs.Prelude.{◌≡◌};
ghost use Rattle.board_record.specs.Record.{subject_of, subject_number, holding_of, place_of, is_gathering, is_rendezvous, is_alone, skips_rendezvous, is_for, is_pending, version_of, fresh_of};
ghost use Rattle.board_record.specs.WellFormed.{well_formed};

use board::Board;
use cpuset::CpuSet;

// What the board is doing, with the component it is about.
#[derive(Clone, Copy)]
pub enum State {
    Idle,
    Preparing(u64),
    HalfPrepared(u64),
    Ready(u64),
    Gathering(u64),
    Together(u64),
    Alone(u64),
    HalfActivated(u64),
    Dead,
    Withdrawn(u64),
}

// How many states there are; a new one takes the next place.
pub const STATES: usize = 10;

// How many of the powered CPUs are held.
#[derive(Clone, Copy)]
pub enum Holding {
    Nobody,
    One,
    Part,
    All,
}

// The record of a board: its description, the pending images with their versions, the state, the powered and the held
// CPUs, the entries and context ids of those that may be resumed by entry, and whether GET_INFO is noted.
// Tables side by side, no list of pairs: C's record has these tables, and they cross at every step as they are.
#[derive(Clone, Copy)]
pub struct Record {
    pub board: Board,
    pub pending: [bool; board::MOST_COMPONENTS],
    pub version: [u32; board::MOST_COMPONENTS],
    pub state: State,
    pub on: CpuSet,
    pub held: CpuSet,
    pub entry: [u64; board::MOST_CPUS],
    pub context: [u64; board::MOST_CPUS],
    pub informed: bool,
}

impl Record {
    // The record of a board that was just switched on.
    #[tactic(auto, unfolding(crate::specs::Record::fresh_of))]
    pub fn fresh(b: Board) -> Record
        ensures { result ≡ fresh_of b }
    {
        Record {
            board: b,
            pending: [false; board::MOST_COMPONENTS],
            version: [0; board::MOST_COMPONENTS],
            state: State::Idle,
            on: CpuSet::only(0),
            held: CpuSet::none(),
            entry: [0; board::MOST_CPUS],
            context: [0; board::MOST_CPUS],
            informed: false,
        }
    }

    // Whether a record is one that the agent's rules speak of.
    #[tactic(auto, unfolding(crate::specs::WellFormed::well_formed))]
    pub fn is_well_formed(self) -> bool
        ensures { result ≡ well_formed self }
    {
        self.board.is_well_formed() && standing::is_rest_right(self)
    }
}

impl State {
    // The component that a state is about.
    pub fn subject(self) -> Option<u64>
        ensures { result ≡ subject_of self }
    {
        match self {
            State::Idle | State::Dead => None,
            State::Preparing(c)
            | State::HalfPrepared(c)
            | State::Ready(c)
            | State::Gathering(c)
            | State::Together(c)
            | State::Alone(c)
            | State::HalfActivated(c)
            | State::Withdrawn(c) => Some(c),
        }
    }

    // The number of that component; 0 where there is none.
    pub fn subject_number(self) -> u64
        ensures { result ≡ subject_number self }
    {
        self.subject().unwrap_or(0)
    }

    // Which of the powered CPUs a state holds.
    fn holding(self) -> Holding
        ensures { result ≡ holding_of self }
    {
        match self {
            State::Idle
            | State::HalfPrepared(_)
            | State::Ready(_)
            | State::HalfActivated(_)
            | State::Dead => Holding::Nobody,
            State::Preparing(_) | State::Alone(_) | State::Withdrawn(_) => Holding::One,
            State::Gathering(_) => Holding::Part,
            State::Together(_) => Holding::All,
        }
    }

    // A state's place in the table of rules, which is also its number for a host.
    pub fn place(self) -> usize
        ensures { result ≡ place_of self }
    {
        match self {
            State::Idle => 0,
            State::Preparing(_) => 1,
            State::HalfPrepared(_) => 2,
            State::Ready(_) => 3,
            State::Gathering(_) => 4,
            State::Together(_) => 5,
            State::Alone(_) => 6,
            State::HalfActivated(_) => 7,
            State::Dead => 8,
            State::Withdrawn(_) => 9,
        }
    }

    // Whether some of the powered CPUs are held for ACTIVATE, and not all.
    pub fn is_gathering(self) -> bool
        ensures { result ≡ is_gathering self }
    {
        matches!(self, State::Gathering(_))
    }

    // Whether CPUs are held for a rendezvous: some of the powered ones, or all.
    fn is_rendezvous(self) -> bool
        ensures { result ≡ is_rendezvous self }
    {
        matches!(self, State::Gathering(_) | State::Together(_))
    }

    // Whether an activation without rendezvous is running.
    pub fn is_alone(self) -> bool
        ensures { result ≡ is_alone self }
    {
        matches!(self, State::Alone(_))
    }

    // Whether an activation without rendezvous began: it is running, or half done.
    pub fn skips_rendezvous(self) -> bool
        ensures { result ≡ skips_rendezvous self }
    {
        matches!(self, State::Alone(_) | State::HalfActivated(_))
    }

    // Whether a state is about component id.
    pub fn is_for(self, id: u64) -> bool
        ensures { result ≡ is_for self id }
    {
        self.subject() == Some(id)
    }
}

// Whether an image of component id is pending.
pub fn is_pending(pending: [bool; board::MOST_COMPONENTS], id: u64) -> bool
    ensures { result ≡ is_pending pending id }
{
    pending.get(id as usize).copied().unwrap_or(false)
}

// The version of the pending image of component id, 0 where none is. A line of the library's words beside `is_pending`'s: a function
// for both would be no shorter.
pub fn version_of(version: [u32; board::MOST_COMPONENTS], id: u64) -> u32
    ensures { result ≡ version_of version id }
{
    version.get(id as usize).copied().unwrap_or(0)
}
