// A board's record as numbers, and back.
ghost use Rattle.std.specs.Prelude.{◌≡◌, min};
ghost use Rattle.std.specs.List.{list_all};
ghost use Rattle.board.specs.Description.{most_components};
ghost use Rattle.flat.specs.Records.{state_in, is_state, flat_component, component_in, is_flat_component, blank_flat, flat_components, components_in, has_flags, flat_flags, flags_in, is_flag, flat_board, board_in, flat_with, flat_of, record_in, is_flat, zero_record};

use crate::{FlatBoard, FlatComponent, FlatRecord};
use board::{Board, Component, MOST_COMPONENTS, MOST_CPUS, UUID_BYTES};
use board_record::{Record, STATES, State};
use cpuset::CpuSet;
use std::array;

// The state of this number, as C has it (enum lfa_state, host/lfa.h), and component; of a number that is no state's, which
// `is_state` refuses, dead: no `From`, as it takes two numbers.
fn state(number: u64, c: u64) -> State
    ensures { result ≡ state_in number c }
{
    match number {
        0 => State::Idle,
        1 => State::Preparing(c),
        2 => State::HalfPrepared(c),
        3 => State::Ready(c),
        4 => State::Gathering(c),
        5 => State::Together(c),
        6 => State::Alone(c),
        7 => State::HalfActivated(c),
        8 => State::Dead,
        9 => State::Withdrawn(c),
        _ => State::Dead,
    }
}

fn is_state(number: u64, c: u64) -> bool
    ensures { result ≡ is_state number c }
{
    number < STATES as u64 && state(number, c).subject_number() == c
}

impl From<Component> for FlatComponent {
    ghost from_gives = { λ c f. f ≡ flat_component c };

    #[tactic(auto, unfolding(crate::specs::Records::flat_component))]
    fn from(c: Component) -> FlatComponent {
        // named first: put in straight it has no proof
        let uuid = c.uuid;
        FlatComponent {
            uuid,
            svn: c.svn,
            capable: u8::from(c.capable),
            may_reset: u8::from(c.may_reset),
            optional: u8::from(c.optional),
        }
    }
}

impl From<FlatComponent> for Component {
    ghost from_gives = { λ f c. c ≡ component_in f };

    #[tactic(auto, unfolding(crate::specs::Records::component_in))]
    fn from(f: FlatComponent) -> Component {
        // named first: put in straight it has no proof
        let uuid = f.uuid;
        Component {
            uuid,
            capable: f.capable == 1,
            may_reset: f.may_reset == 1,
            optional: f.optional == 1,
            svn: f.svn,
        }
    }
}

fn is_flat_component(c: &FlatComponent) -> bool
    ensures { result ≡ is_flat_component c.now }
{
    c.capable <= 1 && c.may_reset <= 1 && c.optional <= 1
}

fn blank() -> FlatComponent
    ensures { result ≡ blank_flat }
{
    FlatComponent {
        uuid: [0; UUID_BYTES],
        svn: 0,
        capable: 0,
        may_reset: 0,
        optional: 0,
    }
}

fn flat_components(from: &[Component; MOST_COMPONENTS]) -> [FlatComponent; MOST_COMPONENTS]
    ensures { result ≡ flat_components from.now }
{
    // each from its place: `map` would take the table by value (the stack of `fresh` is bounded, host/lfa.h), and is slower
    array::from_fn(|i| FlatComponent::from(from[i]))
}

fn components(from: &[FlatComponent; MOST_COMPONENTS]) -> [Component; MOST_COMPONENTS]
    ensures { result ≡ components_in from.now }
{
    array::from_fn(|i| Component::from(from[i]))
}

// Whether the flags of these components are 0 or 1.
fn are_flat_components(all: &[FlatComponent]) -> bool
    ensures { result ≡ list_all is_flat_component all.now }
{
    all.iter().all(is_flat_component)
}

fn flat_flags(from: [bool; MOST_COMPONENTS]) -> [u8; MOST_COMPONENTS]
    ensures { result ≡ flat_flags from }
{
    array::from_fn(|i| u8::from(from[i]))
}

fn flags(from: [u8; MOST_COMPONENTS]) -> [bool; MOST_COMPONENTS]
    ensures { result ≡ flags_in from }
{
    array::from_fn(|i| from[i] == 1)
}

fn are_flags(all: &[u8]) -> bool
    ensures { result ≡ list_all is_flag all.now }
{
    all.iter().all(|flag| *flag <= 1)
}

impl From<Board> for FlatBoard {
    ghost from_gives = { λ b f. f ≡ flat_board b };

    #[tactic(auto, unfolding(crate::specs::Records::flat_board))]
    fn from(b: Board) -> FlatBoard {
        FlatBoard {
            components: b.components,
            cpus: b.cpus,
            first: b.first,
            last: b.last,
            component: flat_components(&b.component),
        }
    }
}

// How many places of the table a count names.
fn within_count(n: u64) -> usize
    ensures { result ≡ min n most_components }
{
    n.min(MOST_COMPONENTS as u64) as usize
}

// Whether every flag within the count is 0 or 1.
#[tactic(auto, unfolding(crate::specs::Records::has_flags), using(crate::proofs::Lists::are_flat_front))]
pub(crate) fn has_flags(b: FlatBoard) -> bool
    ensures { result ≡ has_flags b }
{
    are_flat_components(&b.component[..within_count(b.components)])
}

impl From<FlatBoard> for Board {
    ghost from_gives = { λ f b. b ≡ board_in f };

    #[tactic(auto, unfolding(crate::specs::Records::board_in))]
    fn from(f: FlatBoard) -> Board {
        Board {
            components: f.components,
            cpus: f.cpus,
            first: f.first,
            last: f.last,
            component: components(&f.component),
        }
    }
}

// A record whose board is already there as numbers: no `From`, as it takes both.
#[tactic(auto, unfolding(crate::specs::Records::flat_with))]
pub(crate) fn flat_with(b: FlatBoard, rec: Record) -> FlatRecord
    ensures { result ≡ flat_with b rec }
{
    // named first: put in straight they have no proof
    let version = rec.version;
    let entry = rec.entry;
    let context = rec.context;
    FlatRecord {
        board: b,
        pending: flat_flags(rec.pending),
        version,
        state: rec.state.place() as u64,
        subject: rec.state.subject_number(),
        on: rec.on,
        held: rec.held,
        entry,
        context,
        informed: u64::from(rec.informed),
    }
}

impl From<Record> for FlatRecord {
    ghost from_gives = { λ r f. f ≡ flat_of r };

    fn from(rec: Record) -> FlatRecord {
        flat_with(FlatBoard::from(rec.board), rec)
    }
}

impl From<FlatRecord> for Record {
    ghost from_gives = { λ f r. r ≡ record_in f };

    #[tactic(auto, unfolding(crate::specs::Records::record_in))]
    fn from(f: FlatRecord) -> Record {
        // named first: put in straight they have no proof
        let version = f.version;
        let entry = f.entry;
        let context = f.context;
        Record {
            board: Board::from(f.board),
            pending: flags(f.pending),
            version,
            state: state(f.state, f.subject),
            on: f.on,
            held: f.held,
            entry,
            context,
            informed: f.informed == 1,
        }
    }
}

// Every flag is 0 or 1, and the state is one.
#[tactic(auto, unfolding(crate::specs::Records::is_flat), using(crate::proofs::Lists::are_flat_whole, crate::proofs::Lists::are_flags_whole))]
pub(crate) fn is_flat(f: FlatRecord) -> bool
    ensures { result ≡ is_flat f }
{
    are_flat_components(&f.board.component)
        && are_flags(&f.pending)
        && is_state(f.state, f.subject)
        && f.informed <= 1
}

// What comes with a refusal.
#[tactic(auto, unfolding(crate::specs::Records::zero_record))]
pub(crate) fn zeros() -> FlatRecord
    ensures { result ≡ zero_record }
{
    FlatRecord {
        board: FlatBoard {
            components: 0,
            cpus: 0,
            first: 0,
            last: 0,
            component: [blank(); MOST_COMPONENTS],
        },
        pending: [0; MOST_COMPONENTS],
        version: [0; MOST_COMPONENTS],
        state: 0,
        subject: 0,
        on: CpuSet::none(),
        held: CpuSet::none(),
        entry: [0; MOST_CPUS],
        context: [0; MOST_CPUS],
        informed: 0,
    }
}
