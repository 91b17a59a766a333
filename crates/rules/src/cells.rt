// The table of rules: a row of cells for each state.
ghost use Rattle.std.specs.Prelude.{◌≡◌, ◌<◌};
ghost use Rattle.board_record.specs.Record.{state_count};
ghost use Rattle.rules.specs.Table.{row_at, rule_of};

use board_record::{STATES, State};

// An enum for each call, and none over their kinds: specs/Calls.antt goes by these cases (`prime_by` and its like).

// What PRIME does: the try, the try of the state's component alone, or a status -k.
#[derive(Clone, Copy)]
pub enum PrimeCell {
    Try,
    TrySame,
    Answers(u64),
    NoCaller,
}

#[derive(Clone, Copy)]
pub enum ActivateCell {
    Try,
    Answers(u64),
    NoCaller,
}

#[derive(Clone, Copy)]
pub enum CancelCell {
    ToIdle,
    Withdraw,
    Answers(u64),
    NoCaller,
}

#[derive(Clone, Copy)]
pub enum PowerCell {
    Free,
    Frozen,
    NoCaller,
}

#[derive(Clone, Copy)]
pub struct Row {
    pub prime: PrimeCell,
    pub activate: ActivateCell,
    pub cancel: CancelCell,
    pub power: PowerCell,
}

const RULES: [Row; STATES] = [
    // idle
    Row {
        prime: PrimeCell::Try,
        activate: ActivateCell::Answers(7),
        cancel: CancelCell::Answers(0),
        power: PowerCell::Free,
    },
    // preparing
    Row {
        prime: PrimeCell::Answers(2),
        activate: ActivateCell::Answers(7),
        cancel: CancelCell::Withdraw,
        power: PowerCell::Free,
    },
    // half-prepared
    Row {
        prime: PrimeCell::TrySame,
        activate: ActivateCell::Answers(7),
        cancel: CancelCell::ToIdle,
        power: PowerCell::Free,
    },
    // ready
    Row {
        prime: PrimeCell::Answers(7),
        activate: ActivateCell::Try,
        cancel: CancelCell::ToIdle,
        power: PowerCell::Free,
    },
    // gathering
    Row {
        prime: PrimeCell::Answers(7),
        activate: ActivateCell::Try,
        cancel: CancelCell::ToIdle,
        power: PowerCell::Frozen,
    },
    // together
    Row {
        prime: PrimeCell::NoCaller,
        activate: ActivateCell::NoCaller,
        cancel: CancelCell::NoCaller,
        power: PowerCell::NoCaller,
    },
    // alone
    Row {
        prime: PrimeCell::Answers(7),
        activate: ActivateCell::Try,
        cancel: CancelCell::Answers(2),
        power: PowerCell::Frozen,
    },
    // half-activated
    Row {
        prime: PrimeCell::Answers(7),
        activate: ActivateCell::Try,
        cancel: CancelCell::ToIdle,
        power: PowerCell::Frozen,
    },
    // dead
    Row {
        prime: PrimeCell::Answers(7),
        activate: ActivateCell::Answers(7),
        cancel: CancelCell::Answers(0),
        power: PowerCell::Free,
    },
    // withdrawn
    Row {
        prime: PrimeCell::Answers(2),
        activate: ActivateCell::Answers(7),
        cancel: CancelCell::Answers(0),
        power: PowerCell::Free,
    },
];

// By place, since `row_at` of specs/Table.antt has the whole table so.
fn row_at(i: usize) -> Row
    requires { i < state_count }
    ensures { result ≡ row_at i }
{
    RULES[i]
}

// The row of a state.
#[tactic(auto, using(crate::proofs::Table::rows))]
pub(crate) fn rule(s: State) -> Row
    ensures { result ≡ rule_of s }
{
    row_at(s.place())
}
