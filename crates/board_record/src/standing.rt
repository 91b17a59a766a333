// The clauses of a well-formed record, past those of its board.
ghost use Rattle.std.specs.Prelude.{◌≡◌, ◌<◌};
ghost use Rattle.board.specs.Description.{most_components};
ghost use Rattle.board_record.specs.WellFormed.{powered_stand, image_at, images_stand, subject_stands, state_stands, held_by, held_stand, may_reset_by, keeps_entries, keepers_of, entry_stands, entries_stand, work_stands, rest_stands};

use crate::{Holding, Record, State};
use board::{Board, Component};
use cpuset::CpuSet;

#[tactic(auto, unfolding(crate::specs::WellFormed::powered_stand))]
fn is_powered_right(cpus: u64, on: CpuSet) -> bool
    ensures { result ≡ powered_stand cpus on }
{
    !on.is_none() && on.within(CpuSet::below(cpus))
}

// Place i of the tables: what is pending is capable, and the version is 0 where nothing is.
#[tactic(auto, unfolding(crate::specs::WellFormed::image_stands, board::specs::Description::is_capable, board::specs::Description::numbered_of))]
fn is_image_right<'a>(
    b: &'a Board,
    pending: &'a [bool; board::MOST_COMPONENTS],
    version: &'a [u32; board::MOST_COMPONENTS],
    i: usize,
) -> bool
    requires { i < most_components }
    ensures { result ≡ image_at b.now pending.now version.now i }
{
    if pending[i] {
        (i as u64) < b.components && b.component[i].capable
    } else {
        version[i] == 0
    }
}

fn are_images_right<'a>(
    b: &'a Board,
    pending: &'a [bool; board::MOST_COMPONENTS],
    version: &'a [u32; board::MOST_COMPONENTS],
) -> bool
    ensures { result ≡ images_stand b.now pending.now version.now }
{
    (0..board::MOST_COMPONENTS).all(|i| is_image_right(b, pending, version, i))
}

#[tactic(auto, unfolding(crate::specs::WellFormed::subject_stands))]
fn is_subject_right(c: Component, alone: bool, pending: bool, version: u32) -> bool
    ensures { result ≡ subject_stands c alone pending version }
{
    pending && version >= c.svn && (!alone || c.optional)
}

#[tactic(auto, unfolding(crate::specs::WellFormed::state_stands))]
fn is_state_right(rec: Record) -> bool
    ensures { result ≡ state_stands rec.board rec.pending rec.version rec.state }
{
    match rec.state.subject() {
        None => true,
        Some(c) => is_subject_right(
            rec.board.numbered(c),
            rec.state.skips_rendezvous(),
            crate::is_pending(rec.pending, c),
            crate::version_of(rec.version, c),
        ),
    }
}

fn is_one_held(on: CpuSet, held: CpuSet) -> bool
    ensures { result ≡ held_by Holding.One on held }
{
    held.within(on) && held.count() == 1
}

fn is_part_held(on: CpuSet, held: CpuSet) -> bool
    ensures { result ≡ held_by Holding.Part on held }
{
    !held.is_none() && !held.same(on) && held.within(on)
}

#[tactic(auto, unfolding(crate::specs::WellFormed::held_stand))]
fn is_held_right(s: State, on: CpuSet, held: CpuSet) -> bool
    ensures { result ≡ held_stand s on held }
{
    match s.holding() {
        Holding::Nobody => held.is_none(),
        Holding::One => is_one_held(on, held),
        Holding::Part => is_part_held(on, held),
        Holding::All => held.same(on),
    }
}

// Whether the component that a state is about may reset CPUs.
fn may_reset_by(b: Board, about: Option<u64>) -> bool
    ensures { result ≡ may_reset_by b about }
{
    about.is_some_and(|c| b.may_reset(c))
}

fn keeps_entries(b: Board, s: State) -> bool
    ensures { result ≡ keeps_entries b s }
{
    s.is_rendezvous() && may_reset_by(b, s.subject())
}

// Whether a CPU's place holds a good entry where it is kept, and zeros elsewhere.
#[tactic(auto, unfolding(crate::specs::WellFormed::entry_stands))]
fn is_place_right(first: u64, last: u64, keeps: bool, entry: u64, context: u64) -> bool
    ensures { result ≡ entry_stands first last keeps entry context }
{
    if keeps {
        board::good_entry(first, last, entry)
    } else {
        entry == 0 && context == 0
    }
}

// The CPUs whose entries are kept: the held ones or none.
fn keepers(b: Board, s: State, held: CpuSet) -> CpuSet
    ensures { result ≡ keepers_of b s held }
{
    if keeps_entries(b, s) {
        held
    } else {
        CpuSet::none()
    }
}

fn are_entries_right<'a>(
    first: u64,
    last: u64,
    keepers: CpuSet,
    entry: &'a [u64; board::MOST_CPUS],
    context: &'a [u64; board::MOST_CPUS],
) -> bool
    ensures { result ≡ entries_stand first last keepers entry.now context.now }
{
    (0..board::MOST_CPUS).all(|i| {
        is_place_right(first, last, keepers.has(i as u64), entry[i], context[i])
    })
}

// What the board is at: the state, the held CPUs and their entries.
#[tactic(auto, unfolding(crate::specs::WellFormed::work_stands))]
fn is_work_right(rec: Record) -> bool
    ensures { result ≡ work_stands rec }
{
    is_state_right(rec)
        && is_held_right(rec.state, rec.on, rec.held)
        && are_entries_right(
            rec.board.first,
            rec.board.last,
            keepers(rec.board, rec.state, rec.held),
            &rec.entry,
            &rec.context,
        )
}

// What stands past the board: the powered CPUs, the images, and what the board is at.
#[tactic(auto, unfolding(crate::specs::WellFormed::rest_stands))]
pub(crate) fn is_rest_right(rec: Record) -> bool
    ensures { result ≡ rest_stands rec }
{
    is_powered_right(rec.board.cpus, rec.on)
        && are_images_right(&rec.board, &rec.pending, &rec.version)
        && is_work_right(rec)
}
