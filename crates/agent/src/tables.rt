// The two resume tables.
ghost use Rattle.std.specs.Prelude.{◌≡◌};
ghost use Rattle.agent.specs.Step.{resumed_by, resuming_of, source_of, entries_from, contexts_from, filled};

use crate::{Answer, Release};
use board_record::Record;
use cpuset::CpuSet;
use rules::{Move, Refusal, Waking};

fn resumed(r: Release) -> CpuSet
    ensures { result ≡ resumed_by r }
{
    match r {
        Release::Resumed(cpus) => cpus,
        _ => CpuSet::none(),
    }
}

// The CPUs that resume by entry.
pub(crate) fn resuming(o: Result<Answer, Refusal>) -> CpuSet
    ensures { result ≡ resuming_of o }
{
    match o {
        Err(_) => CpuSet::none(),
        Ok(a) => resumed(a.release),
    }
}

// Where a CPU resumes: one that is switched on where its caller says; none, one that was held where it said itself.
pub(crate) fn source_of(m: Move) -> Option<Waking>
    ensures { result ≡ source_of m }
{
    match m {
        Move::PowerOn(w) => Some(w),
        _ => None,
    }
}

// The entry and the context id of each CPU that resumes.
pub(crate) fn told(
    rec: Record,
    from: Option<Waking>,
) -> ([u64; board::MOST_CPUS], [u64; board::MOST_CPUS])
    ensures entries { result.0 ≡ entries_from rec from }
    ensures contexts { result.1 ≡ contexts_from rec from }
{
    // named first: the check takes an array's field into a tuple only so
    let entry = rec.entry;
    let context = rec.context;
    match from {
        None => (entry, context),
        Some(w) => ([w.entry; board::MOST_CPUS], [w.context; board::MOST_CPUS]),
    }
}

// Writes a table at the places of these CPUs.
#[tactic(auto, using(crate::proofs::Written::turns))]
pub(crate) fn fill(cpus: CpuSet, from: &[u64; board::MOST_CPUS], table: &mut [u64])
    ensures { table.new ≡ filled cpus from.now table.old }
{
    for i in 0..table.len().min(board::MOST_CPUS) {
        if cpus.has(i as u64) {
            table[i] = from[i];
        }
    }
}
