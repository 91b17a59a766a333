// The rules that a description itself must keep: its counts, its range, its flags and its UUIDs.
ghost use Rattle.std.specs.Prelude.{◌≡◌, ◌≤◌, not, length};
ghost use Rattle.std.specs.List.{list_all};
ghost use Rattle.basics.specs.Every.{all_below};
ghost use Rattle.board.specs.Description.{most_components, within_limit, counts_of, parted_of, unseen, same_uuid, judged_of, is_blank};
ghost use Rattle.board.specs.Packed.{writable_of, is_writable};
ghost use Rattle.board.specs.Marks.{mark_of};

use crate::{Board, Component, MOST_COMPONENTS, MOST_CPUS, Refusal, UUID_BYTES};

// How many marks there are.
const MARKS: usize = 1024;

#[tactic(auto, using(crate::proofs::Lists::same_bytes))]
fn same_uuid(u: &[u8; UUID_BYTES], v: &[u8; UUID_BYTES]) -> bool
    ensures { result ≡ same_uuid u.now v.now }
{
    u == v
}

// None of these components has the UUID.
fn is_unseen(before: &[Component], uuid: &[u8; UUID_BYTES]) -> bool
    ensures { result ≡ list_all (λ c. not (same_uuid c.uuid uuid.now)) before.now }
{
    before.iter().all(|c| !same_uuid(&c.uuid, uuid))
}

// A mark of a UUID: the same UUID has the same mark, so only those whose mark was met are compared.
fn mark(uuid: &[u8; UUID_BYTES]) -> usize
    ensures { result ≡ mark_of uuid.now }
{
    let sum: usize = uuid.iter().map(|b| usize::from(*b)).sum();
    sum % MARKS
}

fn is_distinct(components: &[Component]) -> bool
    ensures { result ≡ all_below (length components.now) (unseen components.now) }
{
    let mut met = [false; MARKS];
    for (i, c) in components.iter().enumerate() {
        let m = mark(&c.uuid);
        if met[m] && !is_unseen(&components[..i], &c.uuid) {
            return false;
        }
        met[m] = true;
    }
    true
}

// No component is both optional and may_reset.
fn is_apart(components: &[Component]) -> bool
    ensures { result ≡ list_all parted_of components.now }
{
    components.iter().all(|c| !(c.optional && c.may_reset))
}

#[tactic(auto, unfolding(crate::specs::Description::judged_of), using(crate::proofs::Lists::apart_front, crate::proofs::Lists::distinct_front))]
pub(crate) fn judged(b: &Board) -> Result<(), Refusal>
    requires { b.now.components ≤ most_components }
    ensures { result ≡ judged_of b.now }
{
    let components = &b.component[..b.components as usize];
    if b.first > b.last {
        Err(Refusal::FirstAboveLast)
    } else if !is_apart(components) {
        Err(Refusal::OptionalMayReset)
    } else if !is_distinct(components) {
        Err(Refusal::UuidTwice)
    } else {
        Ok(())
    }
}

#[tactic(auto, unfolding(crate::specs::Description::within_limit))]
fn within_limit(n: u64, most: u64) -> bool
    ensures { result ≡ within_limit n most }
{
    1 <= n && n <= most
}

fn has_counts(b: &Board) -> bool
    ensures { result ≡ counts_of b.now }
{
    within_limit(b.components, MOST_COMPONENTS as u64) && within_limit(b.cpus, MOST_CPUS as u64)
}

#[tactic(auto, unfolding(crate::specs::Packed::writable_of), using(crate::proofs::Laws::counted_few))]
pub(crate) fn writable(b: &Board) -> Result<(), Refusal>
    ensures { result ≡ writable_of b.now }
{
    if has_counts(b) {
        judged(b)
    } else {
        Err(Refusal::CountOutside)
    }
}

pub(crate) fn is_writable(b: &Board) -> bool
    ensures { result ≡ is_writable b.now }
{
    matches!(writable(b), Ok(()))
}

fn is_blank(c: &Component) -> bool
    ensures { result ≡ is_blank c.now }
{
    same_uuid(&c.uuid, &[0; UUID_BYTES]) && !c.capable && !c.may_reset && !c.optional && c.svn == 0
}

pub(crate) fn are_blank(components: &[Component]) -> bool
    ensures { result ≡ list_all is_blank components.now }
{
    components.iter().all(is_blank)
}
