// A set of CPU numbers, by value. A number that there is no room for is in no set, and to add it or take it out changes none.
#![tactic(auto)]

ghost use Rattle.std.specs.Prelude.{◌≡◌};
ghost use Rattle.cpuset.specs.Set.{none_of, has_of, only_of, with_of, without_of, union_of, less_of, same_of, below_of, within_of, count_of};

// How many numbers there is room for: a member is below it.
pub const ROOM: u64 = 64;

// Number i is a member where bit i is set.
#[repr(C)]
#[derive(Clone, Copy, PartialEq)]
pub struct CpuSet {
    pub bits: u64,
}

impl CpuSet {
    // The set with no member.
    #[tactic(auto, unfolding(crate::specs::Set::none_of))]
    pub fn none() -> CpuSet
        ensures { result ≡ none_of }
    {
        CpuSet { bits: 0 }
    }

    // Whether i is a member of s.
    pub fn has(self, i: u64) -> bool
        ensures { result ≡ has_of self i }
    {
        i < ROOM && (self.bits >> i) % 2 == 1
    }

    // The set of i alone; of nothing where there is no room for i.
    pub fn only(i: u64) -> CpuSet
        ensures { result ≡ only_of i }
    {
        if i < ROOM {
            CpuSet { bits: 1 << i }
        } else {
            CpuSet::none()
        }
    }

    // The members of s, and i.
    pub fn with(self, i: u64) -> CpuSet
        ensures { result ≡ with_of self i }
    {
        self.union(CpuSet::only(i))
    }

    // The members of s but i.
    pub fn without(self, i: u64) -> CpuSet
        ensures { result ≡ without_of self i }
    {
        self.less(CpuSet::only(i))
    }

    // The members of s, and those of t.
    #[tactic(auto, unfolding(crate::specs::Set::union_of))]
    pub fn union(self, t: CpuSet) -> CpuSet
        ensures { result ≡ union_of self t }
    {
        CpuSet {
            bits: self.bits | t.bits,
        }
    }

    // The members of s that are not in t.
    #[tactic(auto, unfolding(crate::specs::Set::less_of))]
    pub fn less(self, t: CpuSet) -> CpuSet
        ensures { result ≡ less_of self t }
    {
        CpuSet {
            bits: self.bits & !t.bits,
        }
    }

    // Whether s and t have the same members.
    #[tactic(auto, unfolding(crate::specs::Set::same_of, basics::specs::Every::all_below))]
    pub fn same(self, t: CpuSet) -> bool
        ensures { result ≡ same_of self t }
    {
        self == t
    }

    // Whether s has no member.
    pub fn is_none(self) -> bool
        ensures { result ≡ same_of self none_of }
    {
        self.same(CpuSet::none())
    }

    // The set of the numbers below n; of all where n is ROOM or more.
    pub fn below(n: u64) -> CpuSet
        ensures { result ≡ below_of n }
    {
        if n < ROOM {
            CpuSet { bits: (1 << n) - 1 }
        } else {
            CpuSet { bits: u64::MAX }
        }
    }

    // Whether every member of s is in t.
    pub fn within(self, t: CpuSet) -> bool
        ensures { result ≡ within_of self t }
    {
        self.less(t).is_none()
    }

    // How many members s has.
    pub fn count(self) -> u64
        ensures { result ≡ count_of self }
    {
        u64::from(self.bits.count_ones())
    }
}
