// Reading a description: its shape, and what bytes of that shape say.
ghost use Rattle.std.specs.Prelude.{◌≡◌, ◌+◌, ◌*◌, ◌<◌, ◌≤◌, length};
ghost use Rattle.bitfield.specs.Bits.{widest, value_at};
ghost use Rattle.board.specs.Description.{most_components, blank};
ghost use Rattle.board.specs.Packed.{length_of, component_length, components_in, component_at, components_at, board_at, reserved_clear, shape_of};

use crate::{Board, Component, EACH, HEAD, MOST_COMPONENTS, Refusal, UUID_BYTES};

// Where the head's fields start, past the count of components.
const CPUS_AT: usize = 5;

const ZERO_AT: usize = 11;

const FIRST_AT: usize = 16;

const LAST_AT: usize = 80;

// Where the fields of a component's bytes start, past its UUID.
const CAPABLE_AT: usize = 128;

const MAY_RESET_AT: usize = 129;

const OPTIONAL_AT: usize = 130;

const ZEROS_AT: usize = 131;

const SVN_AT: usize = 136;

// A field that lies in s.
fn field(s: &[u8], at: usize, width: usize) -> u64
    requires { (width ≤ widest) × (at + width ≤ 8 * length s.now) }
    ensures { result ≡ value_at s.now at width }
{
    bitfield::value(s, at, width)
}

// How many components a description of at least two bytes has.
#[tactic(auto, using(crate::proofs::Lists::widths_hold))]
fn components_in(s: &[u8]) -> usize
    requires { 2 ≤ length s.now }
    ensures { result ≡ components_in s.now }
{
    field(s, 0, 5) as usize + 1
}

#[tactic(auto, unfolding(crate::specs::Packed::reserved_clear))]
fn is_reserved_clear(s: &[u8], n: usize) -> bool
    requires { length_of n ≤ length s.now }
    ensures { result ≡ reserved_clear s.now n }
{
    field(s, ZERO_AT, 5) == 0 && (0..n).all(|i| field(&s[HEAD + EACH * i..], ZEROS_AT, 5) == 0)
}

// Whether the bytes have the shape of a description.
#[tactic(auto, unfolding(crate::specs::Packed::shape_of), using(crate::proofs::Laws::components_most))]
pub(crate) fn shape(s: &[u8]) -> Result<(), Refusal>
    ensures { result ≡ shape_of s.now }
{
    if s.len() < 2 {
        return Err(Refusal::TooShort);
    }
    let n = components_in(s);
    let whole = HEAD + EACH * n;
    if s.len() < whole {
        Err(Refusal::TooShort)
    } else if s.len() > whole {
        Err(Refusal::TooLong)
    } else if is_reserved_clear(s, n) {
        Ok(())
    } else {
        Err(Refusal::ReservedBit)
    }
}

// The component at the start of these bytes.
#[tactic(auto, unfolding(crate::specs::Packed::component_at), using(crate::proofs::Lists::widths_hold, crate::proofs::Lists::uuid_front))]
fn component_at(s: &[u8]) -> Component
    requires { component_length ≤ length s.now }
    ensures { result ≡ component_at s.now 0 }
{
    let mut uuid = [0; UUID_BYTES];
    uuid.copy_from_slice(&s[..UUID_BYTES]);
    Component {
        uuid,
        capable: field(s, CAPABLE_AT, 1) == 1,
        may_reset: field(s, MAY_RESET_AT, 1) == 1,
        optional: field(s, OPTIONAL_AT, 1) == 1,
        svn: field(s, SVN_AT, 32) as u32,
    }
}

pub(crate) fn blank_component() -> Component
    ensures { result ≡ blank }
{
    Component {
        uuid: [0; UUID_BYTES],
        capable: false,
        may_reset: false,
        optional: false,
        svn: 0,
    }
}

fn components_at(s: &[u8], n: usize) -> [Component; MOST_COMPONENTS]
    requires { (n ≤ most_components) × (length_of n ≤ length s.now) }
    ensures { result ≡ components_at s.now n }
{
    let mut all = [blank_component(); MOST_COMPONENTS];
    for i in 0..n {
        all[i] = component_at(&s[HEAD + EACH * i..]);
    }
    all
}

// What bytes of the right shape describe.
#[tactic(auto, unfolding(crate::specs::Packed::board_at), using(crate::proofs::Lists::widths_hold, crate::proofs::Laws::components_most))]
pub(crate) fn board_at(s: &[u8]) -> Board
    requires { length_of (components_in s.now) ≤ length s.now }
    ensures { result ≡ board_at s.now }
{
    let n = components_in(s);
    Board {
        components: n as u64,
        cpus: field(s, CPUS_AT, 6) + 1,
        first: field(s, FIRST_AT, 64),
        last: field(s, LAST_AT, 64),
        component: components_at(s, n),
    }
}
