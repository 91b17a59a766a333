// Writing a description: its head, and its components one after another.
ghost use Rattle.std.specs.Prelude.{◌≡◌, ◌+◌, ◌*◌, ◌≤◌, length, Ok};
ghost use Rattle.basics.specs.Places.{in_turn};
ghost use Rattle.bitfield.specs.Bits.{AreBytes, widest_bytes, bytes, put};
ghost use Rattle.board.specs.Description.{most_components, uuid_bytes, Counted};
ghost use Rattle.board.specs.Packed.{flags_number, length_of, component_length, head_length, head_bytes, component_bytes, bytes_at, length_in, put_by, part_by, Typed, EachTyped, DescribedIf};

use crate::{Board, Component, EACH, HEAD, Refusal, UUID_BYTES, digit};

// The bytes at which the head's words start, past the counts.
const FIRST_AT: usize = 2;

const LAST_AT: usize = 10;

// The bytes at which a component's flags and SVN start, past its UUID.
const FLAGS_AT: usize = 16;

const SVN_AT: usize = 17;

// Writes a number in n bytes that lie in the buffer: the buffer and a place, not a part of it, as `put` of the promise has them.
#[tactic(auto, using(crate::proofs::Lists::written_room))]
fn put_number(buf: &mut [u8], k: usize, n: usize, v: u64)
    requires { (n ≤ widest_bytes) × (k + n ≤ length buf.old) }
    ensures { buf.new ≡ put buf.old k (bytes n v) }
{
    bitfield::write(buf, k, n, v);
}

// Writes a UUID, whose type says that it is bytes.
#[tactic(auto, using(crate::proofs::Lists::put_over))]
fn put_uuid(buf: &mut [u8], k: usize, uuid: &[u8; UUID_BYTES])
    requires { k + uuid_bytes ≤ length buf.old }
    ensures buf_after { buf.new ≡ put buf.old k uuid.now }
    ensures are_bytes { AreBytes uuid.now }
{
    buf[k..k + UUID_BYTES].copy_from_slice(uuid);
}

// A component's flags, in the first three bits of a byte.
fn flags(c: &Component) -> u64
    ensures { result ≡ flags_number c.now * 32 }
{
    (digit(c.capable) * 4 + digit(c.may_reset) * 2 + digit(c.optional)) * 32
}

fn put_component(buf: &mut [u8], k: usize, c: &Component)
    requires { k + component_length ≤ length buf.old }
    ensures buf_after { buf.new ≡ put buf.old k (component_bytes c.now) }
    ensures typed { Typed c.now }
{
    put_uuid(buf, k, &c.uuid);
    put_number(buf, k + FLAGS_AT, 1, flags(c));
    // Read into a variable: the proof knows its range only so.
    let svn = c.svn;
    put_number(buf, k + SVN_AT, 4, u64::from(svn));
}

fn put_head(buf: &mut [u8], b: &Board)
    requires counted { Counted b.now }
    requires room { head_length ≤ length buf.old }
    ensures { buf.new ≡ put buf.old 0 (head_bytes b.now) }
{
    let counts = (b.components - 1) * 64 + (b.cpus - 1);
    put_number(buf, 0, 2, counts * 32);
    put_number(buf, FIRST_AT, 8, b.first);
    put_number(buf, LAST_AT, 8, b.last);
}

// The components within the count, one after another, past the head.
fn put_components(buf: &mut [u8], b: &Board)
    requires few { b.now.components ≤ most_components }
    requires room { length_of b.now.components ≤ length buf.old }
    ensures buf_after { buf.new ≡ put buf.old head_length (in_turn b.now.components (bytes_at b.now)) }
    ensures each_typed { EachTyped b.now b.now.components }
{
    let components = &b.component[..b.components as usize];
    for (i, c) in components.iter().enumerate() {
        put_component(buf, HEAD + EACH * i, c);
    }
}

// A description that may be written, where there is room for it.
#[tactic(auto, using(crate::proofs::Laws::rooms))]
pub(crate) fn put_writable(buf: &mut [u8], b: &Board) -> Result<usize, Refusal>
    requires { Counted b.now }
    ensures value { result ≡ put_by (Ok tt) (length buf.old) (length_of b.now.components) }
    ensures buf_after { buf.new ≡ put buf.old 0 (part_by result b.now) }
    ensures part_length { length_in result ≡ length (part_by result b.now) }
    ensures described_if { DescribedIf result b.now }
{
    let n = HEAD + EACH * b.components as usize;
    if buf.len() < n {
        return Err(Refusal::NoRoom);
    }
    put_head(buf, b);
    put_components(buf, b);
    Ok(n)
}

pub(crate) fn length_in(w: Result<usize, Refusal>) -> usize
    ensures { result ≡ length_in w }
{
    match w {
        Ok(n) => n,
        Err(_) => 0,
    }
}
