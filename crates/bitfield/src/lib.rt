// Fields of a slice of bytes, most significant bit first: reading one of up to 64 bits anywhere, writing whole bytes.
#![tactic(auto)]

ghost use Rattle.std.specs.Prelude.{◌≡◌, ◌+◌, ◌-◌, ◌*◌, ◌/◌, ◌%◌, ◌^◌, ◌<◌, ◌≤◌, length, reverse, bit_or};
ghost use Rattle.std.specs.List.{fold};
ghost use Rattle.bitfield.specs.Bits.{widest, widest_bytes, value_at, field_at, value_in, room_for, written, bytes};

// The widest field, in bits and in bytes: a word.
const WIDEST: usize = 64;

const WIDEST_BYTES: usize = 8;

// The number that bytes write in the other order.
fn backwards(s: &[u8]) -> u64
    ensures { result ≡ fold (λ v b. bit_or (v * 2 ^ 8 % 2 ^ 64) b) 0 (reverse s.now) }
{
    s.iter().rev().fold(0u64, |v, b| v << 8 | u64::from(*b))
}

// The number that up to eight bytes write. Turned twice: where it is known how many there are and accesses need not be aligned, the
// compiler makes one load and one byte swap of it. No bytes would be a shift by a whole word, which there is not.
#[tactic(auto, using(crate::proofs::ByBytes::value_none))]
fn number(s: &[u8]) -> u64
    requires { length s.now ≤ widest_bytes }
    ensures { result ≡ value_at s.now 0 (8 * length s.now) }
{
    if s.is_empty() {
        return 0;
    }
    backwards(s).swap_bytes() >> (8 * (WIDEST_BYTES - s.len()))
}

#[tactic(auto, using(crate::proofs::Laws::one_bit, crate::proofs::Laws::all_bits))]
fn last_bits(v: u64, width: usize) -> u64
    ensures { result ≡ v % 2 ^ width }
{
    if width >= WIDEST {
        return v;
    }
    v % (1 << width)
}

// The field of width bits from bit off on of the bytes that cover it, where these are a word's: the bits past it are those from its
// end to theirs.
fn covered(s: &[u8], off: usize, width: usize) -> u64
    requires { (off + width ≤ widest) × (length s.now ≡ (off + width + 7) / 8) }
    ensures { result ≡ value_at s.now off width }
{
    last_bits(number(s) >> (8 * s.len() - (off + width)), width)
}

// The same where it takes nine bytes: what the first eight have of it, and the rest.
fn joined(s: &[u8], off: usize, width: usize) -> u64
    requires { (off < 8) × (width ≤ widest) × (widest < off + width) × (length s.now ≡ 9) }
    ensures { result ≡ value_at s.now off width }
{
    let rest = off + width - WIDEST;
    let first = last_bits(number(&s[..WIDEST_BYTES]), width - rest);
    (first << rest) + (u64::from(s[WIDEST_BYTES]) >> (8 - rest))
}

// The number that the width bits from bit at on write; none where they are more than a word's or lie outside the slice. Every reader
// of a field goes through here.
pub fn read(s: &[u8], at: usize, width: usize) -> Option<u64>
    ensures { result ≡ field_at s.now at width }
{
    if width > WIDEST {
        return None;
    }
    let k = at / 8;
    let off = at % 8;
    let end = k + (off + width + 7) / 8;
    if end > s.len() {
        return None;
    }
    let covering = &s[k..end];
    if off + width > WIDEST {
        return Some(joined(covering, off, width));
    }
    Some(covered(covering, off, width))
}

// The same number for a caller that has looked at the length; 0 for a field that is outside.
pub fn value(s: &[u8], at: usize, width: usize) -> u64
    ensures { result ≡ value_in (field_at s.now at width) }
{
    match read(s, at, width) {
        Some(v) => v,
        None => 0,
    }
}

// Writes v in up to eight bytes.
fn put_bytes(s: &mut [u8], v: u64)
    requires { length s.old ≤ widest_bytes }
    ensures { s.new ≡ bytes (length s.old) v }
{
    s.copy_from_slice(&v.to_be_bytes()[WIDEST_BYTES - s.len()..]);
}

// The same for any numbers: says whether the bytes lie in s and are at most a word's, and writes nothing where not.
#[tactic(auto, unfolding(crate::specs::Bits::room_for, crate::specs::Bits::written))]
pub fn write(s: &mut [u8], k: usize, n: usize, v: u64) -> bool
    ensures value { result ≡ room_for s.old k n }
    ensures s_after { s.new ≡ written s.old k n v }
{
    if n > WIDEST_BYTES || k > s.len() || n > s.len() - k {
        return false;
    }
    put_bytes(&mut s[k..k + n], v);
    true
}
