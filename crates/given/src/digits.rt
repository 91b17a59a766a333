// Digits, and the numbers that they write.
ghost use Rattle.std.specs.Prelude.{◌≡◌, ◌<◌, ◌≤◌};
ghost use Rattle.given.specs.Numerals.{digit_of, written_in};

// What a byte is as a digit; 16, which is none in either base, for any other.
#[tactic(auto, using(crate::proofs::Laws::decimal, crate::proofs::Laws::lower, crate::proofs::Laws::upper, crate::proofs::Laws::other))]
fn digit(b: u8) -> u64
    ensures { result ≡ digit_of b }
{
    match b {
        b'0'..=b'9' => u64::from(b - b'0'),
        b'a'..=b'f' => u64::from(b - b'a') + 10,
        b'A'..=b'F' => u64::from(b - b'A') + 10,
        _ => 16,
    }
}

// The number that all of s writes in a base. It is none from the first byte on that is no digit, or that takes it past 64 bits.
#[tactic(auto, using(crate::proofs::Laws::of_none))]
pub(crate) fn written(s: &[u8], base: u64) -> Option<u64>
    requires { (0 < base) × (base ≤ 16) }
    ensures { result ≡ written_in base s.now }
{
    if s.is_empty() {
        return None;
    }
    let mut v: u64 = 0;
    for b in s {
        let d = digit(*b);
        if d >= base || v > (u64::MAX - d) / base {
            return None;
        }
        v = v * base + d;
    }
    Some(v)
}
