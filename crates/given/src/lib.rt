// What a program is given: by the words of its command line the bytes of a file, or a number; and what an input has.
#![tactic(auto)]

mod digits;
mod files;

ghost use Rattle.std.specs.Prelude.{◌≡◌};
ghost use Rattle.given.specs.Files.{IsIn};
ghost use Rattle.given.specs.Numerals.{numeral_of};

pub use files::fill;
use std::rt::{Env, Files};

// Room for any word: Linux passes none of 131,072 bytes or more. One that does not fit is no number.
pub const WORD_ROOM: usize = 131_072;

// Room for any path, and one byte more: a name that fills it is none.
const PATH_ROOM: usize = 4096;

// The two bases.
const DECIMAL: u64 = 10;

const HEX: u64 = 16;

// What went wrong, which is no answer. Where that can't be written either, there is nothing more to say.
// Bytes, and no format: a word or a name may be no text.
fn say(stderr: &impl Print, s: &[u8]) {
    let _ = stderr.write_all(s);
}

// Reads the file that argument i names, and answers how many bytes it has; says so where it can't be read, and answers none.
pub fn read_file<R: Env + Files>(
    rt: &R,
    stderr: &impl Print,
    i: usize,
    buf: &mut [u8],
) -> Option<usize>
    ensures { IsIn result buf.new }
{
    let mut path = [0u8; PATH_ROOM];
    let n = files::name(rt, i, &mut path);
    let read = files::open(rt, &path[..n]).and_then(|mut file| fill(&mut file, buf));
    if read.is_none() {
        files::say_unread(stderr, &path[..n]);
    }
    read
}

// The number that a word says: in hex digits after `0x`, else in decimal ones.
#[tactic(auto, using(crate::proofs::Laws::short), unfolding(crate::specs::Numerals::numeral_of, crate::specs::Numerals::is_hex))]
fn number_in(word: &[u8]) -> Option<u64>
    ensures { result ≡ numeral_of word.now }
{
    match word {
        [b'0', b'x', hex @ ..] => digits::written(hex, HEX),
        _ => digits::written(word, DECIMAL),
    }
}

// The number that a word says; says so, with the word, where it is none.
pub fn read_number(stderr: &impl Print, word: &[u8]) -> Option<u64>
    ensures { result ≡ numeral_of word.now }
{
    let numeral = number_in(word);
    if let None = numeral {
        say(stderr, b"not a number: ");
        say(stderr, word);
        say(stderr, b"\n");
    }
    numeral
}
