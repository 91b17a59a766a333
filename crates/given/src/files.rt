// The file that an argument names, and what is read of a file or another input.
ghost use Rattle.std.specs.Prelude.{take};
ghost use Rattle.std.specs.Bool.{OnTrue};
ghost use Rattle.std.specs.Io.KnownBytes.{Consumes, IsAtEnd};
ghost use Rattle.given.specs.Files.{HasRead, IsIn, IsPrefixLen};

use crate::say;
use std::env::FillError;
use std::io::Read;
use std::rt::{Env, Files};
use std::{fs, str};

pub(crate) fn say_unread(stderr: &impl Print, name: &[u8]) {
    say(stderr, b"cannot read ");
    say(stderr, name);
    say(stderr, b"\n");
}

// Puts the name that argument i gives in a buffer, and answers how much of it there is: all that fits where it is too long,
// which is no path.
pub(crate) fn name(rt: &impl Env, i: usize, path: &mut [u8]) -> usize
    ensures { IsPrefixLen result path.new }
{
    match rt.arg(i, path) {
        Ok(n) => n,
        Err(FillError::TooLong) => path.len(),
        Err(FillError::NotPresent) => 0,
    }
}

// The file of that name, where there is one that can be opened. A name that is no UTF-8 is none for `std::fs`.
pub(crate) fn open<R: Files>(rt: &R, name: &[u8]) -> Option<R::File> {
    let path = str::from_utf8(name).ok()?;
    fs::open(rt, path).ok()
}

// Reads until the buffer is full, the file ends or a read fails, and answers how many bytes are at the buffer's start.
fn read_full<R: Read>(file: &mut R, buf: &mut [u8]) -> usize
    ensures within { IsPrefixLen result buf.new }
    ensures bytes { Consumes (R.remaining file.old) (R.remaining file.new) (take result buf.new) }
{
    // counts what each read gave; `read_exact` doesn't say how much came before the end
    let mut done: usize = 0;
    while done < buf.len() {
        match file.read(&mut buf[done..]) {
            Ok(0) => break,
            Ok(n) => done += n,
            Err(_) => break,
        }
    }
    done
}

// Whether a file has ended, and not failed.
fn is_at_end<R: Read>(file: &mut R) -> bool
    ensures { OnTrue result (IsAtEnd (R.remaining file.old)) }
{
    let mut byte = [0u8; 1];
    matches!(file.read(&mut byte), Ok(0))
}

// Fills a buffer from an open file, or another input, as far as that goes, and answers with how many bytes; with none where it breaks
// off.
pub fn fill<R: Read>(file: &mut R, buf: &mut [u8]) -> Option<usize>
    ensures within { IsIn result buf.new }
    ensures reads { HasRead (R.remaining file.old) result buf.new }
{
    let n = read_full(file, buf);
    if n == buf.len() || is_at_end(file) {
        Some(n)
    } else {
        None
    }
}
