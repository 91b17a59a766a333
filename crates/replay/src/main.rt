// reads a log from standard input and writes which component is prepared at each place of it
#![tactic(auto)]

ghost use Rattle.std.specs.Prelude.{◌≡◌, Err, Ok};
ghost use Rattle.log_book.specs.Log.{past_of, checked_of};
ghost use Rattle.log_book.specs.Prepared.{prepared_of};

use log_book::{Flaw, MOST_BYTES, Prepared};
use std::{fmt, io};

// One byte more than the longest log: a log that fills it is too long, whatever follows.
const ROOM: usize = MOST_BYTES + 1;

// What is prepared, as a line says it.
#[derive(Clone, Copy)]
struct Shown(Option<u64>);

impl fmt::Display for Shown {
    fn fmt<W: fmt::Write>(&self, f: &mut fmt::Formatter<W>) -> fmt::Result {
        match self.0 {
            None => f.write_str("none"),
            Some(c) => write!(f, "{c}"),
        }
    }
}

// The line of a place, with what is prepared there.
fn line(rt: &impl Print, log: &[u8], place: usize, p: Prepared) -> io::Result<()>
    requires { p ≡ prepared_of (past_of log.now place) }
{
    println!(rt; "{place} {} {}", Shown(p.primed), p.looked)
}

// The lines of a log of n records, each of which is read once.
#[tactic(auto, unfolding(log_book::specs::Prepared::prepared_of, log_book::specs::Log::past_of))]
fn lines(rt: &impl Print, log: &[u8], n: usize) -> io::Result<()>
    requires { checked_of log.now 0 ≡ Ok n }
{
    let mut p = Prepared {
        primed: None,
        looked: 0,
    };
    line(rt, log, 0, p)?;
    for k in 0..n {
        p = log_book::prepared_next(log, k, p);
        line(rt, log, k + 1, p)?;
    }
    Ok(())
}

// The line of a log that is refused.
fn refused(rt: &impl Print, log: &[u8], f: Flaw) -> io::Result<()>
    requires { checked_of log.now 0 ≡ Err f }
{
    println!(rt; "refused {} at {}", u64::from(f.refusal), f.place)
}

fn replay(rt: &impl Print, log: &[u8]) -> io::Result<()> {
    match log_book::check_log(log, 0) {
        Ok(n) => {
            println!(rt; "place primed looked")?;
            lines(rt, log, n)
        }
        Err(f) => refused(rt, log, f),
    }
}

fn main(rt: HostRuntime) -> io::Result<()> {
    let mut buf = [0u8; ROOM];
    match given::fill(&mut rt.stdin(), &mut buf) {
        Some(n) => replay(&rt, &buf[..n]),
        None => rt.eprintln("cannot read standard input"),
    }
}
