// says why an ACTIVATE at a place of a log is refused, held or started: why BOARD LOG PLACE CPU X1 X2 X3 X4, two file names and numbers
#![tactic(auto)]

mod words;

ghost use Rattle.std.specs.Prelude.{◌≡◌};
ghost use Rattle.reason.specs.Explained.{explained_of};

use history::DEPARTS;
use reason::Activate;
use std::env::FillError;
use std::io;
use std::rt::{Env, Files};
use words::Because;

// One byte more than the longest description, and than the longest log: a file that fills it is too long, whatever follows.
const BOARD_ROOM: usize = board::MOST_BYTES + 1;

const LOG_ROOM: usize = log_book::MOST_BYTES + 1;

// The line of an answer.
fn line(
    rt: &impl Print,
    board: &[u8],
    log: &[u8],
    place: usize,
    a: Activate,
    e: Result<reason::Reason, reason::Unexplained>,
) -> io::Result<()>
    requires { e ≡ explained_of board.now log.now place a }
{
    match e {
        Ok(x) => println!(rt; "{}", Because(x)),
        Err(reason::Unexplained::Board(x)) => println!(rt; "board refused {}", u64::from(x)),
        Err(reason::Unexplained::Log(f)) => {
            println!(rt; "log refused {} at {}", u64::from(f.refusal), f.place)
        }
        Err(reason::Unexplained::Departs(k)) => println!(rt; "log refused {DEPARTS} at {k}"),
        Err(reason::Unexplained::Call(x)) => println!(rt; "call refused {}", u64::from(x)),
    }
}

fn why(rt: &impl Print, board: &[u8], log: &[u8], place: usize, a: Activate) -> io::Result<()> {
    let e = reason::explain(board, log, place, a);
    line(rt, board, log, place, a, e)
}

// Reads the two files, the board first, before it looks at either. A function of its own, so that the room for these is not on the stack
// while words are read.
#[inline(never)]
fn answer<R: Env + Files + Print>(
    rt: &R,
    stderr: &impl Print,
    place: usize,
    a: Activate,
) -> io::Result<()> {
    let mut board = [0u8; BOARD_ROOM];
    let mut log = [0u8; LOG_ROOM];
    let Some(m) = given::read_file(rt, stderr, 1, &mut board) else {
        return Ok(());
    };
    let Some(n) = given::read_file(rt, stderr, 2, &mut log) else {
        return Ok(());
    };
    why(rt, &board[..m], &log[..n], place, a)
}

// Whether there is an argument i, of any length; the program's own name is argument 0. By hand: `env::args` takes a heap, which no
// program here has.
fn has_argument(rt: &impl Env, i: usize) -> bool {
    !matches!(rt.arg(i, &mut []), Err(FillError::NotPresent))
}

// The number that argument i says; says so where it says none. Of one that is missing or does not fit there is no byte.
fn said(rt: &impl Env, stderr: &impl Print, i: usize) -> Option<u64> {
    let mut word = [0u8; given::WORD_ROOM];
    let n = rt.arg(i, &mut word).unwrap_or(0);
    given::read_number(stderr, &word[..n])
}

// The place, and the ACTIVATE there; says which word is the first that is no number.
fn asked(rt: &impl Env, stderr: &impl Print) -> Option<(usize, Activate)> {
    let place = said(rt, stderr, 3)? as usize;
    let cpu = said(rt, stderr, 4)?;
    let x1 = said(rt, stderr, 5)?;
    let x2 = said(rt, stderr, 6)?;
    let x3 = said(rt, stderr, 7)?;
    let x4 = said(rt, stderr, 8)?;
    Some((
        place,
        Activate {
            cpu,
            x1,
            x2,
            x3,
            x4,
        },
    ))
}

fn main(rt: HostRuntime) -> io::Result<()> {
    if !has_argument(&rt, 8) || has_argument(&rt, 9) {
        return rt.eprintln("usage: why BOARD LOG PLACE CPU X1 X2 X3 X4");
    }
    let stderr = rt.stderr();
    let Some((place, a)) = asked(&rt, &stderr) else {
        return Ok(());
    };
    answer(&rt, &stderr, place, a)
}
