// takes a log through the agent and the plain reader side by side: bench BOARD LOG, two file names
#![tactic(auto)]

mod words;

ghost use Rattle.std.specs.Prelude.{◌≡◌, Err, Ok};
ghost use Rattle.board.specs.Packed.{read_of};
ghost use Rattle.log_book.specs.Log.{checked_of, record_at, said};
ghost use Rattle.trace.specs.Turn.{turn_at};

use board::Board;
use board_record::Record;
use log_book::Flaw;
use log_record::LogRecord;
use std::env::FillError;
use std::io;
use std::rt::Env;
use trace::Turn;
use words::{Answer, Component, Event, Logged};

// One byte more than the longest description, and than the longest log: a file that fills it is too long, whatever follows.
const BOARD_ROOM: usize = board::MOST_BYTES + 1;

const LOG_ROOM: usize = log_book::MOST_BYTES + 1;

// The line of record k; where the record holds something else than the agent's answer, with that at the end.
fn line(rt: &impl Print, b: Board, log: &[u8], k: usize, r: LogRecord, t: Turn) -> io::Result<()>
    requires { (r ≡ said (record_at log.now k)) × (t ≡ turn_at b log.now k) }
{
    let passed = t.agent;
    let answer = Answer(passed.replayed);
    let agent = Component(passed.started);
    let reader = Component(t.reader);
    print!(rt; "{k} {} {answer} {agent} {reader}", Event(r))?;
    if passed.differs {
        print!(rt; " differs: {}", Logged(r))?;
    }
    println!(rt)
}

// The lines of a log of n records, each taken once through both.
fn lines(rt: &impl Print, board: &[u8], b: Board, log: &[u8], n: usize) -> io::Result<()>
    requires { (read_of board.now ≡ Ok b) × (checked_of log.now 0 ≡ Ok n) }
{
    println!(rt; "place cpu event arg1 arg2 outcome word6 agent reader")?;
    let mut rec = Record::fresh(b);
    let mut story = reader::opening();
    for k in 0..n {
        let r = log_book::said_at(log, k);
        let t = trace::turned(rec, b, story, r);
        line(rt, b, log, k, r, t)?;
        rec = t.agent.rec;
        story = reader::told(story, r);
    }
    Ok(())
}

// The line of a log that is refused.
fn log_refused(rt: &impl Print, log: &[u8], f: Flaw) -> io::Result<()>
    requires { checked_of log.now 0 ≡ Err f }
{
    println!(rt; "log refused {} at {}", u64::from(f.refusal), f.place)
}

// The line of a board that is refused.
fn board_refused(rt: &impl Print, board: &[u8], x: board::Refusal) -> io::Result<()>
    requires { read_of board.now ≡ Err x }
{
    println!(rt; "board refused {}", u64::from(x))
}

fn bench(rt: &impl Print, board: &[u8], log: &[u8]) -> io::Result<()> {
    match board::read_board(board) {
        Ok(b) => match log_book::check_log(log, 0) {
            Ok(n) => lines(rt, board, b, log, n),
            Err(f) => log_refused(rt, log, f),
        },
        Err(x) => board_refused(rt, board, x),
    }
}

// Whether there is an argument i, of any length; the program's own name is argument 0. By hand: `env::args` takes a heap, which no
// program here has.
fn has_argument(rt: &impl Env, i: usize) -> bool {
    !matches!(rt.arg(i, &mut []), Err(FillError::NotPresent))
}

fn main(rt: HostRuntime) -> io::Result<()> {
    if !has_argument(&rt, 2) || has_argument(&rt, 3) {
        return rt.eprintln("usage: bench BOARD LOG");
    }
    let stderr = rt.stderr();
    let mut board = [0u8; BOARD_ROOM];
    let mut log = [0u8; LOG_ROOM];
    let Some(m) = given::read_file(&rt, &stderr, 1, &mut board) else {
        return Ok(());
    };
    let Some(n) = given::read_file(&rt, &stderr, 2, &mut log) else {
        return Ok(());
    };
    bench(&rt, &board[..m], &log[..n])
}
