// The bench examples of the log.
use log_book::{MOST_BYTES, MOST_RECORDS};
use log_record::{LogRecord, RECORD_BYTES};
use std::io;

// The bytes of one record more than the longest log has.
const TOO_LONG: usize = MOST_BYTES + RECORD_BYTES;

// Image 1, version 5.
fn image() -> LogRecord {
    LogRecord {
        kind: log_record::IMAGE,
        cpu: 0,
        code: 0,
        outcome: codes::NOTED,
        w1: 0,
        w2: 1,
        w3: 5,
        w4: 0,
        w5: 0,
        w6: 0,
    }
}

// PRIME of component 1, started by CPU 5.
fn started() -> LogRecord {
    LogRecord {
        kind: log_record::CALL,
        cpu: 5,
        code: 0,
        outcome: codes::PRIME_STARTED,
        w1: codes::PRIME,
        w2: 1,
        w3: 0,
        w4: 0,
        w5: 0,
        w6: 0,
    }
}

// What is written of a record.
fn writing(rt: &impl Print, name: &str, r: LogRecord) -> io::Result<()> {
    let mut buf = [0u8; RECORD_BYTES];
    let part = log_record::write_record(&mut buf, r);
    print!(rt; "{name}: {} bytes", part.len())?;
    if let [a, b, c, ..] = part {
        print!(rt; ", opens {a:02x} {b:02x} {c:02x}")?;
    }
    println!(rt)
}

// Fills a log with one record again and again.
fn fill(log: &mut [u8], r: LogRecord) {
    for part in log.chunks_exact_mut(RECORD_BYTES) {
        let _ = log_record::put_record(part, r);
    }
}

// Whether bytes are a log.
fn checking(rt: &impl Print, log: &[u8]) -> io::Result<()> {
    print!(rt; "log of {} bytes: ", log.len())?;
    match log_book::check_log(log, 0) {
        Ok(count) => println!(rt; "records {count}"),
        Err(f) => println!(rt; "refused {}", u64::from(f.refusal)),
    }
}

// What is prepared at a place of a log.
fn asking(rt: &impl Print, log: &[u8], place: usize) -> io::Result<()> {
    print!(rt; "place {place} of it: ")?;
    match log_book::prepared_at(log, place) {
        Ok(p) => println!(rt; "looked at {}", p.looked),
        Err(f) => println!(rt; "refused {}", u64::from(f.refusal)),
    }
}

// A list of names with their numbers.
fn numbers(rt: &impl Print, what: &str, named: &[(&str, u64)]) -> io::Result<()> {
    print!(rt; "{what}:")?;
    for (name, n) in named {
        print!(rt; " {name} {n}")?;
    }
    println!(rt)
}

const KINDS: [(&str, u64); 4] = [
    ("call", log_record::CALL),
    ("prime", log_record::PRIME_REPORT),
    ("activate", log_record::ACTIVATE_REPORT),
    ("image", log_record::IMAGE),
];

const OUTCOMES: [(&str, u64); 7] = [
    ("returned", codes::RETURNED),
    ("held", codes::HELD),
    ("prime-started", codes::PRIME_STARTED),
    ("activation-started", codes::ACTIVATION_STARTED),
    ("gone", codes::GONE),
    ("released", codes::RELEASED),
    ("noted", codes::NOTED),
];

// The longest log, and what is asked at its end and past it.
fn longest(rt: &impl Print, log: &[u8; TOO_LONG]) -> io::Result<()> {
    let log = &log[..MOST_BYTES];
    checking(rt, log)?;
    asking(rt, log, MOST_RECORDS)?;
    asking(rt, log, MOST_RECORDS + 1)
}

// A function of its own, so that the room for the log is on the stack for these alone.
#[inline(never)]
pub(crate) fn all(rt: &impl Print) -> io::Result<()> {
    numbers(rt, "kinds", &KINDS)?;
    numbers(rt, "outcomes", &OUTCOMES)?;
    writing(rt, "image 1 version 5", image())?;
    writing(rt, "PRIME started by CPU 5", started())?;
    let mut log = [0u8; TOO_LONG];
    fill(&mut log, image());
    checking(rt, &log)?;
    longest(rt, &log)?;
    let rest = log_record::rest(&log);
    println!(rt; "past its first record: {} bytes", rest.len())
}
