// reads a log from standard input as it comes, and writes each record as soon as its last byte is there
#![tactic(auto)]

mod words;

ghost use Rattle.std.specs.Prelude.{◌≡◌, IfOk, Err, Ok, Some};
ghost use Rattle.deliveries.specs.Lead.{is_open};
ghost use Rattle.deliveries.specs.Taken.{taken_of, closing_of};
ghost use Rattle.deliveries.specs.Shown.{delivered};

use deliveries::{Lead, Refusal, Standing};
use log_record::LogRecord;
use std::io;
use std::io::Read;

// The most bytes that one read takes; it waits for none once there are some.
const ROOM: usize = 65536;

// The line of a record that a delivery gives: its place is the number of those before it.
fn line(rt: &impl Print, lead: Lead, delivery: &[u8], r: LogRecord) -> io::Result<()>
    requires { (taken_of lead delivery.now).given ≡ Ok (Some r) }
{
    let kind = words::kind(r.kind);
    let outcome = words::outcome(r.outcome);
    print!(rt; "{} {kind} {} {} {outcome}", lead.records, r.cpu, r.code)?;
    println!(rt;
        " {:#x} {:#x} {:#x} {:#x} {:#x} {:#x}",
        r.w1, r.w2, r.w3, r.w4, r.w5, r.w6
    )
}

// The words of a refusal, whether a delivery or the end of input brought it.
fn refusal(rt: &impl Print, x: Refusal) -> io::Result<()> {
    println!(rt; "refused {} at {}", u64::from(x), x.place())
}

// The line of a delivery that is refused.
fn refused(rt: &impl Print, lead: Lead, delivery: &[u8], x: Refusal) -> io::Result<()>
    requires { (taken_of lead delivery.now).given ≡ Err x }
{
    refusal(rt, x)
}

// The lines of what a delivery gives, and the reader after it, unless a line can't be written.
fn deliver(rt: &impl Print, first: Lead, delivery: &[u8]) -> io::Result<Lead>
    ensures { IfOk result (λ lead. lead ≡ (delivered first delivery.now).lead) }
{
    let mut lead = first;
    let mut rest = delivery;
    // no `for`: how far a turn goes is what its call used
    while !rest.is_empty() {
        let taken = lead.take(rest);
        let next = taken.lead;
        match taken.given {
            Ok(None) => return Ok(next),
            Err(x) => {
                refused(rt, lead, rest, x)?;
                return Ok(next);
            }
            Ok(Some(r)) => {
                line(rt, lead, rest, r)?;
                lead = next;
                rest = &rest[taken.used..];
            }
        }
    }
    Ok(lead)
}

// The line of a log that ends well.
fn closed(rt: &impl Print, lead: Lead, n: usize) -> io::Result<()>
    requires { (closing_of lead).ending ≡ Ok n }
{
    println!(rt; "closed {n}")
}

// The line of a log that ends in the middle of a record.
fn unended(rt: &impl Print, lead: Lead, x: Refusal) -> io::Result<()>
    requires { (closing_of lead).ending ≡ Err x }
{
    refusal(rt, x)
}

// The last line, where input ends.
fn end(rt: &impl Print, lead: Lead) -> io::Result<()> {
    match lead.close().ending {
        Ok(n) => closed(rt, lead, n),
        Err(x) => unended(rt, lead, x),
    }
}

fn is_open(lead: Lead) -> bool
    ensures { result ≡ is_open lead.standing }
{
    matches!(lead.standing, Standing::Open)
}

fn main(rt: HostRuntime) -> io::Result<()> {
    println!(rt; "place kind cpu code outcome word1 word2 word3 word4 word5 word6")?;
    let mut buf = [0u8; ROOM];
    let mut input = rt.stdin();
    let mut lead = Lead::open();
    // no `for`: how many reads there are is the input's matter
    while is_open(lead) {
        let Ok(n) = input.read(&mut buf) else {
            return rt.eprintln("cannot read standard input");
        };
        if n == 0 {
            return end(&rt, lead);
        }
        lead = deliver(&rt, lead, &buf[..n])?;
    }
    Ok(())
}
