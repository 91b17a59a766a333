// The bench examples of the agent, each on a fresh board.
use agent::Caller;
use board_record::Record;
use codes::Call;
use rules::{Event, Image, Registers, Report};
use std::{fmt, io};

// Where a CPU may resume.
const ENTRY: u64 = 0x1000;

// What an event is answered, in words: a status as a signed number, the other registers in hex digits with all their zeros.
#[derive(Clone, Copy)]
struct Answer(Result<agent::Answer, rules::Refusal>);

impl fmt::Display for Answer {
    fn fmt<W: fmt::Write>(&self, f: &mut fmt::Formatter<W>) -> fmt::Result {
        match self.0 {
            Err(x) => write!(f, "refused {}", u64::from(x)),
            Ok(a) => match a.caller {
                Caller::Nothing => f.write_str("accepted"),
                Caller::Returned(x) => write!(f, "{}", Returned(x)),
                Caller::Held => f.write_str("held"),
                Caller::PrimeStarted => f.write_str("prime started"),
                Caller::ActivationStarted => f.write_str("activation started"),
                Caller::Gone => f.write_str("gone"),
            },
        }
    }
}

#[derive(Clone, Copy)]
struct Returned(Registers);

impl fmt::Display for Returned {
    fn fmt<W: fmt::Write>(&self, f: &mut fmt::Formatter<W>) -> fmt::Result {
        let x = self.0;
        write!(f, "returned {}", x.x0.cast_signed())?;
        if x.x3 > 0 {
            write!(f, ", X1 = {:016x}, X2 = {:016x}, X3 = {}", x.x1, x.x2, x.x3)?;
        }
        Ok(())
    }
}

// The record after an event.
fn after(rec: Record, e: Event) -> Record {
    let mut entries = [0u64; 4];
    let mut contexts = [0u64; 4];
    agent::step(rec, e, &mut entries, &mut contexts).rec
}

// What an event is answered.
fn ask(rt: &impl Print, name: &str, rec: Record, e: Event) -> io::Result<()> {
    let mut entries = [0u64; 4];
    let mut contexts = [0u64; 4];
    let s = agent::step(rec, e, &mut entries, &mut contexts);
    println!(rt; "{name}: {}", Answer(s.outcome))
}

fn call(cpu: u64, function: u64, x1: u64, x2: u64, x3: u64) -> Event {
    Event::Call(Call {
        cpu,
        x0: function,
        x1,
        x2,
        x3,
        x4: 0,
    })
}

fn image(c: u64, version: u32) -> Event {
    Event::Image(Image {
        component: c,
        version,
    })
}

fn prime(cpu: u64, c: u64) -> Event {
    call(cpu, codes::PRIME, c, 0, 0)
}

fn primed(c: u64) -> Event {
    Event::Prime(Report {
        component: c,
        code: 0,
    })
}

fn activate(cpu: u64, c: u64) -> Event {
    call(cpu, codes::ACTIVATE, c, 0, ENTRY)
}

fn activated(c: u64, code: u64) -> Event {
    Event::Activate(Report { component: c, code })
}

fn fresh() -> Record {
    Record::fresh(crate::sample())
}

// CPUs 0 and 2 are on.
fn two_on() -> Record {
    after(fresh(), call(0, codes::CPU_ON, 2, ENTRY, 0))
}

// Component c is prepared.
fn ready(rec: Record, c: u64) -> Record {
    after(after(after(rec, image(c, 5)), prime(0, c)), primed(c))
}

fn numbers(rt: &impl Print) -> io::Result<()> {
    ask(
        rt,
        "unknown number 0xC40002E7",
        fresh(),
        call(0, 0xC400_02E7, 0, 0, 0),
    )?;
    ask(rt, "VERSION", fresh(), call(0, codes::VERSION, 0, 0, 0))?;
    ask(
        rt,
        "FEATURES of 0x84000002",
        fresh(),
        call(0, codes::FEATURES, codes::CPU_OFF, 0, 0),
    )
}

fn inventory(rt: &impl Print, name: &str, rec: Record, id: u64) -> io::Result<()> {
    ask(rt, name, rec, call(0, codes::GET_INVENTORY, id, 0, 0))
}

fn inventories(rt: &impl Print) -> io::Result<()> {
    let informed = after(fresh(), call(0, codes::GET_INFO, 0, 0, 0));
    inventory(rt, "inventory of 0", informed, 0)?;
    inventory(rt, "inventory of 99 before GET_INFO", fresh(), 99)?;
    inventory(rt, "inventory of 99 after it", informed, 99)
}

fn primes(rt: &impl Print, name: &str, version: u32) -> io::Result<()> {
    ask(rt, name, after(fresh(), image(1, version)), prime(0, 1))
}

fn cancels(rt: &impl Print, name: &str, rec: Record) -> io::Result<()> {
    ask(rt, name, rec, call(0, codes::CANCEL, 99, 0, 0))
}

fn one_cpu(rt: &impl Print, rec: Record) -> io::Result<()> {
    ask(rt, "one CPU on, its ACTIVATE", rec, activate(0, 0))?;
    ask(
        rt,
        "code 1 in together",
        after(rec, activate(0, 0)),
        activated(0, 1),
    )
}

fn gathering(rt: &impl Print, rec: Record) -> io::Result<()> {
    ask(
        rt,
        "CPU_ON of 3 in gathering",
        rec,
        call(2, codes::CPU_ON, 3, ENTRY, 0),
    )?;
    ask(rt, "the second ACTIVATE", rec, activate(2, 0))
}

fn postponed(rt: &impl Print, together: Record) -> io::Result<()> {
    ask(
        rt,
        "postponed, then one of the two",
        after(together, activated(0, 2)),
        activate(0, 0),
    )
}

fn two_cpus(rt: &impl Print, rec: Record) -> io::Result<()> {
    ask(rt, "two CPUs on, the first ACTIVATE", rec, activate(0, 0))?;
    let gathered = after(rec, activate(0, 0));
    gathering(rt, gathered)?;
    postponed(rt, after(gathered, activate(2, 0)))
}

// A function of its own, so that what it has on the stack is not there beside the log.
#[inline(never)]
pub(crate) fn all(rt: &impl Print) -> io::Result<()> {
    numbers(rt)?;
    inventories(rt)?;
    primes(rt, "PRIME of version 4, SVN 5", 4)?;
    primes(rt, "PRIME of version 5, SVN 5", 5)?;
    cancels(rt, "CANCEL of 99 in idle", fresh())?;
    cancels(rt, "CANCEL of 99 in ready for 1", ready(fresh(), 1))?;
    one_cpu(rt, ready(fresh(), 0))?;
    two_cpus(rt, ready(two_on(), 0))
}
