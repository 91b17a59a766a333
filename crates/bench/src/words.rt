// What the columns of a line say.
use codes::{
    ACTIVATE, ACTIVATION_STARTED, CANCEL, CPU_OFF, CPU_ON, FEATURES, GET_INFO, GET_INVENTORY, GONE,
    HELD, NOTED, PRIME, PRIME_STARTED, RELEASED, RETURNED, VERSION,
};
use log_record::{ACTIVATE_REPORT, CALL, IMAGE, LogRecord, PRIME_REPORT, Refusal};
use std::fmt;
use trace::Replayed;

fn function(n: u64) -> &'static str {
    match n {
        VERSION => "VERSION",
        FEATURES => "FEATURES",
        GET_INFO => "GET_INFO",
        GET_INVENTORY => "GET_INVENTORY",
        PRIME => "PRIME",
        ACTIVATE => "ACTIVATE",
        CANCEL => "CANCEL",
        CPU_OFF => "CPU_OFF",
        CPU_ON => "CPU_ON",
        _ => "unknown",
    }
}

fn outcome(n: u64) -> &'static str {
    match n {
        RETURNED => "returned",
        HELD => "held",
        PRIME_STARTED => "prime-started",
        ACTIVATION_STARTED => "activation-started",
        GONE => "gone",
        RELEASED => "released",
        NOTED => "noted",
        _ => "unknown",
    }
}

// The caller, the event and its two arguments.
#[derive(Clone, Copy)]
pub(crate) struct Event(pub(crate) LogRecord);

// No record that reads has a kind but these four, and no CPU makes the last three.
impl fmt::Display for Event {
    fn fmt<W: fmt::Write>(&self, f: &mut fmt::Formatter<W>) -> fmt::Result {
        let r = self.0;
        match r.kind {
            CALL => {
                let name = function(codes::function_number(r.w1));
                write!(f, "{} {name} {} {}", r.cpu, r.w2, r.w3)
            }
            PRIME_REPORT => write!(f, "- prime-report {} {}", r.w2, r.code),
            ACTIVATE_REPORT => write!(f, "- activate-report {} {}", r.w2, r.code),
            IMAGE => write!(f, "- image {} {}", r.w2, r.w3),
            _ => f.write_str("- unknown 0 0"),
        }
    }
}

// A record's outcome and word 6, that as a signed number, so that a status reads as document 01 writes it.
#[derive(Clone, Copy)]
pub(crate) struct Logged(pub(crate) LogRecord);

impl fmt::Display for Logged {
    fn fmt<W: fmt::Write>(&self, f: &mut fmt::Formatter<W>) -> fmt::Result {
        let r = self.0;
        write!(f, "{} {}", outcome(r.outcome), r.w6.cast_signed())
    }
}

// The agent's outcome and word 6.
#[derive(Clone, Copy)]
pub(crate) struct Answer(pub(crate) Replayed);

impl fmt::Display for Answer {
    fn fmt<W: fmt::Write>(&self, f: &mut fmt::Formatter<W>) -> fmt::Result {
        match self.0 {
            Replayed::Refused(x) => write!(f, "refused-{} 0", u64::from(x)),
            Replayed::Logged(r) => write!(f, "{}", Logged(r)),
            Replayed::Unknown => write!(f, "refused-{} 0", u64::from(Refusal::Unknown)),
        }
    }
}

// A component, or none.
#[derive(Clone, Copy)]
pub(crate) struct Component(pub(crate) Option<u64>);

impl fmt::Display for Component {
    fn fmt<W: fmt::Write>(&self, f: &mut fmt::Formatter<W>) -> fmt::Result {
        match self.0 {
            None => f.write_str("-"),
            Some(c) => write!(f, "{c}"),
        }
    }
}
