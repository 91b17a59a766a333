// Reasons in words.
use cpuset::CpuSet;
use reason::Reason;
use std::fmt;

// The CPUs of a set, rising.
#[derive(Clone, Copy)]
struct Listed(CpuSet);

impl fmt::Display for Listed {
    fn fmt<W: fmt::Write>(&self, f: &mut fmt::Formatter<W>) -> fmt::Result {
        let mut before = "";
        for cpu in 0..cpuset::ROOM {
            if self.0.has(cpu) {
                write!(f, "{before}{cpu}")?;
                before = ", ";
            }
        }
        Ok(())
    }
}

#[derive(Clone, Copy)]
pub(crate) struct Because(pub(crate) Reason);

impl fmt::Display for Because {
    fn fmt<W: fmt::Write>(&self, f: &mut fmt::Formatter<W>) -> fmt::Result {
        match self.0 {
            Reason::NothingPrepared => f.write_str("returned -7: nothing is prepared"),
            Reason::BeingPrepared(c) => {
                write!(f, "returned -7: component {c} is being prepared")
            }
            Reason::HalfPrepared(c) => write!(f, "returned -7: component {c} is half prepared"),
            Reason::BoardDead => f.write_str("returned -7: the board is dead"),
            Reason::WasWithdrawn(c) => write!(f, "returned -7: component {c} was withdrawn"),
            Reason::OtherComponent(c) => write!(f, "returned -8: X1 is not component {c}"),
            Reason::OtherFlags => f.write_str("returned -8: flags above bit 0"),
            Reason::NotOptional => {
                f.write_str("returned -8: skip on a component that is not optional")
            }
            Reason::SkipInGathering => f.write_str("returned -8: skip while gathering"),
            Reason::NoSkip => {
                f.write_str("returned -8: no skip in an activation without rendezvous")
            }
            Reason::BadEntry => f.write_str("returned -10: X3 is no good entry"),
            Reason::BeingActivated(c) => write!(
                f,
                "returned -2: component {c} is being activated without rendezvous"
            ),
            Reason::Skipped => f.write_str("started: skipped"),
            Reason::Held(missing) => write!(f, "held: waiting for CPU {}", Listed(missing)),
            Reason::AllPresent => f.write_str("started: all present"),
        }
    }
}
