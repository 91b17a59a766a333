// What the columns of a line say.
use codes::{ACTIVATION_STARTED, GONE, HELD, NOTED, PRIME_STARTED, RELEASED, RETURNED};
use log_record::{ACTIVATE_REPORT, CALL, IMAGE, PRIME_REPORT};

// No record that reads has a kind but these four.
pub(crate) fn kind(n: u64) -> &'static str {
    match n {
        CALL => "call",
        PRIME_REPORT => "prime",
        ACTIVATE_REPORT => "activate",
        IMAGE => "image",
        _ => "unknown",
    }
}

pub(crate) fn outcome(n: u64) -> &'static str {
    match n {
        RETURNED => "returned",
        HELD => "held",
        PRIME_STARTED => "prime-started",
        ACTIVATION_STARTED => "activation-started",
        GONE => "gone",
        RELEASED => "released",
        NOTED => "noted",
        _ => "unknown",
    }
}
