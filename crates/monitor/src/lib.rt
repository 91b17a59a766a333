// What a host links: C functions with the prefix lfa_. host/lfa.h says them in C.
#![tactic(auto)]

ghost use Rattle.std.specs.Prelude.{◌≡◌, length};
ghost use Rattle.flat.specs.Calls.{abi_of, described_of, description_of, read_in, fresh_in, step_of, entries_of, contexts_of, written_of, buffer_of, prepared_in, started_in, powered_in, held_in, why_in};
ghost use Rattle.flat.specs.Leads.{opened_in, taken_in, closed_in};

use codes::Call;
use flat::{
    FlatAbi, FlatAnswer, FlatBoard, FlatClosed, FlatCpus, FlatEvent, FlatFresh, FlatLead,
    FlatPrepared, FlatRead, FlatRecord, FlatStarted, FlatTaken, FlatWhy, FlatWritten,
};
use reason::Activate;

// Which library this is: a host built for another compares this before all else.
#[unsafe(no_mangle)]
pub extern "C" fn lfa_abi() -> FlatAbi
    ensures { result ≡ abi_of }
{
    flat::abi()
}

// Writes a board's description from its parts at the start of the buffer; bytes not written stay.
#[unsafe(no_mangle)]
pub extern "C" fn lfa_describe(buf: &mut [u8], board: FlatBoard) -> FlatWritten
    ensures value { result ≡ described_of (length buf.old) board }
    ensures buf_after { buf.new ≡ description_of buf.old board }
{
    flat::describe(buf, board)
}

// The record of a board that was just switched on, from its packed description.
#[unsafe(no_mangle)]
pub extern "C" fn lfa_fresh(board: &[u8]) -> FlatFresh
    ensures { result ≡ fresh_in board.now }
{
    flat::fresh(board)
}

// One event on the record that the host lends. In the two tables only the places of CPUs that resume by entry are written.
#[unsafe(no_mangle)]
pub extern "C" fn lfa_step(
    rec: &mut FlatRecord,
    e: FlatEvent,
    entries: &mut [u64],
    contexts: &mut [u64],
) -> FlatAnswer
    ensures value { result ≡ (step_of rec.old e (length entries.old) (length contexts.old)).answer }
    ensures rec_after { rec.new ≡ (step_of rec.old e (length entries.old) (length contexts.old)).rec }
    ensures entries_after { entries.new ≡ entries_of rec.old e entries.old contexts.old }
    ensures contexts_after { contexts.new ≡ contexts_of rec.old e entries.old contexts.old }
{
    let s = flat::step(*rec, e, entries, contexts);
    *rec = s.rec;
    s.answer
}

// Writes the log record of an accepted event at the start of the buffer; bytes not written stay.
#[unsafe(no_mangle)]
pub extern "C" fn lfa_log(buf: &mut [u8], e: FlatEvent, a: FlatAnswer) -> FlatWritten
    ensures value { result ≡ written_of (length buf.old) e a }
    ensures buf_after { buf.new ≡ buffer_of buf.old e a }
{
    flat::log(buf, e, a)
}

// The log record that the bytes open with.
#[unsafe(no_mangle)]
pub extern "C" fn lfa_read_record(log: &[u8]) -> FlatRead
    ensures { result ≡ read_in log.now }
{
    flat::read_record(log)
}

// Which component is prepared at a place of a log.
#[unsafe(no_mangle)]
pub extern "C" fn lfa_prepared(log: &[u8], place: usize) -> FlatPrepared
    ensures { result ≡ prepared_in log.now place }
{
    flat::prepared(log, place)
}

// The component whose rendezvous activation starts at a call made at a place of a log.
#[unsafe(no_mangle)]
pub extern "C" fn lfa_starts(board: &[u8], log: &[u8], place: usize, call: Call) -> FlatStarted
    ensures { result ≡ started_in board.now log.now place call }
{
    flat::starts(board, log, place, call)
}

// The powered CPUs at a place of a log, by the log alone.
#[unsafe(no_mangle)]
pub extern "C" fn lfa_powered(log: &[u8], place: usize) -> FlatCpus
    ensures { result ≡ powered_in log.now place }
{
    flat::powered(log, place)
}

// The held CPUs at a place of a log, by the log alone.
#[unsafe(no_mangle)]
pub extern "C" fn lfa_held(log: &[u8], place: usize) -> FlatCpus
    ensures { result ≡ held_in log.now place }
{
    flat::held(log, place)
}

// Why an ACTIVATE made at a place of a log gets its answer.
#[unsafe(no_mangle)]
pub extern "C" fn lfa_why(board: &[u8], log: &[u8], place: usize, a: Activate) -> FlatWhy
    ensures { result ≡ why_in board.now log.now place a }
{
    flat::why(board, log, place, a)
}

// A reader of deliveries to which nothing has come.
#[unsafe(no_mangle)]
pub extern "C" fn lfa_lead_open() -> FlatLead
    ensures { result ≡ opened_in }
{
    flat::lead_open()
}

// Takes a delivery as far as it gives one record.
#[unsafe(no_mangle)]
pub extern "C" fn lfa_lead_take(lead: FlatLead, delivery: &[u8]) -> FlatTaken
    ensures { result ≡ taken_in lead delivery.now }
{
    flat::lead_take(lead, delivery)
}

// Tells a reader that the log ends here.
#[unsafe(no_mangle)]
pub extern "C" fn lfa_lead_close(lead: FlatLead) -> FlatClosed
    ensures { result ≡ closed_in lead }
{
    flat::lead_close(lead)
}
