// What crosses to a host: numbers, arrays of numbers, and structs of these. Whatever they hold, each gets a stated answer.
#![tactic(auto)]

mod answers;
mod leads;
mod reasons;
mod records;

ghost use Rattle.std.specs.Prelude.{◌≡◌, length};
ghost use Rattle.flat.specs.Calls.{abi_of, described_of, description_of, read_in, fresh_in, no_event, step_of, entries_of, contexts_of, written_of, buffer_of, prepared_in, started_in, powered_in, held_in, why_in};
ghost use Rattle.flat.specs.Leads.{opened_in, taken_in, closed_in};

use agent::Freed;
use board::{Board, MOST_COMPONENTS, MOST_CPUS, UUID_BYTES};
use board_record::Record;
use codes::Call;
use cpuset::CpuSet;
use deliveries::{Lead, MOST_KEPT};
use log_record::LogRecord;
use reason::Activate;
use rules::{Image, Registers, Report};

// The ABI number, which rises with every change of a layout or of what a number means, and the bytes of the structs.
const ABI: u64 = 4;

const RECORD_SIZE: u64 = 2024;

const EVENT_SIZE: u64 = 88;

const ANSWER_SIZE: u64 = 80;

// What a host compares before all else: the library's ABI number, and the bytes of a record, an event and an answer.
#[repr(C)]
#[derive(Clone, Copy)]
pub struct FlatAbi {
    pub number: u64,
    pub rec: u64,
    pub event: u64,
    pub answer: u64,
}

// A component; a flag is 0 or 1.
#[repr(C)]
#[derive(Clone, Copy)]
pub struct FlatComponent {
    pub uuid: [u8; UUID_BYTES],
    pub svn: u32,
    pub capable: u8,
    pub may_reset: u8,
    pub optional: u8,
}

#[repr(C)]
#[derive(Clone, Copy)]
pub struct FlatBoard {
    pub components: u64,
    pub cpus: u64,
    pub first: u64,
    pub last: u64,
    pub component: [FlatComponent; MOST_COMPONENTS],
}

// A board's record. The state is its place in document 01's table of rules, from 0 (idle) on; subject is its component, and 0
// in idle and dead.
#[repr(C)]
#[derive(Clone, Copy)]
pub struct FlatRecord {
    pub board: FlatBoard,
    pub pending: [u8; MOST_COMPONENTS],
    pub version: [u32; MOST_COMPONENTS],
    pub state: u64,
    pub subject: u64,
    pub on: CpuSet,
    pub held: CpuSet,
    pub entry: [u64; MOST_CPUS],
    pub context: [u64; MOST_CPUS],
    pub informed: u64,
}

// An event: its kind, as the log numbers them, says which of the three counts.
#[repr(C)]
#[derive(Clone, Copy)]
pub struct FlatEvent {
    pub kind: u64,
    pub call: Call,
    pub report: Report,
    pub image: Image,
}

// An answer: 0 or the number of the refusal; then the caller's part, as the log numbers outcomes, 0 where there is none, with
// X0 to X3; then the release, 0 for nobody, 1 with X0 and X1, 2 by entry address, and the CPUs.
#[repr(C)]
#[derive(Clone, Copy)]
pub struct FlatAnswer {
    pub refusal: u64,
    pub caller: u64,
    pub returned: Registers,
    pub release: u64,
    pub freed: Freed,
}

// The record after an event, and the answer.
#[repr(C)]
#[derive(Clone, Copy)]
pub struct FlatStepped {
    pub rec: FlatRecord,
    pub answer: FlatAnswer,
}

// A fresh record, or the number of the refusal and zeros.
#[repr(C)]
#[derive(Clone, Copy)]
pub struct FlatFresh {
    pub refusal: u64,
    pub rec: FlatRecord,
}

// How many bytes were written, or the number of the refusal and 0.
#[repr(C)]
#[derive(Clone, Copy)]
pub struct FlatWritten {
    pub refusal: u64,
    pub bytes: usize,
}

// A log record that was read, with how many bytes it took; or the number of the refusal and zeros.
#[repr(C)]
#[derive(Clone, Copy)]
pub struct FlatRead {
    pub refusal: u64,
    pub bytes: usize,
    pub rec: LogRecord,
}

// A component, where found is 1; both are 0 where there is none.
#[repr(C)]
#[derive(Clone, Copy)]
pub struct FlatFound {
    pub found: u64,
    pub component: u64,
}

// What is prepared, with how many records were looked at; or the number of a refusal and the place of the record to blame.
#[repr(C)]
#[derive(Clone, Copy)]
pub struct FlatPrepared {
    pub refusal: u64,
    pub place: usize,
    pub prepared: FlatFound,
    pub looked: usize,
}

// What starts; or the number of a refusal and the place of the record to blame.
#[repr(C)]
#[derive(Clone, Copy)]
pub struct FlatStarted {
    pub refusal: u64,
    pub place: usize,
    pub started: FlatFound,
}

// The CPUs that a log tells of; or the number of a refusal and the place of the record to blame.
#[repr(C)]
#[derive(Clone, Copy)]
pub struct FlatCpus {
    pub refusal: u64,
    pub place: usize,
    pub cpus: CpuSet,
}

// The number of a reason, from 1 on, with the component and the CPUs that it names; or the number of a refusal and the place of
// the record to blame.
#[repr(C)]
#[derive(Clone, Copy)]
pub struct FlatWhy {
    pub refusal: u64,
    pub place: usize,
    pub reason: u64,
    pub component: u64,
    pub missing: CpuSet,
}

// A reader of deliveries. Its standing is 0 (open), 1 (closed well) or 2 (refused, with the number and the place of that; both are 0
// else); then how many records it has given, and the bytes that it keeps, with zeros past them.
#[repr(C)]
#[derive(Clone, Copy)]
pub struct FlatLead {
    pub standing: u64,
    pub refusal: u64,
    pub place: usize,
    pub records: usize,
    pub length: usize,
    pub kept: [u8; MOST_KEPT],
}

// The reader after a delivery, how many bytes of it were used, and a record, where given is 1; or the number of a refusal and the
// place of the record to blame.
#[repr(C)]
#[derive(Clone, Copy)]
pub struct FlatTaken {
    pub lead: FlatLead,
    pub refusal: u64,
    pub place: usize,
    pub used: usize,
    pub given: u64,
    pub rec: LogRecord,
}

// The reader after closing, and how many records there were; or the number of a refusal and the place of the record to blame.
#[repr(C)]
#[derive(Clone, Copy)]
pub struct FlatClosed {
    pub lead: FlatLead,
    pub refusal: u64,
    pub place: usize,
    pub records: usize,
}

// Which library this is.
#[tactic(auto, unfolding(crate::specs::Calls::abi_of))]
pub fn abi() -> FlatAbi
    ensures { result ≡ abi_of }
{
    FlatAbi {
        number: ABI,
        rec: RECORD_SIZE,
        event: EVENT_SIZE,
        answer: ANSWER_SIZE,
    }
}

// Writes a board's description from its parts at the start of the buffer; bytes not written stay.
#[tactic(auto, unfolding(crate::specs::Calls::described_of, crate::specs::Calls::description_of))]
pub fn describe(buf: &mut [u8], b: FlatBoard) -> FlatWritten
    ensures value { result ≡ described_of (length buf.old) b }
    ensures buf_after { buf.new ≡ description_of buf.old b }
{
    let put = if records::has_flags(b) {
        board::put_board(buf, Board::from(b))
    } else {
        Err(board::Refusal::ReservedBit)
    };
    answers::written(put.map_err(u64::from))
}

// The record of a board that was just switched on, from its packed description.
#[tactic(auto, unfolding(crate::specs::Calls::fresh_in))]
pub fn fresh(board: &[u8]) -> FlatFresh
    ensures { result ≡ fresh_in board.now }
{
    match board::read_board(board) {
        Ok(b) => FlatFresh {
            refusal: 0,
            rec: FlatRecord::from(Record::fresh(b)),
        },
        Err(x) => FlatFresh {
            refusal: u64::from(x),
            rec: records::zeros(),
        },
    }
}

// The refusal of an event that is none of the four.
#[tactic(auto, unfolding(crate::specs::Calls::no_event), using(rules::proofs::Admitted::goes_on))]
fn no_event(rec: Record, entries: usize, contexts: usize) -> u64
    ensures { result ≡ no_event rec entries contexts }
{
    match rules::admit(rec, entries, contexts) {
        Err(x) => u64::from(x),
        Ok(()) => u64::from(log_record::Refusal::Unknown),
    }
}

// One event. In the two tables only the places of CPUs that resume by entry are written.
#[tactic(auto, unfolding(crate::specs::Calls::step_of, crate::specs::Calls::entries_of, crate::specs::Calls::contexts_of))]
pub fn step(f: FlatRecord, e: FlatEvent, entries: &mut [u64], contexts: &mut [u64]) -> FlatStepped
    ensures value { result ≡ step_of f e (length entries.old) (length contexts.old) }
    ensures entries_after { entries.new ≡ entries_of f e entries.old contexts.old }
    ensures contexts_after { contexts.new ≡ contexts_of f e entries.old contexts.old }
{
    if !records::is_flat(f) {
        return answers::refused(f, u64::from(rules::Refusal::NotWellFormed));
    }
    let rec = Record::from(f);
    match answers::event(e) {
        Some(event) => answers::stepped(f, agent::step(rec, event, entries, contexts)),
        None => answers::refused(f, no_event(rec, entries.len(), contexts.len())),
    }
}

// Writes the log record of an accepted event at the start of the buffer; bytes not written stay.
#[tactic(auto, unfolding(crate::specs::Calls::written_of, crate::specs::Calls::buffer_of))]
pub fn log(buf: &mut [u8], e: FlatEvent, a: FlatAnswer) -> FlatWritten
    ensures value { result ≡ written_of (length buf.old) e a }
    ensures buf_after { buf.new ≡ buffer_of buf.old e a }
{
    answers::written(log_record::put_record(buf, answers::logged(e, a)).map_err(u64::from))
}

// The log record that the bytes open with.
#[tactic(auto, unfolding(crate::specs::Calls::read_in))]
pub fn read_record(log: &[u8]) -> FlatRead
    ensures { result ≡ read_in log.now }
{
    answers::record_read(log_record::read_record(log))
}

// Which component is prepared at a place of a log.
#[tactic(auto, unfolding(crate::specs::Calls::prepared_in))]
pub fn prepared(log: &[u8], place: usize) -> FlatPrepared
    ensures { result ≡ prepared_in log.now place }
{
    answers::prepared(log_book::prepared_at(log, place))
}

// The component whose rendezvous activation starts at a call made at a place of a log.
#[tactic(auto, unfolding(crate::specs::Calls::started_in))]
pub fn starts(board: &[u8], log: &[u8], place: usize, call: Call) -> FlatStarted
    ensures { result ≡ started_in board.now log.now place call }
{
    answers::started(reader::starts_at(board, log, place, call))
}

// The powered CPUs at a place of a log, by the log alone.
#[tactic(auto, unfolding(crate::specs::Calls::powered_in))]
pub fn powered(log: &[u8], place: usize) -> FlatCpus
    ensures { result ≡ powered_in log.now place }
{
    answers::cpus(reader::powered_at(log, place))
}

// The held CPUs at a place of a log, by the log alone.
#[tactic(auto, unfolding(crate::specs::Calls::held_in))]
pub fn held(log: &[u8], place: usize) -> FlatCpus
    ensures { result ≡ held_in log.now place }
{
    answers::cpus(reader::held_at(log, place))
}

// Why an ACTIVATE made at a place of a log gets its answer.
#[tactic(auto, unfolding(crate::specs::Calls::why_in))]
pub fn why(board: &[u8], log: &[u8], place: usize, a: Activate) -> FlatWhy
    ensures { result ≡ why_in board.now log.now place a }
{
    reasons::explained(reason::explain(board, log, place, a))
}

// A reader of deliveries to which nothing has come.
pub fn lead_open() -> FlatLead
    ensures { result ≡ opened_in }
{
    FlatLead::from(Lead::open())
}

// Takes a delivery as far as it gives one record.
#[tactic(auto, unfolding(crate::specs::Leads::taken_in))]
pub fn lead_take(f: FlatLead, delivery: &[u8]) -> FlatTaken
    ensures { result ≡ taken_in f delivery.now }
{
    leads::taken(f, Lead::from(f).take(delivery))
}

// Tells a reader that the log ends here.
#[tactic(auto, unfolding(crate::specs::Leads::closed_in))]
pub fn lead_close(f: FlatLead) -> FlatClosed
    ensures { result ≡ closed_in f }
{
    leads::closed(f, Lead::from(f).close())
}
