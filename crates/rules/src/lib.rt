// The rules: what each event calls for, by the board's record. Nothing is changed here.
#![tactic(auto)]

mod calls;
mod cells;
mod numbers;
mod reports;

ghost use Rattle.std.specs.Prelude.{◌≡◌, []};
ghost use Rattle.rules.specs.Statuses.{minus_of, number_of};
ghost use Rattle.basics.specs.First.{first_of};
ghost use Rattle.rules.specs.Decide.{admission_of, event_of, decide_of};
ghost use Rattle.rules.specs.Moves.{refusal_of, admission_rows, numbers_of, Decided};

use board_record::Record;
use codes::Call;

// The end of a job: of which component, and how it went.
#[repr(C)]
#[derive(Clone, Copy)]
pub struct Report {
    pub component: u64,
    pub code: u64,
}

// An image that arrived: of which component, and its security version.
#[repr(C)]
#[derive(Clone, Copy)]
pub struct Image {
    pub component: u64,
    pub version: u32,
}

// What can happen to a board.
#[derive(Clone, Copy)]
pub enum Event {
    Call(Call),
    Prime(Report),
    Activate(Report),
    Image(Image),
}

// Why an event is refused.
#[derive(Clone, Copy)]
pub enum Refusal {
    NotWellFormed,
    TableShort,
    NoSuchCpu,
    CpuOff,
    CpuHeld,
    NoSuchJob,
    CodeNotAllowed,
    NotCapable,
    StateComponent,
}

// What a caller goes on with.
#[repr(C)]
#[derive(Clone, Copy)]
pub struct Registers {
    pub x0: u64,
    pub x1: u64,
    pub x2: u64,
    pub x3: u64,
}

// A caller that becomes held: for which component, and where it may be resumed; both 0 where it can't be.
#[derive(Clone, Copy)]
pub struct Arrival {
    pub component: u64,
    pub cpu: u64,
    pub entry: u64,
    pub context: u64,
}

// A CPU that is switched on, and where it starts.
#[derive(Clone, Copy)]
pub struct Waking {
    pub target: u64,
    pub entry: u64,
    pub context: u64,
}

// The kinds of thing that can happen, each with what it takes to do it.
#[derive(Clone, Copy)]
pub enum Move {
    Refuse(Refusal),
    Return(Registers),
    NoteInfo,
    StartPrime(Arrival),
    Gather(Arrival),
    StartTogether(Arrival),
    StartAlone(Arrival),
    ToIdle,
    Withdraw(u64),
    PowerOff(u64),
    PowerOn(Waking),
    EndPrime(Report),
    EndWithdrawn,
    EndActivate(Report),
    NoteImage(Image),
}

// The number of a refusal.
impl From<Refusal> for u64 {
    ghost from_gives = { λ r n. n ≡ number_of r };

    fn from(r: Refusal) -> u64 {
        match r {
            Refusal::NotWellFormed => 9,
            Refusal::TableShort => 1,
            Refusal::NoSuchCpu => 2,
            Refusal::CpuOff => 3,
            Refusal::CpuHeld => 4,
            Refusal::NoSuchJob => 5,
            Refusal::CodeNotAllowed => 6,
            Refusal::NotCapable => 7,
            Refusal::StateComponent => 8,
        }
    }
}

// A status -k, given without its sign, as a register holds it; 0 is 0.
#[tactic(auto, unfolding(crate::specs::Statuses::minus_of))]
pub fn minus(k: u64) -> u64
    ensures { result ≡ minus_of k }
{
    k.wrapping_neg()
}

// What every event is asked first, whatever it is: a well-formed record, and two resume tables of so many places.
#[tactic(auto, using(crate::proofs::Admitted::admissions), unfolding(crate::specs::Decide::admission_of))]
pub fn admit(rec: Record, entry_places: usize, context_places: usize) -> Result<(), Refusal>
    ensures value { result ≡ admission_of rec entry_places context_places }
    ensures numbers { refusal_of result ≡ first_of (admission_rows rec entry_places context_places []) }
{
    if !rec.is_well_formed() {
        return Err(Refusal::NotWellFormed);
    }
    let cpus = rec.board.cpus;
    if (entry_places as u64) < cpus || (context_places as u64) < cpus {
        return Err(Refusal::TableShort);
    }
    Ok(())
}

// What an admitted event calls for.
fn by_event(rec: Record, e: Event) -> Move
    ensures { result ≡ event_of rec e }
{
    match e {
        Event::Call(call) => calls::call(rec, call),
        Event::Prime(report) => reports::prime(rec, report),
        Event::Activate(report) => reports::activate(rec, report),
        Event::Image(image) => reports::image(rec, image),
    }
}

// What an event calls for, where the two resume tables have so many places.
pub fn decide(rec: Record, e: Event, entry_places: usize, context_places: usize) -> Move
    ensures value { result ≡ decide_of rec e entry_places context_places }
    ensures decided { Decided rec e entry_places context_places (numbers_of result) }
{
    match admit(rec, entry_places, context_places) {
        Err(x) => Move::Refuse(x),
        Ok(()) => by_event(rec, e),
    }
}
