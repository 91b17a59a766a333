// A reader of deliveries as numbers, and back, and what its functions answer.
ghost use Rattle.std.specs.Prelude.{◌≡◌};
ghost use Rattle.log_book.specs.Log.{flaw};
ghost use Rattle.deliveries.specs.Lead.{number_of, place_of};
ghost use Rattle.deliveries.specs.declared.Standing.TheVariants.{Refused};
ghost use Rattle.flat.specs.Leads.{flat_lead, refusal_in, nobodys, standing_in, lead_in, lead_after, taken_by, closed_by};

use crate::answers::told;
use crate::{FlatClosed, FlatLead, FlatTaken};
use deliveries::{Closing, Lead, Refusal, Standing, Taken};
use log_book::Flaw;

// The standings' numbers cross to C (enum lfa_standing, host/lfa.h).
const OPEN: u64 = 0;

const CLOSED: u64 = 1;

const REFUSED: u64 = 2;

impl From<Lead> for FlatLead {
    ghost from_gives = { λ l f. f ≡ flat_lead l };

    #[tactic(auto, unfolding(crate::specs::Leads::flat_lead))]
    fn from(l: Lead) -> FlatLead {
        let (standing, refusal, place) = match l.standing {
            Standing::Open => (OPEN, 0, 0),
            Standing::Closed => (CLOSED, 0, 0),
            Standing::Refused(f) => (REFUSED, u64::from(f.refusal), f.place),
        };
        // named first: put in straight it has no proof
        let kept = l.kept;
        FlatLead {
            standing,
            refusal,
            place,
            records: l.records,
            length: l.length,
            kept,
        }
    }
}

// The refusal of this number, as C has it (enum lfa_refusal, host/lfa.h); of another, a writer's, at which no reader stands: no
// `TryFrom`, which would refuse it.
fn refusal(number: u64) -> log_record::Refusal
    ensures { result ≡ refusal_in number }
{
    match number {
        30 => log_record::Refusal::TooShort,
        31 => log_record::Refusal::UnusedBit,
        32 => log_record::Refusal::Unknown,
        33 => log_record::Refusal::OutsideLimits,
        _ => log_record::Refusal::NoRoom,
    }
}

fn refused_at(x: log_record::Refusal, place: usize) -> Standing
    ensures { result ≡ Refused (flaw x place) }
{
    Standing::Refused(Flaw { refusal: x, place })
}

// A standing that no reader has.
fn nobodys() -> Standing
    ensures { result ≡ nobodys }
{
    refused_at(log_record::Refusal::NoRoom, 0)
}

// The standing of these numbers; of others, nobody's: no `From`, as it takes three.
#[tactic(auto, unfolding(crate::specs::Leads::standing_in))]
fn standing(number: u64, x: u64, place: usize) -> Standing
    ensures { result ≡ standing_in number x place }
{
    match (number, x, place) {
        (REFUSED, _, _) => refused_at(refusal(x), place),
        (OPEN, 0, 0) => Standing::Open,
        (CLOSED, 0, 0) => Standing::Closed,
        _ => nobodys(),
    }
}

impl From<FlatLead> for Lead {
    ghost from_gives = { λ f l. l ≡ lead_in f };

    #[tactic(auto, unfolding(crate::specs::Leads::lead_in))]
    fn from(f: FlatLead) -> Lead {
        // named first: put in straight it has no proof
        let kept = f.kept;
        Lead {
            standing: standing(f.standing, f.refusal, f.place),
            records: f.records,
            length: f.length,
            kept,
        }
    }
}

// The reader after a call; one that no reader is stays as it was given.
fn after<T>(r: &Result<T, Refusal>, f: FlatLead, l: Lead) -> FlatLead
    ensures { result ≡ lead_after r.now f l }
{
    match r {
        Err(Refusal::NoReader) => f,
        _ => FlatLead::from(l),
    }
}

// The number and the place of a refusal.
fn blame(x: Refusal) -> (u64, usize)
    ensures { result ≡ (number_of x, place_of x) }
{
    (u64::from(x), x.place())
}

#[tactic(auto, unfolding(crate::specs::Leads::taken_by))]
pub(crate) fn taken(f: FlatLead, t: Taken) -> FlatTaken
    ensures { result ≡ taken_by f t }
{
    let (refusal, place, given) = told(t.given.map_err(blame), None);
    FlatTaken {
        lead: after(&t.given, f, t.lead),
        refusal,
        place,
        used: t.used,
        given: u64::from(given.is_some()),
        rec: given.unwrap_or_else(log_book::blank),
    }
}

#[tactic(auto, unfolding(crate::specs::Leads::closed_by))]
pub(crate) fn closed(f: FlatLead, c: Closing) -> FlatClosed
    ensures { result ≡ closed_by f c }
{
    let (refusal, place, records) = told(c.ending.map_err(blame), 0);
    FlatClosed {
        lead: after(&c.ending, f, c.lead),
        refusal,
        place,
        records,
    }
}
