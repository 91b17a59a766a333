// The thin door: one event on a record that the host lends. It is stepped by value, and the next record is stored.
#![tactic(auto)]

ghost use Rattle.std.specs.Prelude.{◌≡◌, length};
ghost use Rattle.agent.specs.Step.{step_of, entries_of, contexts_of};
ghost use Rattle.agent.specs.Numbers.{said_of, Answers};

use board_record::Record;
use rules::Event;

pub fn step_in_place(
    rec: &mut Record,
    e: Event,
    entries: &mut [u64],
    contexts: &mut [u64],
) -> Result<agent::Answer, rules::Refusal>
    ensures value { result ≡ (step_of rec.old e (length entries.old) (length contexts.old)).outcome }
    ensures rec_after { rec.new ≡ (step_of rec.old e (length entries.old) (length contexts.old)).rec }
    ensures entries_after { entries.new ≡ entries_of rec.old e entries.old contexts.old }
    ensures contexts_after { contexts.new ≡ contexts_of rec.old e entries.old contexts.old }
    ensures answers { Answers rec.old e (length entries.old) (length contexts.old) (said_of result) }
{
    let s = agent::step(*rec, e, entries, contexts);
    *rec = s.rec;
    s.outcome
}
