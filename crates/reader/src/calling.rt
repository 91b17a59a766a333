// What has to hold of the call for a start.
ghost use Rattle.std.specs.Prelude.{◌≡◌, not, ◌&&◌};
ghost use Rattle.reader.specs.Starts.{is_activate, accepted_from, fields_valid, others_gathered, starts_for};

use crate::{Story, telling};
use board::Board;
use codes::{ACTIVATE, Call};

#[tactic(auto, unfolding(crate::specs::Starts::is_activate))]
fn is_activate(call: Call) -> bool
    ensures { result ≡ is_activate call }
{
    codes::function_number(call.x0) == ACTIVATE
}

// The CPU exists, is powered and is not held.
#[tactic(auto, unfolding(crate::specs::Starts::accepted_from))]
fn accepted_from(b: Board, s: Story, cpu: u64) -> bool
    ensures { result ≡ accepted_from b s cpu }
{
    cpu < b.cpus && s.powered.has(cpu) && !telling::every_held(s.held).has(cpu)
}

// X1 to X3 are those of an ACTIVATE for component c, without skip.
#[tactic(auto, unfolding(crate::specs::Starts::fields_valid))]
fn fields_valid(b: Board, call: Call, c: u64) -> bool
    ensures { result ≡ fields_valid b call c }
{
    c < b.components && call.x1 == c && call.x2 == 0 && b.is_entry_right(c, call.x3)
}

// Nobody skipped the rendezvous, and all other powered CPUs came in that time: none is beyond the sets.
#[tactic(auto, unfolding(crate::specs::Starts::others_gathered))]
fn all_gathered(s: Story, cpu: u64) -> bool
    ensures { result ≡ (not s.alone && others_gathered s cpu) }
{
    let others = s.powered.without(cpu);
    !s.alone && !s.beyond && others.within(telling::every_held(s.gathered))
}

// All that demand 3 asks for but that component c is prepared.
#[tactic(auto, unfolding(crate::specs::Starts::starts_for))]
pub(crate) fn starts_for(b: Board, s: Story, call: Call, c: u64) -> bool
    ensures { result ≡ starts_for b s call c }
{
    is_activate(call)
        && accepted_from(b, s, call.cpu)
        && fields_valid(b, call, c)
        && all_gathered(s, call.cpu)
}
