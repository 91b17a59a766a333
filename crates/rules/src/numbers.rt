// The function that a caller asks for.
ghost use Rattle.std.specs.Prelude.{◌≡◌};
ghost use Rattle.codes.specs.Numbers.{function_number};
ghost use Rattle.rules.specs.Numbers.{decode_of};

use codes::{ACTIVATE, CANCEL, CPU_OFF, CPU_ON, FEATURES, GET_INFO, GET_INVENTORY, PRIME, VERSION};

// A function that a caller can ask for.
#[derive(Clone, Copy)]
pub enum Function {
    Version,
    Features,
    GetInfo,
    GetInventory,
    Prime,
    Activate,
    Cancel,
    CpuOff,
    CpuOn,
}

// The function that the low 32 bits of X0 name.
#[tactic(auto, unfolding(crate::specs::Numbers::decode_of))]
pub(crate) fn decode(x0: u64) -> Option<Function>
    ensures { result ≡ decode_of (function_number x0) }
{
    match codes::function_number(x0) {
        VERSION => Some(Function::Version),
        FEATURES => Some(Function::Features),
        GET_INFO => Some(Function::GetInfo),
        GET_INVENTORY => Some(Function::GetInventory),
        PRIME => Some(Function::Prime),
        ACTIVATE => Some(Function::Activate),
        CANCEL => Some(Function::Cancel),
        CPU_OFF => Some(Function::CpuOff),
        CPU_ON => Some(Function::CpuOn),
        _ => None,
    }
}
