// A refusal of a call that reads a record first, from each of its two forms. With these, `?` hands it on.
ghost use Rattle.std.specs.Prelude.{◌≡◌};
ghost use Rattle.sfdu.specs.declared.RecordRefusal.TheVariants.{Fault as FaultRefusal, Alone};

use crate::{Fault, RecordRefusal};
use refusals::Refusal;

impl From<Fault> for RecordRefusal {
    ghost from_gives = { λ fault refusal. refusal ≡ FaultRefusal fault };

    fn from(fault: Fault) -> RecordRefusal {
        RecordRefusal::Fault(fault)
    }
}

impl From<Refusal> for RecordRefusal {
    ghost from_gives = { λ why refusal. refusal ≡ Alone why };

    fn from(why: Refusal) -> RecordRefusal {
        RecordRefusal::Alone(why)
    }
}
