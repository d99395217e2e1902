// The numbers of the kinds in calls and answers.
ghost use Rattle.std.specs.Prelude.{◌≡◌};
ghost use Rattle.sfdu.specs.Nesting.{kind_number};
ghost use Rattle.sfdu.specs.inner.Numbered.{IsNumbered};

use crate::Kind;

// A number that no kind has.
#[derive(Clone, Copy)]
pub struct UnknownKind(pub u32);

impl From<Kind> for u32 {
    ghost from_gives = { λ kind n. n ≡ kind_number kind };

    // By hand, since no derive makes a `From` of an enum's number.
    fn from(kind: Kind) -> u32 {
        kind as u32
    }
}

impl TryFrom<u32> for Kind {
    type Error = UnknownKind;

    ghost try_from_gives = { IsNumbered };

    fn try_from(number: u32) -> Result<Kind, UnknownKind> {
        if number == u32::from(Kind::Telemetry) {
            return Ok(Kind::Telemetry);
        }
        if number == u32::from(Kind::Rsr) {
            return Ok(Kind::Rsr);
        }
        Err(UnknownKind(number))
    }
}
