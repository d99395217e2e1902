// How long a list must be so that it is never full. A caller asks this before it lends one.
ghost use Rattle.std.specs.Prelude.{◌≡◌};
ghost use Rattle.sfdu_stream.specs.Room.{most_records};

use sfdu::{Kind, nesting};

// The most whole records that a stream of this many bytes can hold, if all of them are of this kind. The number for telemetry holds for every stream.
pub fn most_records(kind: Kind, bytes: usize) -> usize
    ensures { result ≡ most_records kind bytes }
{
    bytes / nesting::data_value_at(kind)
}
