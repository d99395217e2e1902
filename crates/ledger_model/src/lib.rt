// The model of the ledger is in specs/. Code has only the arithmetic of positions.

#![tactic(auto)]

ghost use Rattle.std.specs.Prelude.{◌≡◌};
ghost use Rattle.ledger_model.specs.Positions as Positions;

const ROW_LENGTH: u32 = 1024;

// The position of number n in a row of the stream `key` whose first number is `first`. A number is in the row if its position is below 1,024.
pub fn position(key: u64, first: u32, n: u32) -> u32
    ensures { result ≡ Positions.position key first n }
{
    let difference = std::num::wrapping_sub_u32(n, first);
    if key < keys::RSR_START {
        return difference;
    }
    if n < keys::RSR_NUMBERS {
        return difference % keys::RSR_NUMBERS;
    }
    ROW_LENGTH
}

// The number at a position of that row.
pub fn number_at(key: u64, first: u32, position: u32) -> u32
    ensures { result ≡ Positions.position_number key first position }
{
    let number = std::num::wrapping_add_u32(first, position);
    if key < keys::RSR_START {
        return number;
    }
    number % keys::RSR_NUMBERS
}
