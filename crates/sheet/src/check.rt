// Whether a sheet can be drawn for the figures that a call was given.
ghost use Rattle.std.specs.Prelude.{◌≡◌};
ghost use Rattle.sheet.specs.Verdict.{position_in_range, positions_verdict, sheet_verdict};

use charging::{ENERGY_LIMIT_KWH, INTERNAL_PRICE_LIMIT, Position, Prices};
use pricing::PRICE_LIMIT;
use refusal::{Concern, Layer, Reason, Refusal};
use sharing::MOST_MEMBERS;

// Whether a member's schedule and reading are within the limit.
fn in_range(position: Position) -> bool
    ensures { result ≡ position_in_range position }
{
    position.schedule_kwh <= ENERGY_LIMIT_KWH && position.reading_kwh <= ENERGY_LIMIT_KWH
}

// Refuses the lowest member whose schedule or reading is out of range.
fn check_positions(positions: &[Position]) -> Result<(), Refusal>
    ensures { result ≡ positions_verdict positions.now }
{
    for (member, position) in positions.iter().enumerate() {
        if !in_range(*position) {
            return Err(Concern::of_member(member).refused(Reason::FigureOutOfRange, Layer::Run));
        }
    }
    Ok(())
}

// Whether a sheet of so many lines can be drawn.
pub fn check(prices: Prices, positions: &[Position], room: usize) -> Result<(), Refusal>
    ensures { result ≡ sheet_verdict prices.internal prices.outside positions.now room }
{
    if positions.len() > MOST_MEMBERS || room != positions.len() {
        return Err(Refusal::naming_nobody(Reason::WrongLength, Layer::Run));
    }
    if prices.internal.unsigned_abs() > INTERNAL_PRICE_LIMIT {
        return Err(Refusal::naming_nobody(Reason::OutsideLimits, Layer::Run));
    }
    if prices.outside.unsigned_abs() > PRICE_LIMIT {
        return Err(Refusal::naming_nobody(Reason::FigureOutOfRange, Layer::Run));
    }
    check_positions(positions)
}
