// Whole arguments in units, cells and rows.
ghost use Rattle.std.specs.Prelude.{◌≡◌, ◌-◌};
ghost use Rattle.rules.specs.Numbers.{cells as cells_in, rows as rowsIn, units as unitsIn, signed as signed_of};
ghost use Rattle.rules.specs.Results.{judged, judged_by};
ghost use Rattle.measure.specs.Pitches.{Sized};

use measure::{Cells, Pitch, Rows, Scale};
use rules::Refusal;

// The argument of nr, ce or if.
pub fn units(s: &[u8], pitch: Pitch) -> Result<i32, Refusal>
    requires { Sized pitch }
    ensures { judged result ≡ unitsIn pitch s.now }
{
    super::expression::evaluate(s, Scale::Unit, pitch)
}

// The argument of ll, in, ti or po, rounded to cells.
pub fn cells(s: &[u8], pitch: Pitch) -> Result<Cells, Refusal>
    requires { Sized pitch }
    ensures { judged_by (λ c. c.0) result ≡ cells_in pitch s.now }
{
    let v = super::expression::evaluate(s, Scale::Em, pitch)?;
    Ok(measure::cells_of(v, pitch))
}

// The argument of sp, pl or wh, rounded to rows. Not one function with `cells`: it would take the scale, the rounding and the type.
pub fn rows(s: &[u8], pitch: Pitch) -> Result<Rows, Refusal>
    requires { Sized pitch }
    ensures { judged_by (λ r. r.0) result ≡ rowsIn pitch s.now }
{
    let v = super::expression::evaluate(s, Scale::LineSpace, pitch)?;
    Ok(measure::rows_of(v, pitch))
}

// Whether a sign leads, which marks a change to the old value.
pub fn signed(s: &[u8]) -> bool
    ensures { result ≡ signed_of s.now }
{
    matches!(super::expression::byte_at(s, 0), b'+' | b'-')
}
