// The conditions of if.
ghost use Rattle.std.specs.Prelude.{◌≡◌};
ghost use Rattle.measure.specs.Pitches.{Sized};
ghost use Rattle.settings.specs.Lengths.Views.{printer};
ghost use Rattle.rules.specs.Results.{judged};
ghost use Rattle.rules.specs.Lines.{expression, simply_holds, holds as holds_of};

use measure::Pitch;
use rules::Refusal;

// "or an expression"; "true is above 0"
fn expression_holds(condition: &[u8], pitch: Pitch) -> Result<bool, Refusal>
    requires { Sized pitch }
    ensures { judged result ≡ expression (printer pitch 0) 0 condition.now }
{
    Ok(0 < number::scales::units(condition, pitch)?)
}

// A condition without !: "o (odd page), e (even page), t (never), n (always) or an expression"
#[tactic(auto, unfolding(rules::specs::Bytes::first_where))]
fn simply_holds(condition: &[u8], page: u32, pitch: Pitch) -> Result<bool, Refusal>
    requires { Sized pitch }
    ensures { judged result ≡ simply_holds (printer pitch 0) page condition.now }
{
    match condition {
        [] => Err(Refusal::BadNumber),
        b"o" => Ok(page % 2 == 1),
        b"e" => Ok(page % 2 == 0),
        b"t" => Ok(false),
        b"n" => Ok(true),
        _ => expression_holds(condition, pitch),
    }
}

// The condition of an if: "! negates"
#[tactic(auto, unfolding(rules::specs::Lines::holds))]
pub fn holds(condition: &[u8], page: u32, pitch: Pitch) -> Result<bool, Refusal>
    requires { Sized pitch }
    ensures { judged result ≡ holds_of (printer pitch 0) page condition.now }
{
    if let [b'!', others @ ..] = condition {
        return Ok(!simply_holds(others, page, pitch)?);
    }
    simply_holds(condition, page, pitch)
}
