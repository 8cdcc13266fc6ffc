// One step of arithmetic on two numbers.
ghost use Rattle.std.specs.Prelude.{◌≡◌, ◌-◌, ◌*◌};
ghost use Rattle.rules.specs.Numbers.{within, truth as truth_of, operate as operateOf};
ghost use Rattle.rules.specs.Results.{judged};

use rules::{Operator, Refusal};

// "6: number malformed, literal, step or result outside ±1,000,000,000, zero divisor, parentheses past 8 deep": a result.
pub fn judge(v: i64) -> Result<i32, Refusal>
    ensures { judged result ≡ within v }
{
    if !(-1000000000..=1000000000).contains(&v) {
        return Err(Refusal::BadNumber);
    }
    Ok(v as i32)
}

// Comparisons and logic give 1 or 0.
fn truth(t: bool) -> Result<i32, Refusal>
    ensures { judged result ≡ truth_of t }
{
    Ok(i32::from(t))
}

// One operation. What two i32 give fits an i64, so that it can be judged.
pub fn operate(op: Operator, a: i32, b: i32) -> Result<i32, Refusal>
    ensures { judged result ≡ operateOf op a b }
{
    let x = i64::from(a);
    let y = i64::from(b);
    match op {
        Operator::Add => judge(x + y),
        Operator::Subtract => judge(x - y),
        Operator::Multiply => judge(x * y),
        Operator::Divide if y == 0 => Err(Refusal::BadNumber),
        Operator::Divide => judge(x / y),
        Operator::Remainder if y == 0 => Err(Refusal::BadNumber),
        Operator::Remainder => judge(x % y),
        Operator::Less => truth(x < y),
        Operator::Greater => truth(y < x),
        Operator::AtMost => truth(x <= y),
        Operator::AtLeast => truth(y <= x),
        Operator::Equal => truth(x == y),
        Operator::And => truth(0 < x && 0 < y),
        Operator::Or => truth(0 < x || 0 < y),
    }
}
