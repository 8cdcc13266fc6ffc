// Numbers of document 01: literals with scales, and the readers of expressions and terms.
ghost use Rattle.std.specs.Prelude.{◌≡◌, ◌-◌, ◌*◌, ◌≤◌, length, get_or, drop};
ghost use Rattle.rules.specs.Numbers.{joint_of, start_of, evaluate as evaluateOf};
ghost use Rattle.rules.specs.Results.{judged};
ghost use Rattle.number.specs.Expression.Reading.{joint_in, GoodJoint, digits_of, read_of, Forward, literal_term};
ghost use Rattle.measure.specs.Pitches.{Sized};
ghost use Rattle.number.specs.Expression.Meaning.{TermIs, ExpressionIs};

use measure::{Pitch, Scale};
use rules::{Operator, Refusal};

// A value with the place after it, or a refusal.
type Read = Result<(i32, usize), Refusal>;

// The byte at a place, 0 past the end. No byte 0 means anything in a number.
pub fn byte_at(s: &[u8], at: usize) -> u8
    ensures value { result ≡ get_or s.now at 0 }
    ensures upper_bound { result ≤ 255 * (length s.now - at) }
{
    s.get(at).copied().unwrap_or(0)
}

// The operator at a place, with its width in bytes. Two-byte ones are tried first.
fn operator_at(s: &[u8], at: usize) -> Option<(Operator, usize)>
    requires { at ≤ length s.now }
    ensures result_value { joint_in s.now at result ≡ joint_of (drop at s.now) }
    ensures good_joint { GoodJoint (length s.now) at result }
{
    let b = byte_at(s, at);
    let equal = byte_at(s, at + 1) == b'=';
    match b {
        b'+' => Some((Operator::Add, 1)),
        b'-' => Some((Operator::Subtract, 1)),
        b'*' => Some((Operator::Multiply, 1)),
        b'/' => Some((Operator::Divide, 1)),
        b'%' => Some((Operator::Remainder, 1)),
        b'&' => Some((Operator::And, 1)),
        b':' => Some((Operator::Or, 1)),
        b'<' if equal => Some((Operator::AtMost, 2)),
        b'<' => Some((Operator::Less, 1)),
        b'>' if equal => Some((Operator::AtLeast, 2)),
        b'>' => Some((Operator::Greater, 1)),
        b'=' if equal => Some((Operator::Equal, 2)),
        b'=' => Some((Operator::Equal, 1)),
        _ => None,
    }
}

// The number that the digits from a place on spell, with the place after them; refused past 1,000,000,000.
fn digits_at(s: &[u8], at: usize) -> Result<(u64, usize), Refusal>
    requires { at ≤ length s.now }
    ensures { result ≡ digits_of s.now at }
{
    let mut n: u64 = 0;
    for i in at..s.len() {
        let b = s[i];
        if !b.is_ascii_digit() {
            return Ok((n, i));
        }
        n = n * 10 + u64::from(b - b'0');
        if 1000000000 < n {
            return Err(Refusal::BadNumber);
        }
    }
    Ok((n, s.len()))
}

// A literal: digits, and the scale that a letter behind them names or else the default one.
fn literal(s: &[u8], at: usize, default: Scale, pitch: Pitch) -> Read
    requires { (at ≤ length s.now) × Sized pitch }
    ensures result_value { read_of s.now result ≡ literal_term pitch default (start_of (drop at s.now)) }
    ensures forward { Forward (length s.now) at result }
{
    let (n, next) = digits_at(s, at)?;
    if next == at {
        return Err(Refusal::BadNumber);
    }
    let (scale, end) = match measure::scale_of(byte_at(s, next)) {
        Some(scale) => (scale, next + 1),
        None => (default, next),
    };
    let units = measure::units_of_literal(n as u32, scale, pitch);
    let value = super::arithmetic::judge(units as i64)?;
    Ok((value, end))
}

// Terms joined by operators, from a place on, left to right. `left` parentheses may still be opened.
// No `for`: what comes next is where a term ends.
#[cycle(expression_term)]
fn expression(s: &[u8], at: usize, left: u8, default: Scale, pitch: Pitch) -> Read
    requires { (at ≤ length s.now) × Sized pitch }
    ensures { ExpressionIs pitch default s.now at left result }
{
    let (mut v, mut i) = term(s, at, left, default, pitch)?;
    while let Some((op, width)) = operator_at(s, i) {
        let (x, after) = term(s, i + width, left, default, pitch)?;
        v = super::arithmetic::operate(op, v, x)?;
        i = after;
    }
    Ok((v, i))
}

// A literal, a parenthesised expression, or one sign and a term.
#[cycle(expression_term)]
fn term(s: &[u8], at: usize, left: u8, default: Scale, pitch: Pitch) -> Read
    requires { (at ≤ length s.now) × Sized pitch }
    ensures { TermIs pitch default s.now at left result }
{
    match byte_at(s, at) {
        b'(' if left == 0 => Err(Refusal::BadNumber),
        b'(' => {
            let (v, next) = expression(s, at + 1, left - 1, default, pitch)?;
            if byte_at(s, next) != b')' {
                return Err(Refusal::BadNumber);
            }
            Ok((v, next + 1))
        }
        b'-' => {
            let (v, next) = term(s, at + 1, left, default, pitch)?;
            Ok((-v, next))
        }
        b'+' => term(s, at + 1, left, default, pitch),
        _ => literal(s, at, default, pitch),
    }
}

// The value of a whole argument: nothing may follow its expression.
#[tactic(auto, using(crate::proofs::expression::Arguments::more))]
pub fn evaluate(s: &[u8], default: Scale, pitch: Pitch) -> Result<i32, Refusal>
    requires { Sized pitch }
    ensures { judged result ≡ evaluateOf pitch default s.now }
{
    let (v, next) = expression(s, 0, 8, default, pitch)?;
    if next < s.len() {
        return Err(Refusal::BadNumber);
    }
    Ok(v)
}
