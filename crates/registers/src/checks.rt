// Whether lent columns are a table of registers.
ghost use Rattle.std.specs.Prelude.{◌≡◌, ◌<◌, ◌-◌};
ghost use Rattle.registers.specs.Checks.Checks.{NameColumns, NumberColumns, is_register_table, in_bounds, is_bounded};

use rules::Name;
use rules::arrays::{ByteColumn, NumberColumn, TABLE_SIZE};
use std::cmp::Ordering;

// Whether the first rows of lent columns are a table: "The registers stand in name order".
pub fn is_table(firsts: &ByteColumn, seconds: &ByteColumn, count: usize) -> bool
    requires { NameColumns firsts.now seconds.now }
    ensures { result ≡ is_register_table firsts.now seconds.now count }
{
    if TABLE_SIZE < count {
        return false;
    }
    for next in 1..count {
        let name = Name {
            first: firsts[next - 1],
            second: seconds[next - 1],
        };
        if super::table::order_at(firsts, seconds, next, name) != Ordering::Less {
            return false;
        }
    }
    true
}

fn is_within(n: i32) -> bool
    ensures { result ≡ in_bounds n }
{
    (-1000000000..=1000000000).contains(&n)
}

// Whether the first rows of lent columns hold values and steps within ±1,000,000,000. All are looked at, so that many are at once.
pub fn is_bounded(values: &NumberColumn, steps: &NumberColumn, count: usize) -> bool
    requires { NumberColumns values.now steps.now }
    ensures { result ≡ is_bounded values.now steps.now count }
{
    if TABLE_SIZE < count {
        return false;
    }
    let mut within = true;
    for i in 0..count {
        within &= is_within(values[i]) & is_within(steps[i]);
    }
    within
}
