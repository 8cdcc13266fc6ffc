// The number registers: looked up, set and stepped.
ghost use Rattle.std.specs.Prelude.{◌≡◌, ◌<◌, ◌≤◌, ◌-◌, length, MatchResult};
ghost use Rattle.rules.specs.Numbers.{within as withinBounds};
ghost use Rattle.rules.specs.Registers.{register_of};
ghost use Rattle.rules.specs.Results.{judged};
ghost use Rattle.registers.specs.Table.Columns.{Names, names_of};
ghost use Rattle.registers.specs.Table.Lent.{registers_at};
ghost use Rattle.registers.specs.Table.Places.{order_of, order_at, register_place};
ghost use Rattle.registers.specs.Table.Moves.{inserted};
ghost use Rattle.registers.specs.Table.Answers.{turned_of, SetTo, StepTo};

use super::columns::{RegisterValues, Registers, RegistersRef};
use rules::arrays::{ByteColumn, TABLE_SIZE};
use rules::{Name, Refusal, Register, Turn};
use std::cmp::Ordering;

// How a name stands to the one in a row. The second byte is looked at only where the first is the same, and the first by
// two tests: a search runs this for each row, and a chain by `then_with` takes twice as long there.
pub fn order_at(firsts: &ByteColumn, seconds: &ByteColumn, i: usize, name: Name) -> Ordering
    requires { i < 64 }
    ensures { order_of result ≡ order_at firsts.now seconds.now i name }
{
    let first = firsts[i];
    if name.first < first {
        return Ordering::Less;
    }
    if first < name.first {
        return Ordering::Greater;
    }
    name.second.cmp(&seconds[i])
}

// The place of a name, or else the place where it belongs.
pub fn find(
    firsts: &ByteColumn,
    seconds: &ByteColumn,
    count: usize,
    name: Name,
) -> Result<usize, usize>
    requires { Names firsts.now seconds.now count }
    ensures place { result ≡ register_place name (names_of firsts.now seconds.now count) }
    ensures row { MatchResult result (λ i. i < count) (λ i. i ≤ count) }
{
    for i in 0..count {
        match order_at(firsts, seconds, i, name) {
            Ordering::Less => return Err(i),
            Ordering::Equal => return Ok(i),
            Ordering::Greater => {}
        }
    }
    Err(count)
}

// The register of a name.
pub fn look_up(registers: &RegistersRef, name: Name) -> Option<Register>
    ensures { result ≡ register_of name (registers_at registers.now) }
{
    let values = registers.values;
    let steps = registers.steps;
    match find(registers.firsts, registers.seconds, registers.count, name) {
        Ok(i) => Some(Register {
            name,
            value: values[i],
            step: steps[i],
        }),
        Err(_) => None,
    }
}

// Puts something new at a place of a column of `count`, and the rest from there on one place down.
fn insert<T: Copy>(column: &mut [T], place: usize, count: usize, new: T)
    requires { (place ≤ count) × (count < length column.old) }
    ensures { column.new ≡ inserted column.old place (count - place) new }
{
    column.copy_within(place..count, place + 1);
    column[place] = new;
}

// Sets the value and the step of a register, and makes it if there is none of its name.
pub fn set(registers: &mut Registers, name: Name, value: i32, step: i32) -> Result<(), Refusal>
    ensures { SetTo registers.old registers.new name value step result }
{
    let count = registers.count;
    match find(&*registers.firsts, &*registers.seconds, count, name) {
        Ok(i) => {
            registers.values[i] = value;
            registers.steps[i] = step;
            Ok(())
        }
        Err(i) => {
            if TABLE_SIZE <= count {
                return Err(Refusal::FullTable);
            }
            let firsts = &mut *registers.firsts;
            insert(firsts, i, count, name.first);
            let seconds = &mut *registers.seconds;
            insert(seconds, i, count, name.second);
            let values = &mut *registers.values;
            insert(values, i, count, value);
            let steps = &mut *registers.steps;
            insert(steps, i, count, step);
            registers.count = count + 1;
            Ok(())
        }
    }
}

// "6: .. step .. outside ±1,000,000,000"
fn within(number: i64) -> Result<i32, Refusal>
    ensures { judged result ≡ withinBounds number }
{
    if 1000000000 < number.unsigned_abs() {
        return Err(Refusal::BadNumber);
    }
    Ok(number as i32)
}

// The value to which a register of a value and a step turns.
fn turned(turn: Turn, value: i32, step: i32) -> Result<i32, Refusal>
    ensures { judged result ≡ turned_of turn value step }
{
    match turn {
        Turn::Still => Ok(value),
        Turn::Up => within(i64::from(value) + i64::from(step)),
        Turn::Down => within(i64::from(value) - i64::from(step)),
    }
}

// The value of a user's register after its step; one that is not there gives 0 and is not made.
pub fn step(registers: &mut RegisterValues, turn: Turn, name: Name) -> Result<i32, Refusal>
    ensures { StepTo registers.old registers.new turn name result }
{
    let found = find(registers.firsts, registers.seconds, registers.count, name);
    let Ok(i) = found else {
        return Ok(0);
    };
    let new = turned(turn, registers.values[i], registers.steps[i])?;
    registers.values[i] = new;
    Ok(new)
}
