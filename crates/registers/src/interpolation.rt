// A register's value where a line refers to it, predefined ones too.
ghost use Rattle.std.specs.Prelude.{◌≡◌, ◌-◌};
ghost use Rattle.rules.specs.Registers.{shown};
ghost use Rattle.registers.specs.Interpolation.ReadOnly.{shows, read_only_of, seen_of, ReferTo};

use super::columns::RegisterValues;
use rules::{Name, Refusal, Turn};

// The read-only registers: % nl .l .i .p
#[derive(Clone, Copy, Debug, PartialEq, Eq)]
pub enum ReadOnly {
    Page,
    Rows,
    Length,
    Indent,
    PageLength,
}

// What the read-only registers show, each as it is printed.
#[derive(Clone, Copy, Debug, PartialEq, Eq)]
pub struct Shown {
    pub page: i32,
    pub rows: i32,
    pub length: i32,
    pub indent: i32,
    pub page_length: i32,
}

// Which of the read-only registers a name is, if it is one.
#[tactic(auto, using(crate::proofs::interpolation::ReadOnlyLaws::not_shown), unfolding(rules::specs::Registers::shown, rules::specs::Bytes::first_where))]
pub fn predefined(name: Name) -> Option<ReadOnly>
    ensures { read_only_of result ≡ shown name }
{
    match (name.first, name.second) {
        (b'%', 0) => Some(ReadOnly::Page),
        (b'n', b'l') => Some(ReadOnly::Rows),
        (b'.', b'l') => Some(ReadOnly::Length),
        (b'.', b'i') => Some(ReadOnly::Indent),
        (b'.', b'p') => Some(ReadOnly::PageLength),
        _ => None,
    }
}

// The value of a read-only register.
fn read(register: ReadOnly, shown: Shown) -> i32
    ensures { result ≡ shows register (seen_of shown) }
{
    match register {
        ReadOnly::Page => shown.page,
        ReadOnly::Rows => shown.rows,
        ReadOnly::Length => shown.length,
        ReadOnly::Indent => shown.indent,
        ReadOnly::PageLength => shown.page_length,
    }
}

// A reference to any register, by the values that the read-only ones show.
pub fn refer(
    registers: &mut RegisterValues,
    shown: Shown,
    turn: Turn,
    name: Name,
) -> Result<i32, Refusal>
    ensures { ReferTo registers.old registers.new shown turn name result }
{
    let Some(register) = predefined(name) else {
        return super::table::step(registers, turn, name);
    };
    match turn {
        Turn::Still => Ok(read(register, shown)),
        Turn::Up | Turn::Down => Err(Refusal::OutOfRange),
    }
}
