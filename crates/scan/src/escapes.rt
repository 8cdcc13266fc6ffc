#![tactic(auto, using(crate::proofs::output::Places::unread, crate::proofs::output::Places::nothing), unfolding(crate::specs::Escapes::Readings::escape_of, rules::specs::Escapes::action_of, rules::specs::Bytes::first_where))]

// An escape is read: what it leads to, and the place after it.
ghost use Rattle.std.specs.Prelude.{◌-◌, ◌≤◌, length};
ghost use Rattle.rules.specs.declared.Mode.TheVariants.{Plain, Copy};
ghost use Rattle.rules.specs.Escapes.{number, a_string, slash, numbering, naming, argument};
ghost use Rattle.scan.specs.Escapes.Readings.{lone, ReadingIs, ReadingIn, NamingIs};

use rules::{FIXED_BLANK, MARK, Mode, Name, Turn};

// What an escape leads to: a byte is written, or a backslash and a byte; a register is shown, a string is read, an
// argument is given, counted from 0; the line ends; or the escape is not listed, or cut short. That one is no error yet:
// its bytes are counted first, and may be too many. A name stands first in both variants that have one: with one
// place for its two bytes, what was read stays in registers.
#[derive(Clone, Copy)]
pub enum EscapeAction {
    Writes(u8),
    Keeps(u8),
    Number(Name, Turn),
    Text(Name),
    Gives(usize),
    Ends,
    Bad,
}

// What was read, and the place after it.
#[derive(Clone, Copy)]
pub struct Reading {
    pub end: usize,
    pub what: EscapeAction,
}

// The name of a register or a string, if the text does not end in it, and the place after what was read.
#[derive(Clone, Copy)]
struct Naming {
    end: usize,
    name: Option<Name>,
}

// A name of one byte, or after a parenthesis one of two.
fn name_at(text: &[u8], at: usize) -> Naming
    requires { at ≤ length text.now }
    ensures { NamingIs text.now at result }
{
    if text.len() <= at {
        return Naming {
            end: at,
            name: None,
        };
    }
    let first = text[at];
    if first != b'(' {
        return Naming {
            end: at + 1,
            name: Some(Name { first, second: 0 }),
        };
    }
    if text.len() - at < 3 {
        return Naming {
            end: text.len(),
            name: None,
        };
    }
    Naming {
        end: at + 3,
        name: Some(Name {
            first: text[at + 1],
            second: text[at + 2],
        }),
    }
}

// The name of a register that steps so. Apart from string_at: the two make different actions of a name, and one function
// for both would need an enum of them.
fn number_at(text: &[u8], at: usize, turn: Turn) -> Reading
    requires { at ≤ length text.now }
    ensures { ReadingIn (naming (number turn)) text.now at result }
{
    let naming = name_at(text, at);
    Reading {
        end: naming.end,
        what: match naming.name {
            Some(name) => EscapeAction::Number(name, turn),
            None => EscapeAction::Bad,
        },
    }
}

// The name of a string.
fn string_at(text: &[u8], at: usize) -> Reading
    requires { at ≤ length text.now }
    ensures { ReadingIn (naming a_string) text.now at result }
{
    let naming = name_at(text, at);
    Reading {
        end: naming.end,
        what: match naming.name {
            Some(name) => EscapeAction::Text(name),
            None => EscapeAction::Bad,
        },
    }
}

// "\nx \n(xx .. with + or - before the name to step first": what follows the n.
fn register_at(text: &[u8], at: usize) -> Reading
    requires { at ≤ length text.now }
    ensures { ReadingIn numbering text.now at result }
{
    if text.len() <= at {
        return Reading {
            end: at,
            what: EscapeAction::Bad,
        };
    }
    let sign = text[at];
    if sign == b'+' {
        return number_at(text, at + 1, Turn::Up);
    }
    if sign == b'-' {
        return number_at(text, at + 1, Turn::Down);
    }
    number_at(text, at, Turn::Still)
}

// "\$1 to \$9": what follows the $.
fn argument_at(text: &[u8], at: usize) -> Reading
    requires { at ≤ length text.now }
    ensures { ReadingIn argument text.now at result }
{
    if text.len() <= at {
        return Reading {
            end: at,
            what: EscapeAction::Bad,
        };
    }
    match text[at] {
        digit @ b'1'..=b'9' => Reading {
            end: at + 1,
            what: EscapeAction::Gives(usize::from(digit - b'1')),
        },
        _ => Reading {
            end: at + 1,
            what: EscapeAction::Bad,
        },
    }
}

// What follows a backslash outside copy mode: "\\ and \e print a backslash, \- a minus, \& a mark .., backslash-space a
// fixed blank", and those that act.
fn plain_at(text: &[u8], at: usize) -> Reading
    requires { at ≤ length text.now }
    ensures { ReadingIs Plain slash (lone Plain) text.now at result }
{
    if text.len() <= at {
        return Reading {
            end: at,
            what: EscapeAction::Bad,
        };
    }
    let next = at + 1;
    match text[at] {
        b'\\' | b'e' => Reading {
            end: next,
            what: EscapeAction::Writes(92),
        },
        b'-' => Reading {
            end: next,
            what: EscapeAction::Writes(45),
        },
        b'&' => Reading {
            end: next,
            what: EscapeAction::Writes(MARK),
        },
        b' ' => Reading {
            end: next,
            what: EscapeAction::Writes(FIXED_BLANK),
        },
        b'"' => Reading {
            end: next,
            what: EscapeAction::Ends,
        },
        b'n' => register_at(text, next),
        b'*' => string_at(text, next),
        b'$' => argument_at(text, next),
        _ => Reading {
            end: next,
            what: EscapeAction::Bad,
        },
    }
}

// What follows a backslash in copy mode: "\\ becomes \, \. becomes a period, \n \* \$ \" act; any other, and a lone
// backslash at the end too, stays".
fn copy_at(text: &[u8], at: usize) -> Reading
    requires { at ≤ length text.now }
    ensures { ReadingIs Copy slash (lone Copy) text.now at result }
{
    if text.len() <= at {
        return Reading {
            end: at,
            what: EscapeAction::Writes(92),
        };
    }
    let next = at + 1;
    let other = text[at];
    match other {
        b'\\' => Reading {
            end: next,
            what: EscapeAction::Writes(92),
        },
        b'.' => Reading {
            end: next,
            what: EscapeAction::Writes(46),
        },
        b'"' => Reading {
            end: next,
            what: EscapeAction::Ends,
        },
        b'n' => register_at(text, next),
        b'*' => string_at(text, next),
        b'$' => argument_at(text, next),
        _ => Reading {
            end: next,
            what: EscapeAction::Keeps(other),
        },
    }
}

// The escape whose backslash stands before a place.
pub fn escape_at(text: &[u8], at: usize, mode: Mode) -> Reading
    requires { at ≤ length text.now }
    ensures { ReadingIs mode slash (lone mode) text.now at result }
{
    match mode {
        Mode::Plain => plain_at(text, at),
        Mode::Copy => copy_at(text, at),
    }
}
