// The next line of a text that is read, and the end of a text.
ghost use Rattle.std.specs.Prelude.{◌≡◌, ◌+◌, ◌≤◌, ◌<◌, length, take, drop};
ghost use Rattle.rules.specs.declared.Kind.TheVariants.{Macro};
ghost use Rattle.texts.specs.Table.Places.{SpotInside};
ghost use Rattle.formatter.specs.StoredLines.Works.{performed_of, UnreadLineIs, StringIs, FoundIs, leaves};

use page::springs::Way;
use rules::{Kind, Refusal};
use state::{Status, WorkOutcome, stay};
use texts::lines::{StorePart, Top};
use texts::table::Spot;

// What a piece of work leads to, and how many stored lines have been read for this source line.
#[derive(Clone, Copy)]
pub struct Performed {
    pub way: Way,
    pub written: usize,
    pub status: Status,
    pub stored: u16,
}

pub fn counted(step: WorkOutcome, stored: u16) -> Performed
    ensures { result ≡ performed_of step stored }
{
    Performed {
        way: step.way,
        written: step.written,
        status: step.status,
        stored,
    }
}

// The next line of a macro from a place on, and the place behind it; or nothing is left.
fn macro_line(store: &[u8], at: usize, size: usize, place: u16) -> Option<(Top, u16)>
    requires { (at + size ≤ length store.now) × (length store.now ≡ 8192) }
    ensures { UnreadLineIs result store.now Macro (take size (drop at store.now)) place }
{
    let from = usize::from(place);
    if size <= from {
        return None;
    }
    let start = at + from;
    let end = at + size;
    let length = texts::lines::line_end(&store[start..end]);
    let next = from + length + 1;
    let rest = StorePart { at: start, end };
    Some((Top::Lines(rest), next as u16))
}

// "A string called as a macro is one line"
fn string_line(at: usize, size: usize, place: u16) -> Option<(Top, u16)>
    requires { at + size ≤ 8192 }
    ensures { StringIs result at size place }
{
    if place == 0 {
        let all = StorePart { at, end: at + size };
        return Some((Top::Whole(all), 1));
    }
    None
}

// The next line of a text that was looked up, from a place on.
pub fn unread_line(store: &[u8], found: Option<Spot>, place: u16) -> Option<(Top, u16)>
    requires { SpotInside store.now found × (length store.now ≡ 8192) }
    ensures { FoundIs result store.now found place }
{
    let spot = found?;
    match spot.kind {
        Kind::Macro => macro_line(store, spot.at, spot.length, place),
        Kind::String => string_line(spot.at, spot.length, place),
    }
}

// "A finished text leaves the stack when the next line is asked for"; "8: a macro definition not ended when its input ends"
pub fn leave(status: Status) -> WorkOutcome
    ensures { result ≡ leaves status }
{
    if status.opening.there {
        return stay(Way::Refused(Refusal::OpenMacro.number()), status);
    }
    stay(Way::On, status)
}
