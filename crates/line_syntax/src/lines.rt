// What control lines are built from: what a line is, its name and its arguments, and what the name stands for.
ghost use Rattle.std.specs.Prelude.{◌≡◌, [], ◌<◌, ◌≤◌, length, get_or};
ghost use Rattle.rules.specs.Names.{name_of};
ghost use Rattle.rules.specs.Results.{judged};
ghost use Rattle.rules.specs.Requests.{traits, starts_page, mode_of};
ghost use Rattle.texts.specs.Table.Lent.{texts_at};
ghost use Rattle.scan.specs.Arguments.Around.{Arguments, arguments_of};
ghost use Rattle.line_syntax.specs.Lines.Lines.{name_judged, LineIs, ControlIs};
ghost use Rattle.line_syntax.specs.Lines.Places.{StringAt, ConditionAt};
ghost use Rattle.line_syntax.specs.Lines.Meanings.{MeaningIs, PrefixIs};
ghost use Rattle.line_syntax.specs.Lines.Backs.{RoomForTwo, Behind, PairBehind, WrittenBack};

use rules::arrays::ArgumentEnds;
use rules::{Breaking, FIXED_BLANK, Kind, MARK, Mode, Name, Refusal, Request};
use texts::columns::TextsRef;

// What a line is: text; a control line with a period or not, its name, and the place where its name ends; or ignored.
#[derive(Clone, Copy, Debug, PartialEq, Eq)]
pub enum Line {
    Text,
    Control(bool, Name, usize),
    Ignored,
}

// A condition is the bytes from a place up to another; what follows its spaces begins at `rest`.
#[derive(Clone, Copy, Debug, PartialEq, Eq)]
pub struct ConditionPart {
    pub from: usize,
    pub to: usize,
    pub rest: usize,
}

// What a control line's name stands for: a text of some kind, or a request.
#[derive(Clone, Copy, Debug, PartialEq, Eq)]
pub enum Meaning {
    Calls(Kind),
    Requests(Request),
}

// The name that an argument is, if it is there: "a name argument longer than two bytes" is refused.
pub fn name_of(bytes: &[u8]) -> Result<Option<Name>, Refusal>
    ensures { judged result ≡ name_judged (name_of bytes.now) }
{
    match bytes {
        [] => Ok(None),
        [first] => Ok(Some(Name {
            first: *first,
            second: 0,
        })),
        [first, second] => Ok(Some(Name {
            first: *first,
            second: *second,
        })),
        _ => Err(Refusal::OutOfRange),
    }
}

// "Its name is the raw bytes directly after that one up to a space"
fn control_of(line: &[u8], period: bool) -> Line
    requires { 0 < length line.now }
    ensures { ControlIs line.now period result }
{
    let end = scan::arguments::word_end(line, 1);
    match name_of(&line[1..end]) {
        Ok(Some(name)) => Line::Control(period, name, end),
        Ok(None) | Err(_) => Line::Ignored,
    }
}

// "A line whose first raw byte is . or ' is a control line"
#[tactic(auto, unfolding(rules::specs::Lines::line_of))]
pub fn line_of(line: &[u8]) -> Line
    ensures { LineIs line.now result }
{
    match line {
        [b'.', ..] => control_of(line, true),
        [b'\'', ..] => control_of(line, false),
        _ => Line::Text,
    }
}

// An argument, counted from 0; a missing one is empty.
pub fn argument<'a>(bytes: &'a [u8], ends: &ArgumentEnds, count: usize, k: usize) -> &'a [u8]
    requires { Arguments bytes.now ends.now count }
    ensures { result.now ≡ get_or (arguments_of bytes.now ends.now count) k [] }
{
    if count <= k {
        return &[];
    }
    let begin = if k == 0 { 0 } else { usize::from(ends[k - 1]) };
    &bytes[begin..usize::from(ends[k])]
}

// Where the text of a ds begins: "In ds one leading \" is dropped", after the spaces behind the name.
pub fn string_at(line: &[u8], at: usize) -> usize
    requires { at ≤ length line.now }
    ensures { StringAt line.now at result }
{
    let i = scan::arguments::skip_spaces(line, at);
    if i < line.len() && line[i] == b'"' {
        return i + 1;
    }
    i
}

// "The condition of an if ends at a space"; "What follows its spaces" is the rest.
#[tactic(auto, unfolding(rules::specs::Arguments::condition))]
pub fn condition_at(line: &[u8], at: usize) -> ConditionPart
    requires { at ≤ length line.now }
    ensures { ConditionAt line.now at result }
{
    let from = scan::arguments::skip_spaces(line, at);
    let to = scan::arguments::word_end(line, from);
    let rest = scan::arguments::skip_spaces(line, to);
    ConditionPart { from, to, rest }
}

// What a name stands for: "User names hide requests".
pub fn meaning_of(texts: &TextsRef, name: Name) -> Option<Meaning>
    ensures { MeaningIs (texts_at texts.now) name result }
{
    match texts::table::look_up(texts, name) {
        Some(spot) => Some(Meaning::Calls(spot.kind)),
        None => super::request_names::request_of(name).map(Meaning::Requests),
    }
}

// The bytes of control byte and name, which count in the expanded line.
pub fn prefix_of(name: Name) -> usize
    ensures { PrefixIs name result }
{
    if name.second == 0 { 2 } else { 3 }
}

// A backslash and a byte.
fn put_pair(byte: u8, out: &mut [u8; 1024], at: usize) -> usize
    requires { RoomForTwo out.old at }
    ensures { PairBehind byte out.old at result out.new }
{
    out[at] = b'\\';
    let second = at + 1;
    out[second] = byte;
    second + 1
}

// One byte as it is written back.
#[tactic(auto, unfolding(rules::specs::Escapes::escaped, rules::specs::Bytes::first_where))]
fn put_back(byte: u8, out: &mut [u8; 1024], at: usize) -> usize
    requires { RoomForTwo out.old at }
    ensures { Behind byte out.old at result out.new }
{
    match byte {
        b'\\' => put_pair(b'e', &mut *out, at),
        MARK => put_pair(b'&', &mut *out, at),
        FIXED_BLANK => put_pair(b' ', &mut *out, at),
        _ => {
            out[at] = byte;
            at + 1
        }
    }
}

// "ds after an if, write backslash, mark and fixed blank as \e, \& and backslash-space"
pub fn write_back(bytes: &[u8], out: &mut [u8; 1024]) -> usize
    requires { (length bytes.now ≤ 512) × (length out.old ≡ 1024) }
    ensures { WrittenBack bytes.now result out.new }
{
    let mut n: usize = 0;
    for byte in bytes {
        n = put_back(*byte, &mut *out, n);
    }
    n
}

// "ds lines, are in copy mode"
pub fn mode_of(request: Request) -> Mode
    ensures { result ≡ mode_of request }
{
    match request {
        Request::Ds => Mode::Copy,
        _ => Mode::Plain,
    }
}

// "The first page starts at the first text line, break, sp or bp": a break is a breaking request called with a period.
pub fn starts_page(period: bool, request: Breaking) -> bool
    ensures { result ≡ starts_page period request }
{
    period || matches!(request, Breaking::Sp | Breaking::Bp)
}

// Whether it has something left to do after its break: all but br.
pub fn acts_after(request: Breaking) -> bool
    ensures { result ≡ (traits request).acts }
{
    request != Breaking::Br
}

// Whether its line is dealt with after the top macro, where it starts the first page: "A bp that starts the first page does no more".
pub fn held_first(request: Breaking) -> bool
    ensures { result ≡ (traits request).again }
{
    request != Breaking::Bp
}
