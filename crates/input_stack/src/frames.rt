// What a frame of the input stack holds, as four words.
ghost use Rattle.std.specs.Prelude.{◌≡◌, ◌+◌, ◌-◌, ◌*◌, ◌<◌};
ghost use Rattle.input_stack.specs.Frames.Words.{setting_number, request_number, request_by, name_word, name_in, period_of, frame_words, item_words, what_in, what_of};

use rules::{Breaking, LineSetting, Name};

// What an item of the input stack is, beside its bytes.
#[derive(Clone, Copy, Debug, PartialEq, Eq)]
pub enum What {
    // a text called by its name: the name, the place up to which it is read, how many arguments it was called with
    Reading(Name, u16, u8),
    // an expanded line of text
    Text,
    // an expanded control line, called with a period or not; its bytes are what follows the name
    Control(bool, Name),
    // an expanded line that is ignored
    Ignored,
    // the other words of a text line, and the gap that its ending asks for
    Others(u8),
    // a request after its break; its bytes are the arguments
    Acts(Breaking),
    // a bp that ejects this page
    Ejects(u32),
}

// The words of a frame that say what it is: its kind with a small number, and two for a name, a place or a page.
#[derive(Clone, Copy, Debug, PartialEq, Eq)]
pub struct Words {
    pub first: u16,
    pub second: u16,
    pub third: u16,
}

// The number by which a request that sets the layout is held. A number for a kind stays here: the record for C holds words.
fn setting_number(request: LineSetting) -> u8
    ensures { result ≡ setting_number request }
{
    match request {
        LineSetting::Fi => 3,
        LineSetting::Nf => 4,
        LineSetting::Ce => 5,
        LineSetting::In => 6,
        LineSetting::Ti => 7,
    }
}

// The number by which a request is held.
fn number_of(request: Breaking) -> u8
    ensures { result ≡ request_number request }
{
    match request {
        Breaking::Br => 0,
        Breaking::Sp => 1,
        Breaking::Bp => 2,
        Breaking::Sets(setting) => setting_number(setting),
    }
}

// The request of a number; a number that is none of theirs counts as the last.
fn request_of(number: u8) -> Breaking
    ensures { result ≡ request_by number }
{
    match number {
        0 => Breaking::Br,
        1 => Breaking::Sp,
        2 => Breaking::Bp,
        3 => Breaking::Sets(LineSetting::Fi),
        4 => Breaking::Sets(LineSetting::Nf),
        5 => Breaking::Sets(LineSetting::Ce),
        6 => Breaking::Sets(LineSetting::In),
        _ => Breaking::Sets(LineSetting::Ti),
    }
}

fn name_word(name: Name) -> u16
    ensures { result ≡ name_word name }
{
    u16::from_be_bytes([name.first, name.second])
}

fn name_in(word: u16) -> Name
    ensures { result ≡ name_in word }
{
    let [first, second] = word.to_be_bytes();
    Name { first, second }
}

// A kind and a small number in one word.
fn first_word(kind: u16, small: u8) -> u16
    requires { kind < 256 }
    ensures { result ≡ kind + 256 * small }
{
    kind + 256 * u16::from(small)
}

// The kind of a control line, with 1 for a period.
fn period_word(period: bool) -> u16
    ensures { result ≡ period_of period }
{
    first_word(2, u8::from(period))
}

// The words of an item that has no name, place or page.
fn alone(first: u16) -> Words
    ensures { result ≡ frame_words first 0 0 }
{
    Words {
        first,
        second: 0,
        third: 0,
    }
}

// The words of an item. From for it and for its way back would be no plainer: their contracts name both sides, and the two names stay.
pub fn words_of(what: What) -> Words
    ensures { (result ≡ item_words what) × (what_in result ≡ what) }
{
    match what {
        What::Reading(name, place, count) => Words {
            first: first_word(0, count),
            second: name_word(name),
            third: place,
        },
        What::Text => alone(1),
        What::Control(period, name) => Words {
            first: period_word(period),
            second: name_word(name),
            third: 0,
        },
        What::Ignored => alone(3),
        What::Others(gap) => alone(first_word(4, gap)),
        What::Acts(request) => alone(first_word(5, number_of(request))),
        What::Ejects(page) => Words {
            first: 6,
            second: (page % 65536) as u16,
            third: (page / 65536) as u16,
        },
    }
}

// The item of three words; a kind that is none of theirs is an ignored line.
#[tactic(auto, unfolding(crate::specs::Frames::Words::what_of))]
pub fn what_of(first: u16, second: u16, third: u16) -> What
    ensures { result ≡ what_of first second third }
{
    let kind = first % 256;
    let small = (first / 256) as u8;
    match kind {
        0 => What::Reading(name_in(second), third, small),
        1 => What::Text,
        2 => What::Control(small != 0, name_in(second)),
        4 => What::Others(small),
        5 => What::Acts(request_of(small)),
        6 => What::Ejects(u32::from(second) + 65536 * u32::from(third)),
        _ => What::Ignored,
    }
}
