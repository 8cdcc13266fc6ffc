// The lengths that requests set, each within its range.
ghost use Rattle.std.specs.Prelude.{◌≡◌};
ghost use Rattle.measure.specs.Pitches.{Sized};
ghost use Rattle.measure.specs.Counts.{across_of, down_of};
ghost use Rattle.rules.specs.Numbers.{signed};
ghost use Rattle.rules.specs.Results.{judged, judged_by};
ghost use Rattle.rules.specs.Settings.{in_range, page_range, changed as changed_of};
ghost use Rattle.settings.specs.Lengths.Views.{setting_of, range_of, setting_in, page_length_in, total_in};

use measure::{Cells, Pitch, Rows};
use rules::Refusal;

// A setting, and the value before the last setting.
#[derive(Clone, Copy, Debug, PartialEq, Eq)]
pub struct Setting {
    pub now: Cells,
    pub former: Cells,
}

// The lengths that are set in cells, each with the value before the last setting: ll, in and po.
#[derive(Clone, Copy, Debug, PartialEq, Eq)]
pub enum Length {
    Line,
    Indent,
    Offset,
}

// "7: value out of range"
fn count_within(value: i64, low: u16, high: u16) -> Result<u16, Refusal>
    ensures { judged result ≡ in_range low high value }
{
    if !(i64::from(low)..=i64::from(high)).contains(&value) {
        return Err(Refusal::OutOfRange);
    }
    Ok(value as u16)
}

// "a leading sign marks a change to the old value by the whole expression"
fn changed(argument: &[u8], old: u32, value: i32) -> i64
    ensures { result ≡ changed_of (signed argument.now) old value }
{
    if number::scales::signed(argument) {
        return i64::from(old) + i64::from(value);
    }
    i64::from(value)
}

// ll, in and po with an argument or without.
fn set(old: Setting, argument: &[u8], pitch: Pitch, low: u16, high: u16) -> Result<Setting, Refusal>
    requires { Sized pitch }
    ensures { judged_by setting_of result ≡ setting_in pitch (in_range low high) (setting_of old) argument.now }
{
    if argument.is_empty() {
        return Ok(Setting {
            now: old.former,
            former: old.now,
        });
    }
    let cells = number::scales::cells(argument, pitch)?;
    let value = changed(argument, measure::across(old.now), cells.0);
    let count = count_within(value, low, high)?;
    Ok(Setting {
        now: measure::cells_across(count),
        former: old.now,
    })
}

// One of the three lengths: "ll 1 to 240 cells, in .. 0 to 239, po 0 to 120".
pub fn set_length(
    which: Length,
    old: Setting,
    argument: &[u8],
    pitch: Pitch,
) -> Result<Setting, Refusal>
    requires { Sized pitch }
    ensures { judged_by setting_of result ≡ setting_in pitch (range_of which) (setting_of old) argument.now }
{
    match which {
        Length::Line => set(old, argument, pitch, 1, 240),
        Length::Indent => set(old, argument, pitch, 0, 239),
        Length::Offset => set(old, argument, pitch, 0, 120),
    }
}

// "pl 1 to 500 rows and above the rows already used on the page"
fn count_above(value: i64, used: u32) -> Result<u16, Refusal>
    ensures { judged result ≡ page_range used value }
{
    // before the range is tested: a row more may not fit a u16
    if 500 <= used {
        return Err(Refusal::OutOfRange);
    }
    count_within(value, (used + 1) as u16, 500)
}

// A page length, above the rows used.
pub fn page_count(value: i64, used: Rows) -> Result<u16, Refusal>
    ensures { judged result ≡ page_range (down_of used) value }
{
    count_above(value, measure::down(used))
}

// pl, with an argument.
pub fn page_length(used: Rows, old: Rows, argument: &[u8], pitch: Pitch) -> Result<Rows, Refusal>
    requires { Sized pitch }
    ensures { judged_by down_of result ≡ page_length_in pitch (down_of used) (down_of old) argument.now }
{
    let rows = number::scales::rows(argument, pitch)?;
    let value = changed(argument, measure::down(old), rows.0);
    let count = page_count(value, used)?;
    Ok(measure::rows_down(count))
}

// ti, with an argument: "for ti the old value is the indent at that moment, an unsigned ti is the total itself"
pub fn indent_total(argument: &[u8], indent: Cells, pitch: Pitch) -> Result<Cells, Refusal>
    requires { Sized pitch }
    ensures { judged_by across_of result ≡ total_in pitch (across_of indent) argument.now }
{
    let cells = number::scales::cells(argument, pitch)?;
    let value = changed(argument, measure::across(indent), cells.0);
    let count = count_within(value, 0, 239)?;
    Ok(measure::cells_across(count))
}
