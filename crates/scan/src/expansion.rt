// The expansion of a line: its escapes, its strings and its registers.
ghost use Rattle.std.specs.Prelude.{◌≡◌, [], ◌-◌, ◌≤◌, length, get_or};
ghost use Rattle.rules.specs.declared.Mode.TheVariants.{Plain, Copy};
ghost use Rattle.rules.specs.Escapes.{argument};
ghost use Rattle.scan.specs.Escapes.Readings.{action_in};
ghost use Rattle.scan.specs.Output.Writes.{Room, WroteTo, CopiedTo};
ghost use Rattle.scan.specs.Arguments.Around.{Arguments, ArgumentBegins, begin_of, arguments_of, given_at, around};
ghost use Rattle.scan.specs.Expansion.Acts.{ShownTo, EnteredTo, ActsTo};
ghost use Rattle.scan.specs.Expansion.Expansion.{NextIs, CarriedOut, ExpandsTo, ScannedTo};

use super::escapes::EscapeAction;
use super::output::Copied;
use registers::columns::RegisterValues;
use registers::interpolation::Shown;
use rules::arrays::{ArgumentEnds, LINE_SIZE, LineBytes};
use rules::{Kind, Mode, Name, Refusal, Turn};
use texts::columns::TextsRef;

// The bytes up to a backslash or the end of the text.
fn copy_plain(
    text: &[u8],
    at: usize,
    left: usize,
    out: &mut LineBytes,
    written: usize,
    limit: usize,
) -> Result<Copied, Refusal>
    requires { (at ≤ length text.now) × Room out.old written limit }
    ensures { CopiedTo result text.now at left written limit out.old out.new }
{
    let mut i = at;
    let mut rest = left;
    let mut n = written;
    // no `for`: the compiler makes one count of a range and of what moves with it, and takes that apart at each escape
    while let Some(byte) = text.get(i) {
        if *byte == b'\\' {
            return Ok(Copied {
                at: i,
                left: rest,
                written: n,
            });
        }
        if rest == 0 {
            return Err(Refusal::DeepString);
        }
        if limit <= n {
            return Err(Refusal::LongLine);
        }
        out[n] = *byte;
        i += 1;
        rest -= 1;
        n += 1;
    }
    Ok(Copied {
        at: i,
        left: rest,
        written: n,
    })
}

// The text is over, with so many bytes that may still be scanned and so many written; or an escape, with the place after
// it and the same numbers.
#[derive(Clone, Copy)]
enum NextEscape {
    Over(usize, usize),
    Escape(usize, usize, usize, EscapeAction),
}

// The bytes up to the next escape are copied, and the escape is read.
fn next_escape(
    text: &[u8],
    at: usize,
    left: usize,
    mode: Mode,
    out: &mut LineBytes,
    written: usize,
    limit: usize,
) -> Result<NextEscape, Refusal>
    requires { (at ≤ length text.now) × Room out.old written limit }
    ensures { NextIs result mode text.now at left written limit out.old out.new }
{
    let copied = copy_plain(text, at, left, &mut *out, written, limit)?;
    if text.len() <= copied.at {
        return Ok(NextEscape::Over(copied.left, copied.written));
    }
    let reading = super::escapes::escape_at(text, copied.at + 1, mode);
    let length = reading.end - copied.at;
    if copied.left < length {
        return Err(Refusal::DeepString);
    }
    Ok(NextEscape::Escape(
        reading.end,
        copied.left - length,
        copied.written,
        reading.what,
    ))
}

// What an action came to: so many bytes are written; a string is to be read; or the line ends.
#[derive(Clone, Copy)]
enum Acted {
    Wrote(usize),
    Enters(Name),
    Ends,
}

// A reference to a register, written in decimal.
fn show_register(
    registers: &mut RegisterValues,
    shown: Shown,
    turn: Turn,
    name: Name,
    out: &mut LineBytes,
    written: usize,
    limit: usize,
) -> Result<Acted, Refusal>
    requires { Room out.old written limit }
    ensures { ShownTo result shown registers.old registers.new turn name out.old written limit out.new }
{
    let value = registers::interpolation::refer(&mut *registers, shown, turn, name)?;
    let n = super::output::write_number(value, &mut *out, written, limit)?;
    Ok(Acted::Wrote(n))
}

// "4: strings nested past 8".
const DEPTH_LIMIT: usize = 8;

// A string that is named: its bytes are to be read next. "9: .. a macro named as a string".
fn enter_string(
    texts: &TextsRef,
    name: Name,
    depth: usize,
    written: usize,
) -> Result<Acted, Refusal>
    ensures { EnteredTo result texts.now name depth written }
{
    let found = texts::table::look_up(texts, name);
    let Some(spot) = found else {
        return Ok(Acted::Wrote(written));
    };
    match spot.kind {
        Kind::Macro => Err(Refusal::TextInUse),
        Kind::String if DEPTH_LIMIT <= depth => Err(Refusal::DeepString),
        Kind::String => Ok(Acted::Enters(name)),
    }
}

// Where an argument begins.
fn begin_of(ends: &ArgumentEnds, k: usize) -> usize
    requires { ArgumentBegins ends.now k }
    ensures { result ≡ begin_of ends.now k }
{
    if k == 0 {
        return 0;
    }
    usize::from(ends[k - 1])
}

// An argument, counted from 0, is written, in copy mode with its escapes; there are none inside a string.
fn give_argument(
    arguments: &[u8],
    ends: &ArgumentEnds,
    count: usize,
    k: usize,
    mode: Mode,
    depth: usize,
    out: &mut LineBytes,
    written: usize,
    limit: usize,
) -> Result<usize, Refusal>
    requires { Arguments arguments.now ends.now count × Room out.old written limit }
    ensures { WroteTo result (given_at mode depth (get_or (arguments_of arguments.now ends.now count) k [])) out.old written limit out.new }
{
    if 0 < depth || count <= k {
        return Ok(written);
    }
    let begin = begin_of(ends, k);
    let argument = &arguments[begin..usize::from(ends[k])];
    match mode {
        Mode::Plain => super::output::copy_bytes(argument, &mut *out, written, limit),
        Mode::Copy => super::output::write_back(argument, &mut *out, written, limit),
    }
}

// What an escape leads to is done.
fn act(
    texts: &TextsRef,
    registers: &mut RegisterValues,
    shown: Shown,
    arguments: &[u8],
    ends: &ArgumentEnds,
    given: usize,
    mode: Mode,
    depth: usize,
    what: EscapeAction,
    out: &mut LineBytes,
    written: usize,
    limit: usize,
) -> Result<Acted, Refusal>
    requires { Arguments arguments.now ends.now given × Room out.old written limit }
    ensures { ActsTo result (around shown texts.now arguments.now ends.now given) mode out.old written limit depth (action_in what) registers.old registers.new out.new }
{
    match what {
        EscapeAction::Writes(byte) => {
            let n = super::output::put_byte(byte, &mut *out, written, limit)?;
            Ok(Acted::Wrote(n))
        }
        EscapeAction::Keeps(byte) => {
            let n = super::output::put_kept(byte, &mut *out, written, limit)?;
            Ok(Acted::Wrote(n))
        }
        EscapeAction::Number(name, turn) => show_register(
            &mut *registers,
            shown,
            turn,
            name,
            &mut *out,
            written,
            limit,
        ),
        EscapeAction::Text(name) => enter_string(texts, name, depth, written),
        EscapeAction::Gives(k) => {
            let n = give_argument(
                arguments, ends, given, k, mode, depth, &mut *out, written, limit,
            )?;
            Ok(Acted::Wrote(n))
        }
        EscapeAction::Ends => Ok(Acted::Ends),
        EscapeAction::Bad => Err(Refusal::BadEscape),
    }
}

// How far a text was expanded: it is over, with so many bytes that may still be scanned and so many written; or the line
// ended, with so many written.
#[derive(Clone, Copy)]
enum Progress {
    Over(usize, usize),
    Ended(usize),
}

// An escape, in a text within so many others, is carried out: its action is done, and the bytes of the string that it
// enters are read where they lie in the store.
#[cycle(carry_out_expand_text)]
fn carry_out(
    what: EscapeAction,
    depth: usize,
    left: usize,
    texts: &TextsRef,
    registers: &mut RegisterValues,
    shown: Shown,
    arguments: &[u8],
    ends: &ArgumentEnds,
    given: usize,
    mode: Mode,
    out: &mut LineBytes,
    written: usize,
    limit: usize,
) -> Result<Progress, Refusal>
    requires { Arguments arguments.now ends.now given × Room out.old written limit × (depth ≤ 8) }
    ensures { CarriedOut result (around shown texts.now arguments.now ends.now given) mode (action_in what) depth left out.old written limit registers.old registers.new out.new }
{
    match act(
        texts,
        &mut *registers,
        shown,
        arguments,
        ends,
        given,
        mode,
        depth,
        what,
        &mut *out,
        written,
        limit,
    )? {
        Acted::Wrote(n) => Ok(Progress::Over(left, n)),
        Acted::Enters(name) => {
            let string = texts::table::text_bytes(texts, name);
            expand_text(
                string,
                depth + 1,
                left,
                texts,
                &mut *registers,
                shown,
                arguments,
                ends,
                given,
                mode,
                &mut *out,
                written,
                limit,
            )
        }
        Acted::Ends => Ok(Progress::Ended(written)),
    }
}

// A text, within so many others, is expanded behind the bytes written.
#[cycle(carry_out_expand_text)]
fn expand_text(
    text: &[u8],
    depth: usize,
    left: usize,
    texts: &TextsRef,
    registers: &mut RegisterValues,
    shown: Shown,
    arguments: &[u8],
    ends: &ArgumentEnds,
    given: usize,
    mode: Mode,
    out: &mut LineBytes,
    written: usize,
    limit: usize,
) -> Result<Progress, Refusal>
    requires { Arguments arguments.now ends.now given × Room out.old written limit × (depth ≤ 8) }
    ensures { ExpandsTo result (around shown texts.now arguments.now ends.now given) mode text.now depth left out.old written limit registers.old registers.new out.new }
{
    let mut i: usize = 0;
    let mut rest = left;
    let mut n = written;
    // no `for`: the place, what may be scanned and what is written move by what an escape gave
    loop {
        // no `?`: one match says what the escape is and that there was none
        match next_escape(text, i, rest, mode, &mut *out, n, limit) {
            Err(refusal) => return Err(refusal),
            Ok(NextEscape::Over(over, filled)) => return Ok(Progress::Over(over, filled)),
            Ok(NextEscape::Escape(end, after, filled, what)) => {
                match carry_out(
                    what,
                    depth,
                    after,
                    texts,
                    &mut *registers,
                    shown,
                    arguments,
                    ends,
                    given,
                    mode,
                    &mut *out,
                    filled,
                    limit,
                )? {
                    Progress::Over(over, next) => {
                        i = end;
                        rest = over;
                        n = next;
                    }
                    Progress::Ended(next) => return Ok(Progress::Ended(next)),
                }
            }
        }
    }
}

// "4: .. past 8,192 bytes scanned for one line".
const SCAN_LIMIT: usize = 8192;

// The expansion of a line, of which `prefix` bytes that stand before it are already counted: so many bytes, in the buffer.
pub fn expand(
    line: &[u8],
    mode: Mode,
    prefix: usize,
    texts: &TextsRef,
    registers: &mut RegisterValues,
    shown: Shown,
    arguments: &[u8],
    ends: &ArgumentEnds,
    given: usize,
    out: &mut LineBytes,
) -> Result<usize, Refusal>
    requires { Arguments arguments.now ends.now given × Room out.old 0 512 }
    ensures { ScannedTo result (around shown texts.now arguments.now ends.now given) mode prefix line.now registers.old registers.new out.old out.new }
{
    let limit = LINE_SIZE.saturating_sub(prefix);
    let left = SCAN_LIMIT.saturating_sub(prefix);
    match expand_text(
        line,
        0,
        left,
        texts,
        &mut *registers,
        shown,
        arguments,
        ends,
        given,
        mode,
        &mut *out,
        0,
        limit,
    )? {
        Progress::Over(_, n) | Progress::Ended(n) => Ok(n),
    }
}
