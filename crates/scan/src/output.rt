// Bytes, decimal numbers and expanded texts are written into a buffer.
ghost use Rattle.std.specs.Prelude.{◌≡◌, [], ◌∷◌, ◌-◌, length};
ghost use Rattle.rules.specs.Registers.{decimal};
ghost use Rattle.rules.specs.Escapes.{escaped};
ghost use Rattle.scan.specs.Output.Writes.{Room, WroteTo};
ghost use Rattle.scan.specs.Output.Digits.{DigitsAt};

use rules::arrays::LineBytes;
use rules::{FIXED_BLANK, MARK, Refusal};

// A byte; it gives the place behind it. "3: .. expanded line passes 512 bytes"
pub fn put_byte(
    byte: u8,
    out: &mut LineBytes,
    written: usize,
    limit: usize,
) -> Result<usize, Refusal>
    requires { Room out.old written limit }
    ensures { WroteTo result (byte ∷ []) out.old written limit out.new }
{
    if limit <= written {
        return Err(Refusal::LongLine);
    }
    out[written] = byte;
    Ok(written + 1)
}

// A backslash and a byte.
pub fn put_kept(
    byte: u8,
    out: &mut LineBytes,
    written: usize,
    limit: usize,
) -> Result<usize, Refusal>
    requires { Room out.old written limit }
    ensures { WroteTo result (92 ∷ byte ∷ []) out.old written limit out.new }
{
    if limit - written < 2 {
        return Err(Refusal::LongLine);
    }
    out[written] = b'\\';
    out[written + 1] = byte;
    Ok(written + 2)
}

// All of the bytes, if they have room.
pub fn copy_bytes(
    bytes: &[u8],
    out: &mut LineBytes,
    written: usize,
    limit: usize,
) -> Result<usize, Refusal>
    requires { Room out.old written limit }
    ensures { WroteTo result bytes.now out.old written limit out.new }
{
    if limit - written < bytes.len() {
        return Err(Refusal::LongLine);
    }
    texts::definitions::copy_in(&mut *out, written, bytes);
    Ok(written + bytes.len())
}

// "There \$, and ds after an if, write backslash, mark and fixed blank as \e, \& and backslash-space"
#[tactic(auto, unfolding(rules::specs::Escapes::escaped, rules::specs::Bytes::first_where))]
fn put_escaped(
    byte: u8,
    out: &mut LineBytes,
    written: usize,
    limit: usize,
) -> Result<usize, Refusal>
    requires { Room out.old written limit }
    ensures { WroteTo result (escaped (byte ∷ [])) out.old written limit out.new }
{
    match byte {
        b'\\' => put_kept(b'e', &mut *out, written, limit),
        MARK => put_kept(b'&', &mut *out, written, limit),
        FIXED_BLANK => put_kept(b' ', &mut *out, written, limit),
        _ => put_byte(byte, &mut *out, written, limit),
    }
}

// All of the bytes with their escapes written back, if they have room.
pub fn write_back(
    bytes: &[u8],
    out: &mut LineBytes,
    written: usize,
    limit: usize,
) -> Result<usize, Refusal>
    requires { Room out.old written limit }
    ensures { WroteTo result (escaped bytes.now) out.old written limit out.new }
{
    let mut n = written;
    for byte in bytes {
        n = put_escaped(*byte, &mut *out, n, limit)?;
    }
    Ok(n)
}

// Writes the digits of a value at the end of a buffer, and gives the place of the first.
// A while: how many digits there are comes from the value, so no range or slice gives its turns.
fn digits_of(value: u32, digits: &mut [u8; 11]) -> usize
    requires { length digits.old ≡ 11 }
    ensures { DigitsAt value result digits.new }
{
    let mut n = value;
    let mut at: usize = 11;
    while 10 <= n {
        at -= 1;
        digits[at] = b'0' + (n % 10) as u8;
        n = n / 10;
    }
    at -= 1;
    digits[at] = b'0' + n as u8;
    at
}

// "give a register in decimal"
pub fn write_number(
    value: i32,
    out: &mut LineBytes,
    written: usize,
    limit: usize,
) -> Result<usize, Refusal>
    requires { Room out.old written limit }
    ensures { WroteTo result (decimal value) out.old written limit out.new }
{
    let mut digits = [0u8; 11];
    let at = digits_of(value.unsigned_abs(), &mut digits);
    if value < 0 {
        let sign = at - 1;
        digits[sign] = b'-';
        return copy_bytes(&digits[sign..], &mut *out, written, limit);
    }
    copy_bytes(&digits[at..], &mut *out, written, limit)
}

// A place of a text, how many bytes may still be scanned there, and how many are written.
#[derive(Clone, Copy)]
pub struct Copied {
    pub at: usize,
    pub left: usize,
    pub written: usize,
}
