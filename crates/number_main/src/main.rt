#![tactic(auto)]

// Reads arguments of requests, one to a line, and writes for each its value in units, in cells and in rows, or that it is refused.
use report::{read_full, text};
use rules::Refusal;
use std::io;

// A value, or that there is none. Each piece is written as it is: by print! a short line takes half as many instructions again.
fn show(rt: &impl Print, value: Result<i32, Refusal>) -> io::Result<()> {
    match value {
        Ok(n) => rt.print(n),
        Err(_) => text(rt, b"refused"),
    }
}

fn answer(rt: &impl Print, argument: &[u8]) -> io::Result<()> {
    let pitch = measure::ten_pitch();
    show(rt, number::scales::units(argument, pitch))?;
    text(rt, b" ")?;
    show(
        rt,
        number::scales::cells(argument, pitch).map(|cells| cells.0),
    )?;
    text(rt, b" ")?;
    show(rt, number::scales::rows(argument, pitch).map(|rows| rows.0))?;
    if number::scales::signed(argument) {
        text(rt, b" a change")?;
    }
    text(rt, b"\n")
}

fn answer_all(rt: &impl Print, s: &[u8]) -> io::Result<()> {
    for line in s.split_inclusive(|byte| *byte == b'\n') {
        answer(rt, line.strip_suffix(b"\n").unwrap_or(line))?;
    }
    Ok(())
}

fn main(rt: HostRuntime) -> io::Result<()> {
    let mut buffer = [0u8; 65536];
    let n = read_full(&mut rt.stdin(), &mut buffer)?;
    answer_all(&rt, &buffer[..n])
}
