// nr: a register is set.
ghost use Rattle.std.specs.Prelude.{◌≡◌};
ghost use Rattle.rules.specs.Registers.{predefined, register_of};
ghost use Rattle.rules.specs.Acts.{new_value, new_step};
ghost use Rattle.rules.specs.Results.{judged, judged_by};
ghost use Rattle.registers.specs.Table.Lent.{registers_in};
ghost use Rattle.settings.specs.Layout.Layouts.{printer_of, PrinterInvariant};
ghost use Rattle.requests.specs.Nr.Registers.{NumbersOf, numbers_of, value_by, numbers_by, assigns_to, assigns};
ghost use Rattle.requests.specs.Nr.Lent.{AssignsIn};

use registers::columns::{Registers, RegistersRef};
use rules::{Name, Refusal};
use settings::layout::Printer;

// The value and the step of a register.
#[derive(Clone, Copy, Debug, PartialEq, Eq)]
struct Numbers {
    value: i32,
    step: i32,
}

// Whether a name is that of a read-only register.
fn read_only(name: Name) -> bool
    ensures { result ≡ predefined name }
{
    registers::interpolation::predefined(name).is_some()
}

// The value and the step of a register, 0 and 0 of an undefined one.
fn old_numbers(registers: &Registers, name: Name) -> Numbers
    ensures { NumbersOf (register_of name (registers_in registers.now)) result }
{
    let registers = RegistersRef {
        firsts: &*registers.firsts,
        seconds: &*registers.seconds,
        values: &*registers.values,
        steps: &*registers.steps,
        count: registers.count,
    };
    match registers::table::look_up(&registers, name) {
        Some(register) => Numbers {
            value: register.value,
            step: register.step,
        },
        None => Numbers { value: 0, step: 0 },
    }
}

// "The sum with the old value is a result in the sense of 6 for nr only"
fn summed(signed: bool, old: i32, value: i32) -> Result<i32, Refusal>
    ensures { judged result ≡ new_value signed old value }
{
    if signed {
        return number::arithmetic::judge(i64::from(old) + i64::from(value));
    }
    Ok(value)
}

// The new value of a register.
fn new_value(value: &[u8], old: i32, printer: Printer) -> Result<i32, Refusal>
    requires { PrinterInvariant printer }
    ensures { judged result ≡ value_by (printer_of printer) value.now old }
{
    let number = number::scales::units(value, printer.pitch)?;
    summed(number::scales::signed(value), old, number)
}

// "nr without a step the old step (0 at first)"
fn new_step(step: &[u8], old: i32, printer: Printer) -> Result<i32, Refusal>
    requires { PrinterInvariant printer }
    ensures { judged result ≡ new_step (printer_of printer) step.now old }
{
    if step.is_empty() {
        return Ok(old);
    }
    number::scales::units(step, printer.pitch)
}

// The new value, then the new step.
fn new_numbers(
    value: &[u8],
    step: &[u8],
    old: Numbers,
    printer: Printer,
) -> Result<Numbers, Refusal>
    requires { PrinterInvariant printer }
    ensures { judged_by numbers_of result ≡ numbers_by (printer_of printer) value.now step.now old.value old.step }
{
    let value = new_value(value, old.value, printer)?;
    let step = new_step(step, old.step, printer)?;
    Ok(Numbers { value, step })
}

// nr of a name: without a value it does nothing; "7: .. a predefined register written".
fn write_register(
    name: Name,
    value: &[u8],
    step: &[u8],
    printer: Printer,
    registers: &mut Registers,
) -> Result<(), Refusal>
    requires { PrinterInvariant printer }
    ensures { AssignsIn registers.old registers.new (assigns_to printer value.now step.now name) result }
{
    if value.is_empty() {
        return Ok(());
    }
    if read_only(name) {
        return Err(Refusal::OutOfRange);
    }
    let old = old_numbers(&*registers, name);
    let new = new_numbers(value, step, old, printer)?;
    registers::table::set(registers, name, new.value, new.step)
}

// nr
pub fn assign(
    name: &[u8],
    value: &[u8],
    step: &[u8],
    printer: Printer,
    registers: &mut Registers,
) -> Result<(), Refusal>
    requires { PrinterInvariant printer }
    ensures { AssignsIn registers.old registers.new (assigns printer name.now value.now step.now) result }
{
    let Some(name) = line_syntax::lines::name_of(name)? else {
        return Ok(());
    };
    write_register(name, value, step, printer, registers)
}
