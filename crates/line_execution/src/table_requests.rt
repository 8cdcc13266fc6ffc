// The requests on tables, from an expanded line: nr, wh, rm and de.
ghost use Rattle.rules.specs.Acts.{argument_at, change};
ghost use Rattle.rules.specs.declared.TableChange.TheVariants.{Nr, Wh, Rm, De};
ghost use Rattle.requests.specs.Nr.Registers.{assigns};
ghost use Rattle.requests.specs.Nr.Lent.{AssignsIn};
ghost use Rattle.requests.specs.Wh.Traps.{PlantRefines};
ghost use Rattle.requests.specs.Wh.Traps as traps;
ghost use Rattle.rules.specs.Names.{name_of};
ghost use Rattle.requests.specs.Definitions.Texts.{opens_text};
ghost use Rattle.requests.specs.Definitions.Lent.{ChangesIn};
ghost use Rattle.settings.specs.Layout.Layouts.{printer_of, PrinterInvariant};
ghost use Rattle.line_execution.specs.TableSteps.Lent.{OpenedAs};
ghost use Rattle.std.specs.Prelude.{true, ◌≡◌, ◌≤◌, [], ◌*◌, get_or, length};
ghost use Rattle.scan.specs.Arguments.Parting.{UnreadRoom};
ghost use Rattle.scan.specs.Arguments.Around.{arguments_of, Arguments};

use input_stack::stack::Stack;
use registers::columns::Registers;
use rules::Refusal;
use rules::arrays::{ARGUMENT_COUNT, ArgumentEnds, LineBytes, StackEnds};
use settings::layout::Printer;
use state::{Opened, Opening};
use texts::columns::Texts;
use traps::table::Planted;

// nr, by its arguments.
fn assign_parted(
    parts: &[u8],
    ends: &ArgumentEnds,
    given: usize,
    printer: Printer,
    registers: &mut Registers,
) -> Result<(), Refusal>
    requires { PrinterInvariant printer × Arguments parts.now ends.now given }
    ensures { AssignsIn registers.old registers.new (assigns printer (get_or (arguments_of parts.now ends.now given) 0 []) (get_or (arguments_of parts.now ends.now given) 1 []) (get_or (arguments_of parts.now ends.now given) 2 [])) result }
{
    let name = line_syntax::lines::argument(parts, ends, given, 0);
    let value = line_syntax::lines::argument(parts, ends, given, 1);
    let step = line_syntax::lines::argument(parts, ends, given, 2);
    requests::nr::assign(name, value, step, printer, registers)
}

// nr, by what follows its name.
pub fn assign(
    line: &[u8],
    parts: &mut LineBytes,
    printer: Printer,
    registers: &mut Registers,
) -> Result<(), Refusal>
    requires { PrinterInvariant printer × UnreadRoom line.now 0 parts.old 0 }
    ensures { AssignsIn registers.old registers.new (λ s. change (printer_of printer) Nr line.now s) result }
{
    let mut ends = [0u16; ARGUMENT_COUNT];
    let given = scan::arguments::arguments(line, 0, &mut *parts, &mut ends);
    assign_parted(&*parts, &ends, given, printer, registers)
}

// wh, by its arguments.
fn plant_parted(
    parts: &[u8],
    ends: &ArgumentEnds,
    given: usize,
    printer: Printer,
    planted: Planted,
) -> Result<Planted, Refusal>
    requires { traps.PlantReady planted printer × Arguments parts.now ends.now given }
    ensures { traps.PlantedTo (get_or (arguments_of parts.now ends.now given) 0 []) (get_or (arguments_of parts.now ends.now given) 1 []) planted printer result }
{
    let row = line_syntax::lines::argument(parts, ends, given, 0);
    let name = line_syntax::lines::argument(parts, ends, given, 1);
    requests::wh::plant(row, name, planted, printer)
}

// wh, by what follows its name.
pub fn plant(
    line: &[u8],
    parts: &mut LineBytes,
    printer: Printer,
    planted: Planted,
) -> Result<Planted, Refusal>
    requires { traps.PlantReady planted printer × UnreadRoom line.now 0 parts.old 0 }
    ensures { PlantRefines planted (λ s. change (printer_of printer) Wh line.now s) result }
{
    let mut ends = [0u16; ARGUMENT_COUNT];
    let given = scan::arguments::arguments(line, 0, &mut *parts, &mut ends);
    plant_parted(&*parts, &ends, given, printer, planted)
}

// rm, by what follows its name.
pub fn remove(
    line: &[u8],
    parts: &mut LineBytes,
    printer: Printer,
    stack: Stack,
    frames: &StackEnds,
    texts: &mut Texts,
) -> Result<bool, Refusal>
    requires { (stack.depth ≤ 17) × UnreadRoom line.now 0 parts.old 0 }
    ensures { ChangesIn texts.old stack frames.now (λ s. change (printer_of printer) Rm line.now s) result texts.new }
{
    let mut ends = [0u16; ARGUMENT_COUNT];
    let given = scan::arguments::arguments(line, 0, &mut *parts, &mut ends);
    let name = line_syntax::lines::argument(&*parts, &ends, given, 0);
    requests::definitions::remove(name, stack, frames, texts)
}

// de of what its name is.
fn open_named(
    name: &[u8],
    stack: Stack,
    frames: &StackEnds,
    texts: &mut Texts,
) -> Result<Option<Opened>, Refusal>
    requires { stack.depth ≤ 17 }
    ensures { OpenedAs texts.old stack frames.now (name_of name.now) (opens_text name.now) result texts.new }
{
    let Some(known) = line_syntax::lines::name_of(name)? else {
        return Ok(None);
    };
    if !requests::definitions::open(name, stack, frames, texts)? {
        return Ok(None);
    }
    let opening = Opening {
        there: true,
        name: known,
        length: 0,
    };
    let texts = texts.count;
    Ok(Some(Opened { texts, opening }))
}

// de, by what follows its name.
pub fn open(
    line: &[u8],
    parts: &mut LineBytes,
    printer: Printer,
    stack: Stack,
    frames: &StackEnds,
    texts: &mut Texts,
) -> Result<Option<Opened>, Refusal>
    requires { (stack.depth ≤ 17) × UnreadRoom line.now 0 parts.old 0 }
    ensures { OpenedAs texts.old stack frames.now (name_of (argument_at 0 line.now)) (λ s. change (printer_of printer) De line.now s) result texts.new }
{
    let mut ends = [0u16; ARGUMENT_COUNT];
    let given = scan::arguments::arguments(line, 0, &mut *parts, &mut ends);
    let name = line_syntax::lines::argument(&*parts, &ends, given, 0);
    open_named(name, stack, frames, texts)
}
