// wh: a trap is planted, replaced or removed.
ghost use Rattle.rules.specs.Names.{name_of};
ghost use Rattle.rules.specs.Acts.{plant_at};
ghost use Rattle.traps.specs.Table.Table.{TrapsInvariant};
ghost use Rattle.requests.specs.Wh.Traps.{PlantReady as ReadyTraps, PlantRefines, PlantedTo};

use measure::Rows;
use rules::Refusal;
use settings::layout::Printer;
use traps::table::Planted;

// A row with a name plants, "no name removes".
fn plant_at(place: Rows, name: &[u8], planted: Planted) -> Result<Planted, Refusal>
    requires { TrapsInvariant planted }
    ensures { PlantRefines planted (λ s. plant_at place.0 (name_of name.now) s) result }
{
    match line_syntax::lines::name_of(name)? {
        Some(name) => traps::table::plant(planted, place, name),
        None => Ok(traps::table::remove(planted, place)),
    }
}

// The table after wh: without a row it does nothing.
pub fn plant(
    row: &[u8],
    name: &[u8],
    planted: Planted,
    printer: Printer,
) -> Result<Planted, Refusal>
    requires { ReadyTraps planted printer }
    ensures { PlantedTo row.now name.now planted printer result }
{
    if row.is_empty() {
        return Ok(planted);
    }
    let place = number::scales::rows(row, printer.pitch)?;
    plant_at(place, name, planted)
}
