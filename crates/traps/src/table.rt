// The table of planted traps: at most 16, in the order in which they were planted.
ghost use Rattle.std.specs.Prelude.{◌≡◌, position};
ghost use Rattle.rules.specs.Results.{judged};
ghost use Rattle.rules.specs.Traps.{remove_trap};
ghost use Rattle.traps.specs.Table.Table.{TrapsInvariant, empty_table, planted_of, holding, stands_for, planting_of};
ghost use Rattle.traps.specs.Table.Checks.{lacks_place, is_trap_table};

use measure::Rows;
use rules::{Name, Refusal, Trap};

#[derive(Clone, Copy)]
pub struct Planted {
    pub traps: [Trap; 16],
    pub count: usize,
}

pub fn empty() -> Planted
    ensures { result ≡ empty_table }
{
    let blank = Trap {
        place: Rows(0),
        name: Name {
            first: 0,
            second: 0,
        },
    };
    Planted {
        traps: [blank; 16],
        count: 0,
    }
}

// The index of the trap planted at a place, if there is one.
fn index_of(p: Planted, place: Rows) -> Option<usize>
    requires { TrapsInvariant p }
    ensures { result ≡ position (stands_for place.0) (planted_of p) }
{
    p.traps[..p.count]
        .iter()
        .position(|trap| trap.place == place)
}

// Plants a name at a place: the trap that is there is replaced, and a new one comes last. "11: .. 17th trap".
pub fn plant(p: Planted, place: Rows, name: Name) -> Result<Planted, Refusal>
    requires { TrapsInvariant p }
    ensures { judged result ≡ planting_of p place.0 name }
{
    let mut table = p;
    let trap = Trap { place, name };
    if let Some(at) = index_of(p, place) {
        table.traps[at] = trap;
        return Ok(table);
    }
    if p.count == 16 {
        return Err(Refusal::FullTable);
    }
    table.traps[p.count] = trap;
    table.count += 1;
    Ok(table)
}

// Removes the trap planted at a place, if there is one: the later ones move down by one.
pub fn remove(p: Planted, place: Rows) -> Planted
    requires { TrapsInvariant p }
    ensures { result ≡ holding p (remove_trap place.0 (planted_of p)) }
{
    let Some(at) = index_of(p, place) else {
        return p;
    };
    let mut traps = p.traps;
    let count = p.count - 1;
    // a loop: `copy_from_slice` would call memmove, which the C archive is not to ask for
    for j in 0..count - at {
        traps[at + j] = p.traps[at + 1 + j];
    }
    Planted { traps, count }
}

// Whether none of the traps is planted at a place.
fn lacks_place(traps: &[Trap], place: Rows) -> bool
    ensures { result ≡ lacks_place place.0 traps.now }
{
    traps.iter().all(|trap| trap.place != place)
}

// Whether there are at most 16 traps, no two planted at one place.
pub fn is_table(p: Planted) -> bool
    ensures { result ≡ is_trap_table p }
{
    if p.count > 16 {
        return false;
    }
    let traps = &p.traps[..p.count];
    for (i, trap) in traps.iter().enumerate() {
        if !lacks_place(&traps[i + 1..], trap.place) {
            return false;
        }
    }
    true
}
