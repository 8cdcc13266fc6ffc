// The number registers where their columns lie, lent to be changed, to be stepped or to be read.
ghost use Rattle.registers.specs.Table.Columns.{RegistersInvariant};
ghost use Rattle.registers.specs.Table.Single.{RegistersInvariant-prop};

use rules::arrays::{ByteColumn, NumberColumn};

// At most 64, in the order of their names.
#[derive(Drop)]
pub struct Registers<'a> {
    pub firsts: &'a mut ByteColumn,
    pub seconds: &'a mut ByteColumn,
    pub values: &'a mut NumberColumn,
    pub steps: &'a mut NumberColumn,
    pub count: usize,
    ghost sound: { RegistersInvariant firsts.now seconds.now values.now steps.now count } by { RegistersInvariant-prop firsts.now seconds.now values.now steps.now count },
}

// The same, lent to be stepped: only the values may change.
#[derive(Drop)]
pub struct RegisterValues<'a> {
    pub firsts: &'a ByteColumn,
    pub seconds: &'a ByteColumn,
    pub values: &'a mut NumberColumn,
    pub steps: &'a NumberColumn,
    pub count: usize,
    ghost sound: { RegistersInvariant firsts.now seconds.now values.now steps.now count } by { RegistersInvariant-prop firsts.now seconds.now values.now steps.now count },
}

// The same, lent to be read.
#[derive(Clone, Copy)]
pub struct RegistersRef<'a> {
    pub firsts: &'a ByteColumn,
    pub seconds: &'a ByteColumn,
    pub values: &'a NumberColumn,
    pub steps: &'a NumberColumn,
    pub count: usize,
    ghost sound: { RegistersInvariant firsts.now seconds.now values.now steps.now count } by { RegistersInvariant-prop firsts.now seconds.now values.now steps.now count },
}
