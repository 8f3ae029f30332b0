// What holds of every table.
ghost use Rattle.table.specs.Laws.{Laws};

pub fn tables_are_lawful() -> u8
    ensures { Laws }
{
    0
}
