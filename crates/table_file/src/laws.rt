//! What holds of every table, as a call that carries it in its contract. It does nothing.
ghost use Rattle.table_file.specs.Laws.{TableReadsBack, TableWasSpelled, OneRun, WrongWhereNoTable};

/// A table is read back as the blocks that it was cut into, and what is read was spelled there. So bytes are a table of
/// at most one run, and have a first wrong place exactly where they are a table of none.
pub fn tables_read_back()
    ensures table { TableReadsBack }
    ensures spelled { TableWasSpelled }
    ensures one { OneRun }
    ensures wrong { WrongWhereNoTable }
{}
