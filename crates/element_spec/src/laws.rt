// What an accepted element table is like. The functions do nothing: each contract states a law.
ghost use Rattle.element_spec.specs.Laws.{RowsStay, StayApart, TablesAreApart};

pub fn a_text_puts_its_rows_last()
    ensures { RowsStay }
{}

pub fn a_text_keeps_rows_apart()
    ensures { StayApart }
{}

pub fn rows_of_a_table_are_apart()
    ensures { TablesAreApart }
{}
