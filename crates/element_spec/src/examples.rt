// Known tables, to which the definition is held. The functions do nothing: each contract states a table.
ghost use Rattle.element_spec.specs.Examples.{HasOneRow, IsDuplicateTwice, HasBadType, HasNoRows};

#[tactic(auto, using(crate::proofs::KnownTables::one_row))]
pub fn a_table_adds_its_row()
    ensures { HasOneRow }
{}

#[tactic(auto, using(crate::proofs::KnownTables::duplicate))]
pub fn a_table_twice_has_a_duplicate()
    ensures { IsDuplicateTwice }
{}

#[tactic(auto, using(crate::proofs::KnownTables::bad_type))]
pub fn an_unknown_type_is_a_fault()
    ensures { HasBadType }
{}

#[tactic(auto, using(crate::proofs::KnownTables::no_rows))]
pub fn an_empty_document_has_no_rows()
    ensures { HasNoRows }
{}
