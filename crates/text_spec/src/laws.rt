// What the definitions of records say, in other words. The functions do nothing: each contract states a law.
ghost use Rattle.text_spec.specs.Laws.{DifferentOccur, DifferentDiffer, DifferentGrow, SinglesOneByOne, AllOneByOne, ZerosAreCut, OthersStay};

#[tactic(auto, using(crate::proofs::DifferentLemmas::different_occur))]
pub fn the_different_elements_are_those_of_the_fields()
    ensures { DifferentOccur }
{}

#[tactic(auto, using(crate::proofs::DifferentLemmas::different_differ))]
pub fn each_different_element_is_there_once()
    ensures { DifferentDiffer }
{}

#[tactic(auto, using(crate::proofs::DifferentLemmas::different_grow))]
pub fn a_new_element_comes_last()
    ensures { DifferentGrow }
{}

#[tactic(auto, using(crate::proofs::LineLemmas::singles_one_by_one, crate::proofs::LineLemmas::all_one_by_one))]
pub fn single_fields_are_printed_one_by_one()
    ensures typed { SinglesOneByOne }
    ensures written { AllOneByOne }
{}

#[tactic(auto, using(crate::proofs::StringLemmas::zeros_are_cut))]
pub fn zeros_are_cut_from_the_end()
    ensures { ZerosAreCut }
{}

#[tactic(auto, using(crate::proofs::StringLemmas::others_stay))]
pub fn other_octets_stay_at_the_end()
    ensures { OthersStay }
{}
