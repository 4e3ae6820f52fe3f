// Known descriptions, to which the definition is held. The functions do nothing: each contract states a
// description.
ghost use Rattle.config_spec.specs.Examples.{AnonymisesLines, OrdersTwoInputs, FiltersDomains, AddressesHaveOctets, OthersAreNoAddresses, PrefixesAreCut, OthersAreNoPrefixes, DomainTextsAreRanges};
ghost use Rattle.config_spec.specs.Faulty.{HaveFaults, top_faults, kind_faults, input_faults, output_faults, field_faults, rule_faults, value_faults, absent_faults, path_faults, ordered_faults, inner_faults, first_faults, address_faults, prefix_faults};

#[tactic(auto, using(crate::proofs::KnownConfs::anonymises_lines))]
pub fn a_description_anonymises_lines()
    ensures { AnonymisesLines }
{}

#[tactic(auto, using(crate::proofs::KnownConfs::orders_two_inputs))]
pub fn a_description_orders_two_inputs()
    ensures { OrdersTwoInputs }
{}

#[tactic(auto, using(crate::proofs::KnownConfs::filters_domains))]
pub fn a_description_filters_domains()
    ensures { FiltersDomains }
{}

#[tactic(auto, using(crate::proofs::KnownTexts::domain_texts_are_ranges))]
pub fn domain_texts_are_ranges()
    ensures { DomainTextsAreRanges }
{}

#[tactic(auto, using(crate::proofs::KnownFaults::top_faulty))]
pub fn faults_of_the_top_table()
    ensures { HaveFaults top_faults }
{}

#[tactic(auto, using(crate::proofs::KnownFaults::kind_faulty))]
pub fn faults_of_kinds()
    ensures { HaveFaults kind_faults }
{}

#[tactic(auto, using(crate::proofs::KnownFaults::input_faulty))]
pub fn faults_of_inputs()
    ensures { HaveFaults input_faults }
{}

#[tactic(auto, using(crate::proofs::KnownFaults::output_faulty))]
pub fn faults_of_outputs()
    ensures { HaveFaults output_faults }
{}

#[tactic(auto, using(crate::proofs::KnownFaults::field_faulty))]
pub fn faults_of_anonymisers()
    ensures { HaveFaults field_faults }
{}

#[tactic(auto, using(crate::proofs::KnownFaults::rule_faulty))]
pub fn faults_of_rules()
    ensures { HaveFaults rule_faults }
{}

#[tactic(auto, using(crate::proofs::KnownFaults::value_faulty))]
pub fn faults_of_values_in_rules()
    ensures { HaveFaults value_faults }
{}

#[tactic(auto, using(crate::proofs::KnownFaults::absent_faulty))]
pub fn faults_of_what_is_absent()
    ensures { HaveFaults absent_faults }
{}

#[tactic(auto, using(crate::proofs::KnownFaults::path_faulty))]
pub fn faults_of_paths()
    ensures { HaveFaults path_faults }
{}

#[tactic(auto, using(crate::proofs::KnownFaults::ordered_faulty))]
pub fn of_two_tables_the_earlier_is_told()
    ensures { HaveFaults ordered_faults }
{}

#[tactic(auto, using(crate::proofs::KnownFaults::inner_faulty))]
pub fn tables_inside_are_told_in_their_order()
    ensures { HaveFaults inner_faults }
{}

#[tactic(auto, using(crate::proofs::KnownFaults::first_faulty))]
pub fn of_two_repeats_the_name_is_told()
    ensures { HaveFaults first_faults }
{}

#[tactic(auto, using(crate::proofs::KnownTexts::addresses_have_octets))]
pub fn address_texts_have_their_octets()
    ensures { AddressesHaveOctets }
{}

#[tactic(auto, using(crate::proofs::KnownTexts::others_are_no_addresses))]
pub fn other_texts_are_no_addresses()
    ensures { OthersAreNoAddresses }
{}

#[tactic(auto, using(crate::proofs::KnownTexts::prefixes_are_cut))]
pub fn bits_past_a_prefix_are_zero()
    ensures { PrefixesAreCut }
{}

#[tactic(auto, using(crate::proofs::KnownTexts::others_are_no_prefixes))]
pub fn other_texts_are_no_prefixes()
    ensures { OthersAreNoPrefixes }
{}

#[tactic(auto, using(crate::proofs::KnownFaults::address_faulty))]
pub fn faults_of_addresses()
    ensures { HaveFaults address_faults }
{}

#[tactic(auto, using(crate::proofs::KnownFaults::prefix_faulty))]
pub fn a_prefix_that_stands_twice_is_told()
    ensures { HaveFaults prefix_faults }
{}
