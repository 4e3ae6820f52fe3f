// Known texts, to which the definitions are held. The functions do nothing: each contract states a text.
ghost use Rattle.text_spec.specs.Examples.{HaveTexts, unsigned_values, signed_values, boolean_values, address_values, ipv6_values, string_values, time_values, octet_values, HasFlowLine, HasFlowView, HaveViews, HasNameLine, HasRepeatedLine, HasNamedLine, HasOptionsLine, HasPaddedLine};

#[tactic(auto, using(crate::proofs::KnownTexts::unsigned_have_texts))]
pub fn unsigned_values_have_their_texts()
    ensures { HaveTexts unsigned_values }
{}

#[tactic(auto, using(crate::proofs::KnownTexts::signed_have_texts))]
pub fn signed_values_have_their_texts()
    ensures { HaveTexts signed_values }
{}

#[tactic(auto, using(crate::proofs::KnownTexts::boolean_have_texts))]
pub fn boolean_values_have_their_texts()
    ensures { HaveTexts boolean_values }
{}

#[tactic(auto, using(crate::proofs::KnownTexts::address_have_texts))]
pub fn address_values_have_their_texts()
    ensures { HaveTexts address_values }
{}

#[tactic(auto, using(crate::proofs::KnownTexts::ipv6_have_texts))]
pub fn ipv6_values_have_their_texts()
    ensures { HaveTexts ipv6_values }
{}

#[tactic(auto, using(crate::proofs::KnownTexts::string_have_texts))]
pub fn string_values_have_their_texts()
    ensures { HaveTexts string_values }
{}

#[tactic(auto, using(crate::proofs::KnownTexts::time_have_texts))]
pub fn time_values_have_their_texts()
    ensures { HaveTexts time_values }
{}

#[tactic(auto, using(crate::proofs::KnownTexts::octet_have_texts))]
pub fn octet_values_have_their_texts()
    ensures { HaveTexts octet_values }
{}

#[tactic(auto, using(crate::proofs::KnownTexts::flow_line))]
pub fn a_flow_has_its_line()
    ensures { HasFlowLine }
{}

#[tactic(auto, using(crate::proofs::KnownTexts::flow_view))]
pub fn a_flow_has_its_view()
    ensures { HasFlowView }
{}

#[tactic(auto, using(crate::proofs::KnownTexts::line_views))]
pub fn sessions_messages_and_sets_have_their_views()
    ensures { HaveViews }
{}

#[tactic(auto, using(crate::proofs::KnownTexts::name_line))]
pub fn a_variable_text_has_its_line()
    ensures { HasNameLine }
{}

#[tactic(auto, using(crate::proofs::KnownTexts::repeated_line))]
pub fn a_repeated_element_is_a_list()
    ensures { HasRepeatedLine }
{}

#[tactic(auto, using(crate::proofs::KnownTexts::named_line))]
pub fn a_named_element_has_its_name_and_type()
    ensures { HasNamedLine }
{}

#[tactic(auto, using(crate::proofs::KnownTexts::options_line))]
pub fn an_options_record_has_its_line()
    ensures { HasOptionsLine }
{}

#[tactic(auto, using(crate::proofs::KnownTexts::padded_line))]
pub fn padding_is_not_printed()
    ensures { HasPaddedLine }
{}
