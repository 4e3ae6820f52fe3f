// The constants are the examples of the definitions. This file is written by tools/examples.py.
ghost use Rattle.std.specs.Prelude.{◌≡◌, drop, take};
ghost use Rattle.wire_spec.specs.Examples.{one_flow, padded_flow, two_flows, variable_names, empty_template, withdrawal, data_alone, first_template, second_template, two_templates, repeated_element, options, no_sets};

use crate::messages::{
    DATA_ALONE, EMPTY_TEMPLATE, FIRST_TEMPLATE, FLOW_RECORD, FLOW_SPECIFIERS, NAME_SPECIFIERS,
    NAMES_BODY, NO_SETS, ONE_FLOW, OPTIONS, OPTIONS_RECORD, OPTIONS_SPECIFIERS, PADDED_FLOW,
    PADDED_FLOW_BODY, REPEATED_ELEMENT, REPEATED_RECORD, REPEATED_SPECIFIERS, SECOND_TEMPLATE,
    TWO_FLOWS, TWO_FLOWS_BODY, TWO_TEMPLATES, VARIABLE_NAMES, WITHDRAWAL,
};

/// Each message has the octets of the example of its name in the definitions.
pub fn messages_are_those_of_the_definitions()
    ensures one_flow { ONE_FLOW.now ≡ one_flow }
    ensures padded_flow { PADDED_FLOW.now ≡ padded_flow }
    ensures two_flows { TWO_FLOWS.now ≡ two_flows }
    ensures variable_names { VARIABLE_NAMES.now ≡ variable_names }
    ensures empty_template { EMPTY_TEMPLATE.now ≡ empty_template }
    ensures withdrawal { WITHDRAWAL.now ≡ withdrawal }
    ensures data_alone { DATA_ALONE.now ≡ data_alone }
    ensures first_template { FIRST_TEMPLATE.now ≡ first_template }
    ensures second_template { SECOND_TEMPLATE.now ≡ second_template }
    ensures two_templates { TWO_TEMPLATES.now ≡ two_templates }
    ensures repeated_element { REPEATED_ELEMENT.now ≡ repeated_element }
    ensures options { OPTIONS.now ≡ options }
    ensures no_sets { NO_SETS.now ≡ no_sets }
{}

/// Each part stands in its message.
pub fn parts_stand_in_their_messages()
    ensures flow_specifiers { FLOW_SPECIFIERS.now ≡ take 12 (drop 24 one_flow) }
    ensures flow_record { FLOW_RECORD.now ≡ take 12 (drop 40 one_flow) }
    ensures padded_flow_body { PADDED_FLOW_BODY.now ≡ take 15 (drop 40 padded_flow) }
    ensures two_flows_body { TWO_FLOWS_BODY.now ≡ take 24 (drop 40 two_flows) }
    ensures name_specifiers { NAME_SPECIFIERS.now ≡ take 4 (drop 24 variable_names) }
    ensures names_body { NAMES_BODY.now ≡ take 10 (drop 32 variable_names) }
    ensures repeated_specifiers { REPEATED_SPECIFIERS.now ≡ take 16 (drop 24 repeated_element) }
    ensures repeated_record { REPEATED_RECORD.now ≡ take 10 (drop 44 repeated_element) }
    ensures options_specifiers { OPTIONS_SPECIFIERS.now ≡ take 8 (drop 26 options) }
    ensures options_record { OPTIONS_RECORD.now ≡ take 8 (drop 40 options) }
{}
