// What the texts of addresses are, and what a description is like that has no fault. The functions do nothing:
// each contract states a law.
ghost use Rattle.config_spec.specs.Grammar.{DottedAreIpv4, GroupedAreIpv6};
ghost use Rattle.config_spec.specs.Laws.{KeepForm, HaveParts};

pub fn ipv4_texts_are_numbers_with_dots()
    ensures { DottedAreIpv4 }
{}

pub fn ipv6_texts_are_groups_with_colons()
    ensures { GroupedAreIpv6 }
{}

pub fn descriptions_keep_their_form()
    ensures { KeepForm }
{}

pub fn descriptions_have_their_parts()
    ensures { HaveParts }
{}
