// What a description names. The functions do nothing: each contract states a law.
ghost use Rattle.std.specs.Prelude.{◌≡◌, ◌≤◌, ℕ, List, Ok, length};
ghost use Rattle.config_spec.specs.declared.conf.Conf.{Conf};
ghost use Rattle.config_spec.specs.Description.{description};
ghost use Rattle.call_spec.specs.Leaves.{sink_names};
ghost use Rattle.call_spec.specs.Plan.{described_parties};
ghost use Rattle.site_openings.specs.Out.{AreDistinct};

/// No two outputs of a description write where the other does, and none where the order log is written.
pub fn sink_names_of_a_description_are_distinct()
    ensures { (octets : List ℕ) (conf : Conf) → description octets ≡ Ok conf → AreDistinct (sink_names (described_parties conf)) }
{}

/// A description has at most 16 inputs.
pub fn descriptions_have_few_inputs()
    ensures { (octets : List ℕ) (conf : Conf) → description octets ≡ Ok conf → length conf.inputs ≤ 16 }
{}
