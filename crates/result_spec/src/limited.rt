// What a file holds whose template IDs have an end, from what the source of another file gave.
ghost use Rattle.std.specs.Prelude.{◌≡◌, [], ◌∷◌, ℕ, take, true};
ghost use Rattle.col_base.specs.declared.base.Transport.TheVariants.{File};
ghost use Rattle.run_spec.specs.Work.Item.{Note};
ghost use Rattle.file_spec.specs.File.{file_octets};
ghost use Rattle.file_spec.specs.Limit.{items_within};
ghost use Rattle.result_spec.specs.Examples.{five_messages, flow, in_a};
ghost use Rattle.result_spec.specs.Limited.{both_flows, four_arrivals, limited, one_source};
ghost use Rattle.result_spec.specs.Result.{ComeTo};

/// Two messages come whatever the last ID is. Up to 256 only the first has a number for its definition, and up to 257 both.
pub fn a_file_ends_at_its_last_template_id()
    ensures come { (last : ℕ) → ComeTo (limited last) one_source four_arrivals 0 both_flows }
    ensures kept { items_within 256 both_flows ≡ Note in_a File true ∷ flow in_a 1 8 1 ∷ [] }
    ensures octets { file_octets (items_within 256 both_flows) ≡ take 52 five_messages }
    ensures enough { file_octets (items_within 257 both_flows) ≡ take 104 five_messages }
{}
