// The texts of messages of several export times and domains, from what their sources gave.
ghost use Rattle.std.specs.Prelude.{[], ◌∷◌, ◌++◌, true};
ghost use Rattle.col_base.specs.declared.base.Transport.TheVariants.{Udp};
ghost use Rattle.wire_spec.specs.Examples.{first_template};
ghost use Rattle.wire_spec.specs.TimedExamples.{data_at_119, data_at_150, data_at_1900, data_at_1901, data_at_199, data_at_200, data_at_99, destination_at_200, flow_at_3200, in_domain_2, in_domain_4, next_hop_at_120, other_at_3199, other_data_at_3200, source_at_100, source_at_5000};
ghost use Rattle.arrival_spec.specs.Examples.{over};
ghost use Rattle.text_spec.specs.Builtin.{builtin_rows};
ghost use Rattle.run_spec.specs.Examples.{from_peer, stream_of};
ghost use Rattle.run_spec.specs.Result.{IsText};
ghost use Rattle.result_spec.specs.Result.{IsRunResult};
ghost use Rattle.result_spec.specs.Lines.{destination_line, first_destination_line, fourth_line, next_hop_line, second_source_line, source_line};
ghost use Rattle.result_spec.specs.TwoOutputs.{five_arrivals, two_outputs};

/// Over UDP a record is decoded by the definition of the newest export time up to its own, in whatever order they came; none
/// before the first, nor past its lifetime. A late message has no line, and its template stays unknown.
pub fn export_times_decide_the_lines()
    ensures by_time { IsText (over Udp) true builtin_rows (from_peer (source_at_100 ∷ destination_at_200 ∷ next_hop_at_120 ∷ data_at_150 ∷ data_at_199 ∷ data_at_200 ∷ data_at_119 ∷ data_at_99 ∷ [])) (next_hop_line ++ next_hop_line ++ first_destination_line ++ source_line) }
    ensures lifetime { IsText (over Udp) true builtin_rows (from_peer (source_at_100 ∷ data_at_1900 ∷ data_at_1901 ∷ [])) source_line }
    ensures late { IsText (over Udp) true builtin_rows (from_peer (source_at_5000 ∷ flow_at_3200 ∷ other_at_3199 ∷ other_data_at_3200 ∷ [])) destination_line }
{}

/// Three domains, and two outputs that take some of them.
pub fn outputs_have_the_lines_of_their_domains()
    ensures some { IsRunResult two_outputs builtin_rows (stream_of (first_template ++ in_domain_2 ++ in_domain_4) ∷ []) five_arrivals 0 (source_line ++ fourth_line) }
    ensures others { IsRunResult two_outputs builtin_rows (stream_of (first_template ++ in_domain_2 ++ in_domain_4) ∷ []) five_arrivals 1 (second_source_line ++ fourth_line) }
{}
