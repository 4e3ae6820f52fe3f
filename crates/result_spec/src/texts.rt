// The texts of runs over the example messages, from what their sources gave.
ghost use Rattle.std.specs.Prelude.{◌≡◌, [], ◌∷◌, ◌++◌, map, true, false};
ghost use Rattle.col_base.specs.declared.base.Transport.TheVariants.{File, Tcp, Udp};
ghost use Rattle.wire_spec.specs.Examples.{data_alone, empty_template, one_flow, options, padded_flow, repeated_element, two_flows, two_templates, variable_names, withdrawal};
ghost use Rattle.arrival_spec.specs.declared.event.Scripted.TheVariants.{Opened, Bytes, Closed};
ghost use Rattle.arrival_spec.specs.Examples.{one_and_a_front, over, two_and_another_version};
ghost use Rattle.text_spec.specs.Builtin.{builtin_rows};
ghost use Rattle.run_spec.specs.Examples.{from_peer, stream_of};
ghost use Rattle.run_spec.specs.Result.{IsText};
ghost use Rattle.result_spec.specs.Result.{IsRunResult, result_text};
ghost use Rattle.result_spec.specs.Lines.{destination_line, filtered, flow_line, flow_view, more_rows, name_line, named_line, options_line, repeated_line, second_file, second_line, skipped_view, source_line, two_addresses};
ghost use Rattle.result_spec.specs.TwoFiles.{one_file, three_arrivals};

/// A file has a line for each record that its sets have by the templates before them.
pub fn a_file_has_a_line_for_each_record()
    ensures nothing { IsText (over File) true builtin_rows (Opened 0 ∷ Closed 0 ∷ []) [] }
    ensures one_flow { IsText (over File) true builtin_rows (stream_of one_flow) flow_line }
    ensures padded_flow { IsText (over File) true builtin_rows (stream_of padded_flow) flow_line }
    ensures two_flows { IsText (over File) true builtin_rows (stream_of two_flows) (flow_line ++ flow_line) }
    ensures variable_names { IsText (over File) true builtin_rows (stream_of variable_names) (name_line ++ name_line) }
    ensures two_templates { IsText (over File) true builtin_rows (stream_of two_templates) (source_line ++ destination_line) }
    ensures repeated_element { IsText (over File) true builtin_rows (stream_of repeated_element) repeated_line }
    ensures options { IsText (over File) true builtin_rows (stream_of options) options_line }
{}

/// What is torn, broken, malformed or without a template has no line, and the rest has its lines.
pub fn only_what_is_decoded_has_a_line()
    ensures torn { IsText (over File) true builtin_rows (stream_of one_and_a_front) flow_line }
    ensures malformed { IsText (over File) true builtin_rows (stream_of empty_template) [] }
    ensures broken { IsText (over Tcp) true builtin_rows (stream_of two_and_another_version) (flow_line ++ flow_line) }
    ensures octet_by_octet { IsText (over Tcp) true builtin_rows (Opened 0 ∷ map (λ o. Bytes 0 (o ∷ [])) two_and_another_version) (flow_line ++ flow_line) }
    ensures withdrawn { IsText (over Tcp) true builtin_rows (stream_of (one_flow ++ withdrawal ++ data_alone ++ one_flow)) (flow_line ++ flow_line) }
    ensures not_over_udp { IsText (over Udp) true builtin_rows (from_peer (one_flow ∷ withdrawal ∷ data_alone ∷ one_flow ∷ [])) (flow_line ++ flow_line ++ flow_line) }
{}

/// A table gives an element its name and its type, and an output may leave records of options templates out.
pub fn lines_are_as_the_settings_say()
    ensures named { IsText (over File) true more_rows (stream_of repeated_element) named_line }
    ensures without_options { IsText (over File) false builtin_rows (stream_of options) [] }
    ensures templates_stay { IsText (over File) false builtin_rows (stream_of one_flow) flow_line }
{}

/// What people read of a file: of a message without records nothing. Beside it an output that leaves options out.
pub fn a_file_has_its_view()
    ensures one_flow { IsRunResult one_file builtin_rows (stream_of one_flow ∷ []) three_arrivals 0 flow_view }
    ensures without_options { IsRunResult one_file builtin_rows (stream_of options ∷ []) three_arrivals 1 [] }
    ensures skipped { IsRunResult one_file builtin_rows (stream_of data_alone ∷ []) three_arrivals 0 skipped_view }
{}

/// Of two addresses a filter leaves the second, in the lines and in the file alike.
pub fn a_filter_leaves_the_second_of_two_addresses()
    ensures lines { result_text filtered builtin_rows 0 (two_addresses ∷ []) ≡ second_line }
    ensures file { result_text filtered builtin_rows 1 (two_addresses ∷ []) ≡ second_file }
{}
