// What runs count, from what their sources gave.
ghost use Rattle.std.specs.Prelude.{[], ◌∷◌, ◌++◌};
ghost use Rattle.col_base.specs.declared.base.Transport.TheVariants.{File, Tcp, Udp};
ghost use Rattle.wire_spec.specs.Examples.{data_alone, empty_template, first_template, one_flow, second_template, two_templates, variable_names, withdrawal};
ghost use Rattle.wire_spec.specs.TimedExamples.{data_at_119, data_at_150, data_at_1900, data_at_1901, data_at_199, data_at_200, data_at_99, destination_at_200, flow_at_3200, in_domain_2, in_domain_4, next_hop_at_120, other_at_3199, other_data_at_3200, source_at_100, source_at_5000};
ghost use Rattle.arrival_spec.specs.Examples.{one_and_a_front, over, two_and_another_version};
ghost use Rattle.arrival_spec.specs.Run.{arrivals_of};
ghost use Rattle.run_spec.specs.Examples.{all_over, from_peer, stream_of};
ghost use Rattle.count_spec.specs.Run.{AreCounts, AreOpens, IsInUse};
ghost use Rattle.count_spec.specs.Examples.{nothing_counted};

/// All counts of files: a message; one behind which a file is torn; a set whose record is cut; a malformed message; a
/// template that is defined anew; and two inputs.
pub fn files_are_counted()
    ensures one_flow { AreCounts (all_over File) (stream_of one_flow ∷ []) (record nothing_counted { sessions = 1; messages = 1; records = 1 }) }
    ensures torn { AreCounts (all_over File) (stream_of one_and_a_front ∷ []) (record nothing_counted { sessions = 1; messages = 1; records = 1; torn = 1 }) }
    ensures variable_names { AreCounts (all_over File) (stream_of variable_names ∷ []) (record nothing_counted { sessions = 1; messages = 1; records = 2; skipped = 1 }) }
    ensures empty_template { AreCounts (all_over File) (stream_of empty_template ∷ []) (record nothing_counted { sessions = 1; malformed = 1 }) }
    ensures two_templates { AreCounts (all_over File) (stream_of two_templates ∷ []) (record nothing_counted { sessions = 1; messages = 1; records = 2; redefined = 1 }) }
    ensures two_inputs { AreCounts (all_over File) (stream_of (first_template ++ first_template) ∷ stream_of second_template ∷ []) (record nothing_counted { sessions = 2; messages = 3; records = 3; disordered = 1 }) }
{}

/// All counts of streams and datagrams: a withdrawal over TCP, and over UDP; a stream that goes on with another version;
/// and a template that is defined anew and back.
pub fn streams_and_datagrams_are_counted()
    ensures withdrawn { AreCounts (all_over Tcp) (stream_of (one_flow ++ withdrawal ++ data_alone ++ one_flow) ∷ []) (record nothing_counted { sessions = 1; messages = 4; records = 2; skipped = 1 }) }
    ensures not_over_udp { AreCounts (all_over Udp) (from_peer (one_flow ∷ withdrawal ∷ data_alone ∷ one_flow ∷ []) ∷ []) (record nothing_counted { sessions = 1; messages = 4; records = 3; ignored = 1; disordered = 1 }) }
    ensures broken { AreCounts (all_over Tcp) (stream_of two_and_another_version ∷ []) (record nothing_counted { sessions = 1; messages = 2; records = 2; disordered = 1; broken = 1 }) }
    ensures defined_anew { AreCounts (all_over Tcp) (stream_of (first_template ++ second_template ++ first_template) ∷ []) (record nothing_counted { sessions = 1; messages = 3; records = 3; redefined = 2; disordered = 2 }) }
{}

/// The openings of these runs.
pub fn openings_are_counted()
    ensures one_flow { AreOpens (all_over File) (arrivals_of (over File) 0 (stream_of one_flow) ∷ []) 1 }
    ensures two_templates { AreOpens (all_over File) (arrivals_of (over File) 0 (stream_of two_templates) ∷ []) 2 }
    ensures defined_anew { AreOpens (all_over Tcp) (arrivals_of (over Tcp) 0 (stream_of (first_template ++ second_template ++ first_template)) ∷ []) 3 }
    ensures not_over_udp { AreOpens (all_over Udp) (arrivals_of (over Udp) 0 (from_peer (one_flow ∷ withdrawal ∷ data_alone ∷ one_flow ∷ [])) ∷ []) 1 }
    ensures withdrawn { AreOpens (all_over Tcp) (arrivals_of (over Tcp) 0 (stream_of (one_flow ++ withdrawal ++ data_alone ++ one_flow)) ∷ []) 2 }
    ensures three_domains { AreOpens (all_over File) (arrivals_of (over File) 0 (stream_of (first_template ++ in_domain_2 ++ in_domain_4)) ∷ []) 3 }
{}

/// All counts of datagrams whose export times are out of order: three definitions and five records; a definition and two
/// records at the end of its lifetime; and a message that is late, whose template stays unknown.
pub fn export_times_decide_what_is_counted()
    ensures by_time { AreCounts (all_over Udp) (from_peer (source_at_100 ∷ destination_at_200 ∷ next_hop_at_120 ∷ data_at_150 ∷ data_at_199 ∷ data_at_200 ∷ data_at_119 ∷ data_at_99 ∷ []) ∷ []) (record nothing_counted { sessions = 1; messages = 8; records = 4; skipped = 1; redefined = 2 }) }
    ensures lifetime { AreCounts (all_over Udp) (from_peer (source_at_100 ∷ data_at_1900 ∷ data_at_1901 ∷ []) ∷ []) (record nothing_counted { sessions = 1; messages = 3; records = 1; skipped = 1 }) }
    ensures late { AreCounts (all_over Udp) (from_peer (source_at_5000 ∷ flow_at_3200 ∷ other_at_3199 ∷ other_data_at_3200 ∷ []) ∷ []) (record nothing_counted { sessions = 1; messages = 3; records = 1; late = 1; skipped = 1 }) }
{}

/// Before each opening of a template that is defined anew and back none is in use; where both definitions stand in one
/// message, the first one's snapshot is, since the message still names it.
pub fn snapshots_in_use_are_counted()
    ensures first { IsInUse (all_over Tcp) (arrivals_of (over Tcp) 0 (stream_of (first_template ++ second_template ++ first_template))) 1 1 0 }
    ensures second { IsInUse (all_over Tcp) (arrivals_of (over Tcp) 0 (stream_of (first_template ++ second_template ++ first_template))) 2 1 0 }
    ensures third { IsInUse (all_over Tcp) (arrivals_of (over Tcp) 0 (stream_of (first_template ++ second_template ++ first_template))) 3 1 0 }
    ensures first_of_one_message { IsInUse (all_over Tcp) (arrivals_of (over Tcp) 0 (stream_of two_templates)) 1 1 0 }
    ensures second_of_one_message { IsInUse (all_over Tcp) (arrivals_of (over Tcp) 0 (stream_of two_templates)) 1 3 1 }
{}
