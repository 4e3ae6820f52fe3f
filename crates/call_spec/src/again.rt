// The law of what the sink of an output of files holds.
ghost use Rattle.std.specs.Prelude.{◌≡◌, ◌≤◌, List, ℕ, None, Some, false, slice_get};
ghost use Rattle.std.specs.List.{AllByRecursion};
ghost use Rattle.arrival_spec.specs.Octets.{GivesOctets};
ghost use Rattle.config_spec.specs.declared.conf.Conf.{Conf};
ghost use Rattle.config_spec.specs.declared.conf.OutputConf.{OutputConf};
ghost use Rattle.config_spec.specs.declared.conf.OutputKind.TheVariants.{Ipfix};
ghost use Rattle.text_spec.specs.declared.element.Element.{Element};
ghost use Rattle.file_spec.specs.Limit.{items_within};
ghost use Rattle.result_spec.specs.Rows.{HaveOctetRows};
ghost use Rattle.call_spec.specs.declared.end.OutputFault.TheVariants.{Limit};
ghost use Rattle.call_spec.specs.Again.{IsReadAgain};
ghost use Rattle.call_spec.specs.Came.{RunCame};
ghost use Rattle.call_spec.specs.Leaves.{given_of, stage_wants, HoldsResult};

/// What a call leaves in the sink of an output of files is read as what came to that output: all of it where nothing ended the
/// output, and at its limit what came before the first message that needs a number too many.
pub fn what_an_output_of_files_holds_is_read_again()
    ensures whole { (conf : Conf) (rows : List Element) (run : RunCame) (j last : ℕ) (output : OutputConf) (old text : List ℕ)
        → slice_get conf.outputs j ≡ Some output → output.kind ≡ Ipfix last → last ≤ 65535 → HaveOctetRows conf.stages → AllByRecursion (AllByRecursion GivesOctets) (given_of run)
        → stage_wants run ≡ false → HoldsResult conf rows run j None (Some old) (Some text) → IsReadAgain conf run j (λ items. items) text }
    ensures limited { (conf : Conf) (rows : List Element) (run : RunCame) (j last : ℕ) (output : OutputConf) (old text : List ℕ)
        → slice_get conf.outputs j ≡ Some output → output.kind ≡ Ipfix last → last ≤ 65535 → HaveOctetRows conf.stages → AllByRecursion (AllByRecursion GivesOctets) (given_of run)
        → HoldsResult conf rows run j (Some Limit) (Some old) (Some text) → IsReadAgain conf run j (items_within last) text }
{}
