// What example words ask for.
ghost use Rattle.std.specs.Prelude.{◌≡◌, [], ◌∷◌, codes};
ghost use Rattle.words_spec.specs.Commands.{command_of};
ghost use Rattle.words_spec.specs.Commands.Command.{Direct, Check, Collect, Generate};
ghost use Rattle.words_spec.specs.Examples.{AreRefused, bad_commands, bad_names, bad_numbers, bad_options};

/// The four commands.
pub fn each_command_has_its_words()
    ensures direct { command_of (codes "direct" ∷ codes "in" ∷ codes "out" ∷ []) ≡ Direct (codes "in") (codes "out") }
    ensures check { command_of (codes "check" ∷ codes "-c" ∷ codes "file" ∷ []) ≡ Check (codes "file") }
    ensures collect { command_of (codes "collect" ∷ codes "-c" ∷ codes "file" ∷ []) ≡ Collect (codes "file") }
    ensures generate { command_of (codes "generate" ∷ codes "7" ∷ codes "3" ∷ []) ≡ Generate 7 3 }
{}

/// The name of a description comes behind `-c`, behind `--config`, or joined to it.
pub fn a_description_is_named_in_three_ways()
    ensures long { command_of (codes "check" ∷ codes "--config" ∷ codes "file" ∷ []) ≡ Check (codes "file") }
    ensures joined { command_of (codes "check" ∷ codes "--config=file" ∷ []) ≡ Check (codes "file") }
    ensures collect_long { command_of (codes "collect" ∷ codes "--config" ∷ codes "file" ∷ []) ≡ Collect (codes "file") }
    ensures collect_joined { command_of (codes "collect" ∷ codes "--config=file" ∷ []) ≡ Collect (codes "file") }
    ensures equals { command_of (codes "check" ∷ codes "--config==" ∷ []) ≡ Check (codes "=") }
{}

/// A name is any word that has an octet and doesn't begin with `-`.
pub fn a_name_may_be_a_word_of_the_command_line()
    ensures words { command_of (codes "direct" ∷ codes "check" ∷ codes "a-" ∷ []) ≡ Direct (codes "check") (codes "a-") }
    ensures same { command_of (codes "direct" ∷ codes "a" ∷ codes "a" ∷ []) ≡ Direct (codes "a") (codes "a") }
{}

/// The least and the greatest numbers.
pub fn numbers_have_their_ranges()
    ensures least { command_of (codes "generate" ∷ codes "0" ∷ codes "1" ∷ []) ≡ Generate 0 1 }
    ensures greatest { command_of (codes "generate" ∷ codes "18446744073709551615" ∷ codes "1000000" ∷ []) ≡ Generate 18446744073709551615 1000000 }
{}

/// All other words are refused.
pub fn all_other_words_are_refused()
    ensures commands { AreRefused bad_commands }
    ensures names { AreRefused bad_names }
    ensures options { AreRefused bad_options }
    ensures numbers { AreRefused bad_numbers }
{}
