// The law of numbers.
ghost use Rattle.std.specs.Prelude.{◌≡◌, ◌≤◌, ◌<◌, ◌^◌, ℕ, List, Some};
ghost use Rattle.std.specs.Fmt.{decimal};
ghost use Rattle.words_spec.specs.Numbers.{number_between};

/// A number from the least to the most has one word, which is the text that it is printed as.
pub fn a_number_is_its_decimal_text()
    ensures printed { (least most n : ℕ) → n < 2 ^ 64 → least ≤ n → n ≤ most → number_between least most (decimal n) ≡ Some n }
    ensures only { (least most n : ℕ) (word : List ℕ) → most < 2 ^ 64 → number_between least most word ≡ Some n → word ≡ decimal n }
    ensures least { (least most n : ℕ) (word : List ℕ) → number_between least most word ≡ Some n → least ≤ n }
    ensures most { (least most n : ℕ) (word : List ℕ) → number_between least most word ≡ Some n → n ≤ most }
{}
