// The words of the command line.
ghost use Rattle.std.specs.Prelude.{◌≡◌, ◌≤◌, ◌&&◌, ◌||◌, None, Some, IfSome, MatchOption, bytes_eq, map, string_bytes};
ghost use Rattle.words_spec.specs.Names.{is_name, is_option, option_rest, if_name, file_name};
ghost use Rattle.words_spec.specs.Numbers.{has_needless_zero, number_between};
ghost use Rattle.words_spec.specs.Commands.{direct_word, check_word, collect_word, generate_word, direct_of, of_file, stream_number, stream_count, generate_of, command_of};
ghost use Rattle.words_spec.specs.Commands.Command.{Check, Collect};
ghost use Rattle.collector_top.specs.Words.{HasCount, told};

use setting_texts::number_text;

/// The first octet of an option.
const DASH: u8 = b'-';

/// How many messages are generated at most.
const MOST_MESSAGES: u64 = 1_000_000;

/// What words ask for.
#[derive(Clone, Copy, PartialEq, Eq)]
pub enum Command<'a> {
    /// `direct IN OUT`
    Direct { place: &'a str, out: &'a str },
    /// `check -c FILE`
    Check { file: &'a str },
    /// `collect -c FILE`
    Collect { file: &'a str },
    /// `generate NUMBER COUNT`
    Generate { number: u64, count: u32 },
    /// All other words.
    Refused,
}

/// Whether a word names a file.
fn is_name(word: &str) -> bool
    ensures { result ≡ is_name word.now }
{
    match word.as_bytes() {
        [first, ..] => *first != DASH,
        [] => false,
    }
}

#[tactic(auto, unfolding(words_spec::specs::Names::short_option, words_spec::specs::Names::long_option))]
fn is_option(word: &str) -> bool
    ensures { result ≡ is_option word.now }
{
    word == "-c" || word == "--config"
}

/// What follows `--config=`.
fn option_rest(word: &str) -> Option<&str>
    ensures { MatchOption result (option_rest word.now ≡ None) (λ rest. option_rest word.now ≡ Some rest.now) }
{
    word.strip_prefix("--config=")
}

/// A word that names a file.
fn if_name(word: &str) -> Option<&str>
    ensures { MatchOption result (if_name word.now ≡ None) (λ name. if_name word.now ≡ Some name.now) }
{
    if is_name(word) { Some(word) } else { None }
}

/// The name of FILE in `-c FILE`, `--config FILE` or `--config=FILE`. None for all other words.
fn file_name(words: &[String]) -> Option<&str>
    ensures { MatchOption result (file_name (map string_bytes words.now) ≡ None) (λ name. file_name (map string_bytes words.now) ≡ Some name.now) }
{
    match words {
        [both] => if_name(option_rest(both.as_str())?),
        [option, name] => {
            if is_option(option.as_str()) {
                if_name(name.as_str())
            } else {
                None
            }
        }
        _ => None,
    }
}

/// Whether a 0 stands before another digit.
fn has_needless_zero(word: &str) -> bool
    ensures { result ≡ has_needless_zero word.now }
{
    match word.as_bytes() {
        [first, _, ..] => *first == b'0',
        _ => false,
    }
}

/// The number of a word in decimal digits without a needless zero, from the least to the most. None for all other
/// words.
fn number_between(least: u64, most: u64, word: &str) -> Option<u64>
    ensures value { result ≡ number_between least most word.now }
    ensures least { IfSome result (λ n. least ≤ n) }
    ensures most { IfSome result (λ n. n ≤ most) }
{
    if has_needless_zero(word) {
        return None;
    }
    match number_text(most, word) {
        Some(number) => { if number >= least { Some(number) } else { None } }
        None => None,
    }
}

/// NUMBER, up to 2^64 - 1.
fn stream_number(word: &str) -> Option<u64>
    ensures { result ≡ stream_number word.now }
{
    number_between(0, u64::MAX, word)
}

/// COUNT, from 1 to 1,000,000.
fn stream_count(word: &str) -> Option<u32>
    ensures value { result ≡ stream_count word.now }
    ensures within { IfSome result (λ n. (1 ≤ n) × (n ≤ 1000000)) }
{
    match number_between(1, MOST_MESSAGES, word) {
        Some(count) => Some(count as u32),
        None => None,
    }
}

/// What two names ask for.
fn direct(words: &[String]) -> Command<'_>
    ensures command { told result ≡ direct_of (map string_bytes words.now) }
    ensures within { HasCount result }
{
    let [place, out] = words else {
        return Command::Refused;
    };
    let place = place.as_str();
    let out = out.as_str();
    if is_name(place) && is_name(out) {
        Command::Direct { place, out }
    } else {
        Command::Refused
    }
}

/// What two numbers ask for.
fn generate(words: &[String]) -> Command<'_>
    ensures command { told result ≡ generate_of (map string_bytes words.now) }
    ensures within { HasCount result }
{
    let [number, count] = words else {
        return Command::Refused;
    };
    match (stream_number(number.as_str()), stream_count(count.as_str())) {
        (Some(number), Some(count)) => Command::Generate { number, count },
        _ => Command::Refused,
    }
}

#[tactic(auto, unfolding(words_spec::specs::Commands::direct_word))]
fn is_direct(word: &str) -> bool
    ensures { result ≡ bytes_eq word.now direct_word }
{
    word == "direct"
}

#[tactic(auto, unfolding(words_spec::specs::Commands::check_word))]
fn is_check(word: &str) -> bool
    ensures { result ≡ bytes_eq word.now check_word }
{
    word == "check"
}

#[tactic(auto, unfolding(words_spec::specs::Commands::collect_word))]
fn is_collect(word: &str) -> bool
    ensures { result ≡ bytes_eq word.now collect_word }
{
    word == "collect"
}

#[tactic(auto, unfolding(words_spec::specs::Commands::generate_word))]
fn is_generate(word: &str) -> bool
    ensures { result ≡ bytes_eq word.now generate_word }
{
    word == "generate"
}

/// What the name of a description asks for, behind `check`.
fn check(words: &[String]) -> Command<'_>
    ensures command { told result ≡ of_file Check (file_name (map string_bytes words.now)) }
    ensures within { HasCount result }
{
    match file_name(words) {
        Some(file) => Command::Check { file },
        None => Command::Refused,
    }
}

/// And behind `collect`.
fn collect(words: &[String]) -> Command<'_>
    ensures command { told result ≡ of_file Collect (file_name (map string_bytes words.now)) }
    ensures within { HasCount result }
{
    match file_name(words) {
        Some(file) => Command::Collect { file },
        None => Command::Refused,
    }
}

/// What words ask for.
pub fn command_of(words: &[String]) -> Command<'_>
    ensures command { told result ≡ command_of (map string_bytes words.now) }
    ensures within { HasCount result }
{
    let Some((first, words)) = words.split_first() else {
        return Command::Refused;
    };
    let first = first.as_str();
    if is_direct(first) {
        direct(words)
    } else if is_check(first) {
        check(words)
    } else if is_collect(first) {
        collect(words)
    } else if is_generate(first) {
        generate(words)
    } else {
        Command::Refused
    }
}
