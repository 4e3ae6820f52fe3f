// Texts of numbers.
ghost use Rattle.std.specs.Prelude.{◌≡◌, ◌≤◌, IfSome};
ghost use Rattle.config_spec.specs.Texts.{are_digits, number_text};

fn are_digits(octets: &[u8]) -> bool
    ensures { result ≡ are_digits octets.now }
{
    octets.iter().all(|octet| octet.is_ascii_digit())
}

/// The number of a text, where it is one up to the most.
pub fn number_text(most: u64, text: &str) -> Option<u64>
    ensures value { result ≡ number_text most text.now }
    ensures range { IfSome result (λ n. n ≤ most) }
{
    if !are_digits(text.as_bytes()) {
        return None;
    }
    match text.parse::<u64>() {
        Ok(number) => { if number <= most { Some(number) } else { None } }
        Err(_) => None,
    }
}
