// Texts that a mark cuts in two.
ghost use Rattle.std.specs.Prelude.{◌≡◌, ◌<◌, option_map};
ghost use Rattle.config_spec.specs.Texts.{cut};

/// What stands before and after the first mark.
pub fn cut<'a>(mark: char, text: &'a str) -> Option<(&'a str, &'a str)>
    requires { mark < 128 }
    ensures { option_map (λ parts. (parts.0.now, parts.1.now)) result ≡ cut mark text.now }
{
    text.split_once(mark)
}
