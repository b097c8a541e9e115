ghost use Rattle.std.specs.Prelude.{◌≡◌};
ghost use Rattle.std.specs.Str.{all_ascii_digits};
ghost use Rattle.cmd_words.specs.Numbers.{spells_number as the_spells_number, number_of};

/// Whether all the bytes are decimal digits.
fn are_digits(bytes: &[u8]) -> bool
    ensures { result ≡ all_ascii_digits bytes.now }
{
    match bytes {
        [] => true,
        [first, rest @ ..] => first.is_ascii_digit() && are_digits(rest),
    }
}

fn spells_number(bytes: &[u8]) -> bool
    ensures { result ≡ the_spells_number bytes.now }
{
    match bytes {
        [] => false,
        digits => digits.len() <= 18 && are_digits(digits),
    }
}

/// The number that a word spells by 1 to 18 decimal digits.
pub fn number(word: &str) -> Option<u64>
    ensures { result ≡ number_of word.now }
{
    if spells_number(word.as_bytes()) {
        word.parse::<u64>().ok()
    } else {
        None
    }
}
