// The values of options.
ghost use Rattle.std.specs.Prelude.{◌≡◌, ◌≤◌, IfSome, option_map};
ghost use Rattle.live_options.specs.Words.{choice_within, is_number, number_of, number_within, value_within};

/// The most digits that a value has.
const MOST_DIGITS: usize = 13;

// Whether a text is 1 to 13 decimal digits.
fn is_number(text: &str) -> bool
    ensures { result ≡ is_number text.now }
{
    if text.is_empty() || text.len() > MOST_DIGITS {
        return false;
    }
    text.bytes().all(|byte| byte.is_ascii_digit())
}

// The number that 1 to 13 decimal digits spell.
fn number_of(text: &str) -> Option<u64>
    ensures { result ≡ number_of text.now }
{
    if is_number(text) {
        text.parse().ok()
    } else {
        None
    }
}

// The number that a text spells, from the least to the most; none where it isn't such a number.
fn number_within(text: &str, least: u64, most: u64) -> Option<u64>
    ensures value { result ≡ number_within least most text.now }
    ensures few { IfSome result (λ n. n ≤ most) }
{
    let value = number_of(text)?;
    if least <= value && value <= most {
        Some(value)
    } else {
        None
    }
}

/// The value of an option, from the least to the most: the default where it isn't given, and none where it isn't a number within these.
pub fn value_within(given: Option<&str>, default: u64, least: u64, most: u64) -> Option<u64>
    ensures { result ≡ value_within default least most (option_map (λ text. text.now) given.entry) }
{
    match given {
        None => Some(default),
        Some(text) => number_within(text, least, most),
    }
}

/// The same of an option without a default: no number where it isn't given, and none at all where it isn't a number within these.
pub fn choice_within(given: Option<&str>, least: u32, most: u32) -> Option<Option<u32>>
    ensures { result ≡ choice_within least most (option_map (λ text. text.now) given.entry) }
{
    match given {
        None => Some(None),
        Some(text) => {
            let value = number_within(text, u64::from(least), u64::from(most))?;
            Some(Some(value as u32))
        }
    }
}
