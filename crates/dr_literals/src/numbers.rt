ghost use Rattle.std.specs.Prelude.{◌≡◌, ◌≤◌, ◌^◌, ◌+◌, ◌*◌, ◌-◌, true, MatchOption};
ghost use Rattle.dr_literals.specs.Literals.{is_digit, is_plain, number_word};

/// The number that a word writes, in decimal without leading zeros.
pub fn number_word(word: &str) -> Option<u64>
    ensures { result ≡ number_word word.now }
{
    let digits = word.as_bytes();
    if !is_plain(digits) {
        return None;
    }
    let mut number: u64 = 0;
    for digit in digits {
        number = with_digit(number, *digit)?;
    }
    Some(number)
}

/// The number with one more digit behind it.
fn with_digit(number: u64, digit: u8) -> Option<u64>
    ensures { MatchOption result
        (is_digit digit ≡ true → 2 ^ 64 ≤ 10 * number + (digit - 48))
        (λ n. (is_digit digit ≡ true) × (n ≡ 10 * number + (digit - 48))) }
{
    if !digit.is_ascii_digit() {
        return None;
    }
    let tens = number.checked_mul(10)?;
    tens.checked_add(u64::from(digit - b'0'))
}

/// Whether digits are no more than a number needs: one alone, or some that begin with no zero.
fn is_plain(digits: &[u8]) -> bool
    ensures { result ≡ is_plain digits.now }
{
    match digits {
        [] => false,
        [_] => true,
        [first, ..] => *first != b'0',
    }
}
