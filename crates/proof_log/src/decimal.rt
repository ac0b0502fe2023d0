//! Numbers in a line.
ghost use Rattle.std.specs.Prelude.{◌≡◌, ◌≤◌, ◌<◌, ◌+◌, ◌*◌, ◌∷◌, ◌++◌, decimal, IfSome, None};
ghost use Rattle.std.specs.Char.{digit_value};
ghost use Rattle.proof_log.specs.own.Reading.{IsDigit, BeginsDigit, BeginsNumber, Stops, HasNoNumber};

// The number with one digit more; none above 4,294,967,295.
fn with_digit(number: u32, digit: u8) -> Option<u32>
    requires { IsDigit digit }
    ensures some { IfSome result (λ n. (n ≡ number * 10 + digit_value digit) × (n ≤ 4294967295)) }
    ensures none { result ≡ None → 4294967295 < number * 10 + digit_value digit }
{
    let wide = u64::from(number) * 10 + u64::from(digit - 48);
    u32::try_from(wide).ok()
}

// The digit that the bytes begin with, and what follows it.
fn first_digit(bytes: &[u8]) -> Option<(u8, &[u8])>
    ensures some { IfSome result (λ r. (bytes.now ≡ r.0 ∷ r.1.now) × IsDigit r.0) }
    ensures none { result ≡ None → Stops bytes.now }
{
    match bytes.split_first() {
        Some((digit, rest)) if digit.is_ascii_digit() => Some((*digit, rest)),
        _ => None,
    }
}

/// The number that the bytes begin with, in digits without a leading zero and at most 4,294,967,295, and what follows it.
pub fn read_number(bytes: &[u8]) -> Option<(u32, &[u8])>
    ensures some { IfSome result (λ r. (bytes.now ≡ decimal r.0 ++ r.1.now) × Stops r.1.now) }
    ensures none { result ≡ None → HasNoNumber bytes.now }
{
    let mut rest = bytes;
    let mut number = 0;
    while let Some((digit, others)) = first_digit(rest) {
        number = with_digit(number, digit)?;
        rest = others;
    }
    let digits = bytes.len() - rest.len();
    if digits == 0 {
        return None;
    }
    if 1 < digits && bytes[0] == 48 {
        return None;
    }
    Some((number, rest))
}

/// What follows a blank, where it begins with a digit.
pub fn after_blank(bytes: &[u8]) -> Option<&[u8]>
    ensures some { IfSome result (λ tail. (bytes.now ≡ 32 ∷ tail.now) × BeginsDigit tail.now) }
    ensures none { result ≡ None → BeginsNumber bytes.now → ⊥ }
{
    let (first, rest) = bytes.split_first()?;
    let (second, _) = rest.split_first()?;
    if *first == 32 && second.is_ascii_digit() {
        Some(rest)
    } else {
        None
    }
}
