// Decimal numbers.
ghost use Rattle.std.specs.Prelude.{◌≡◌};
ghost use Rattle.script.specs.Numbers.{digit_on, digits_on, number_of, Decimal};

// One digit more, if the number stays below 2^64.
fn with_digit(n: u64, byte: u8) -> Option<u64>
    ensures { result ≡ digit_on n byte }
{
    let digit = char::from(byte).to_digit(10)?;
    n.checked_mul(10)?.checked_add(u64::from(digit))
}

// A loop with `?`, since the check did not prove the same `try_fold`.
#[tactic(auto, using(crate::proofs::Steps::digit_facts))]
fn digits(bytes: &[u8]) -> Option<u64>
    ensures { result ≡ digits_on 0 bytes.now }
{
    let mut n = 0;
    for byte in bytes {
        n = with_digit(n, *byte)?;
    }
    Some(n)
}

// A number below 2^64 with no leading zero.
#[tactic(auto, using(crate::proofs::NumberLaw::decimal_law))]
pub fn number(bytes: &[u8]) -> Option<u64>
    ensures value { result ≡ number_of bytes.now }
    ensures decimal { Decimal bytes.now result }
{
    if matches!(bytes, [] | [b'0', _, ..]) {
        return None;
    }
    digits(bytes)
}
