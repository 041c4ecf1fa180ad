// Arithmetic on 64-bit words.
ghost use Rattle.std.specs.Prelude.{◌≡◌};
ghost use Rattle.wave_base.specs.Word.{wrapped_sum, wrapped_difference, wrapped_product, wrapped_quotient, lesser, greater};

/// `a + b` modulo 2^64.
pub fn add(a: i64, b: i64) -> i64
    ensures { result ≡ wrapped_sum a b }
{
    a.wrapping_add(b)
}

/// `a - b` modulo 2^64.
pub fn sub(a: i64, b: i64) -> i64
    ensures { result ≡ wrapped_difference a b }
{
    a.wrapping_sub(b)
}

/// `a * b` modulo 2^64.
pub fn mul(a: i64, b: i64) -> i64
    ensures { result ≡ wrapped_product a b }
{
    a.wrapping_mul(b)
}

/// `a / b` toward zero: 0 for the divisor 0, and the least number for the least number divided by -1.
pub fn quot(a: i64, b: i64) -> i64
    ensures { result ≡ wrapped_quotient a b }
{
    if b == 0 {
        0
    } else if b == -1 {
        sub(0, a)
    } else {
        a / b
    }
}

/// The lesser of two words.
pub fn min(a: i64, b: i64) -> i64
    ensures { result ≡ lesser a b }
{
    if b < a { b } else { a }
}

/// The greater of two words.
pub fn max(a: i64, b: i64) -> i64
    ensures { result ≡ greater a b }
{
    if a < b { b } else { a }
}
