//! Numbers of JSON.
ghost use Rattle.std.specs.Prelude.{◌≡◌, ◌<◌, ◌==◌, ◌^◌, IfSome, IsTrue, false, length, option_map, slice_index, true};
ghost use Rattle.std.specs.Str.Parse.{AllDigits, digits_value};
ghost use Rattle.serde_json.specs.Find.{as_i64};
ghost use Rattle.serde_json.specs.Read.{float_of, number_from, number_of};
ghost use Rattle.borrowed_json.specs.View.{number_view};

use fast_float::Numeral;

/// An integer of 64 bits, or a finite float. A number is an integer only if it is written without a fraction and without an exponent. An
/// integer that does not fit into 64 bits is a float, and so is `-0`.
#[derive(Clone, Copy, Drop)]
pub enum Number {
    Unsigned(u64),
    Negative(i64),
    Float(f64),
}

impl Number {
    /// The number as an `i64`, if it is an integer that fits; `None` for every float.
    pub(crate) fn as_i64(self) -> Option<i64>
        ensures { result ≡ as_i64 (number_view self) }
    {
        match self {
            Number::Unsigned(n) if n <= i64::MAX as u64 => Some(n as i64),
            Number::Negative(n) => Some(n),
            _ => None,
        }
    }

    fn nearest(is_negative: bool, numeral: &Numeral<'_>) -> Option<Number>
        ensures { option_map number_view result ≡ float_of is_negative numeral.now }
    {
        let float = numeral.to_float::<f64>(is_negative);
        if float.is_finite() {
            Some(Number::Float(float))
        } else {
            None
        }
    }

    fn unsigned(numeral: &Numeral<'_>) -> Option<Number>
        ensures { option_map number_view result ≡ number_from false numeral.now }
    {
        match numeral.to_u64() {
            Some(n) => Some(Number::Unsigned(n)),
            None => Number::nearest(false, numeral),
        }
    }

    fn negative(numeral: &Numeral<'_>) -> Option<Number>
        ensures { option_map number_view result ≡ number_from true numeral.now }
    {
        if let Some(n) = numeral.to_i64(true) {
            if n < 0 {
                return Some(Number::Negative(n));
            }
        }
        Number::nearest(true, numeral)
    }

    /// The number that the text of a JSON token denotes; `None` if the number is too large for a finite float.
    pub(crate) fn parse(text: &str) -> Option<Number>
        ensures { option_map number_view result ≡ number_of text.now }
    {
        let bytes = text.as_bytes();
        // Most numbers have only a few digits.
        if let Some(n) = few_digits(bytes) {
            return Some(Number::Unsigned(n));
        }
        if has_minus(bytes) {
            Number::negative(&Numeral::scan(&bytes[1..]))
        } else {
            Number::unsigned(&Numeral::scan(bytes))
        }
    }
}

/// The greatest length of a text whose digits `few_digits` reads one by one. A number of so many digits always fits into 64 bits.
const FEW: usize = 18;

/// The number whose digits are `bytes`; `None` if a byte is no digit, or if there are no bytes or more than `FEW`.
#[inline(always)]
fn few_digits(bytes: &[u8]) -> Option<u64>
    ensures { IfSome result (λ n. AllDigits 10 bytes.now × (0 < length bytes.now) × (n < 2 ^ 64) × (n ≡ digits_value 10 bytes.now)) }
{
    if bytes.is_empty() || bytes.len() > FEW {
        return None;
    }
    let mut number: u64 = 0;
    'bytes: for byte in bytes {
        if *byte < b'0' || *byte > b'9' {
            return None;
        }
        number = number * 10 + (*byte - b'0') as u64;
    }
    Some(number)
}

fn has_minus(bytes: &[u8]) -> bool
    ensures value { result ≡ (slice_index bytes.now 0 == 45) }
    ensures len { IsTrue result → 0 < length bytes.now }
{
    !bytes.is_empty() && bytes[0] == b'-'
}
