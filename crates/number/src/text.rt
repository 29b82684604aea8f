//! From text to a number and back.
ghost use Rattle.std.specs.Prelude.{◌≡◌, ◌≤◌, leb, length, Some, None};
ghost use Rattle.layout.specs.Bytes.{pick};
ghost use Rattle.layout.specs.Number.{more, whole, minus, number, text};

use arrayvec::ArrayString;
use itoa::Buffer;

// The number that digits say, of which there are few enough for it to fit. Not by `str::parse`, which takes a "+" too and
// asks for text.
#[tactic(auto, using(crate::proofs::Values::digit_more), unfolding(layout::specs::Number::more))]
fn all_digits(v: &[u8]) -> Option<u64>
    requires { length v.now ≤ 19 }
    ensures { result ≡ more 0 v.now }
{
    let mut n: u64 = 0;
    for b in v {
        if !b.is_ascii_digit() {
            return None;
        }
        n = 10 * n + u64::from(*b - b'0');
    }
    Some(n)
}

// The whole number that bytes say, if 19 digits do: a longer value is told by its length alone.
#[tactic(auto, unfolding(layout::specs::Number::whole, layout::specs::Number::more))]
fn digits_of(v: &[u8]) -> Option<u64>
    ensures { result ≡ pick (leb (length v.now) 19) (whole v.now) None }
{
    match v {
        _ if 19 < v.len() => None,
        [b'0'] => Some(0),
        [] | [b'0', ..] => None,
        _ => all_digits(v),
    }
}

// n with a minus before it: there is no -0.
#[tactic(auto, unfolding(layout::specs::Number::minus, layout::specs::Number::signed64, layout::specs::Number::holds))]
fn negated(n: u64) -> Option<i64>
    ensures { result ≡ minus (Some n) }
{
    if n == 0 {
        return None;
    }
    0i64.checked_sub_unsigned(n)
}

/// The number that a value is the decimal text of, if it is one's.
#[tactic(auto, using(crate::proofs::Values::parse_laws))]
pub fn parse(v: &[u8]) -> Option<i64>
    ensures { result ≡ number v.now }
{
    match v {
        [b'-', digits @ ..] => negated(digits_of(digits)?),
        _ => i64::try_from(digits_of(v)?).ok(),
    }
}

/// A number's decimal text.
#[tactic(auto, using(crate::proofs::Texts::text_decimal))]
pub fn text_of(z: i64) -> ArrayString<20>
    ensures { result.bytes ≡ text z }
{
    let mut buffer = Buffer::new();
    let mut text = ArrayString::new();
    text.push_str(buffer.format(z));
    text
}
