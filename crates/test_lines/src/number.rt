// Reading decimal numbers.
ghost use Rattle.std.specs.Prelude.{◌≡◌, ◌+◌, ◌*◌, ◌<◌, ◌^◌, IfSome, IsTrue, Ok};
ghost use Rattle.std.specs.Char.{digit_value};
ghost use Rattle.std.specs.Option.{SomeIff};
ghost use Rattle.std.specs.Ordering.{partial_le};
ghost use Rattle.std.specs.Str.Parse.{IsNumeral, digits_value, signed_digits_value};

// The number with one digit more.
fn with_digit(n: u64, byte: u8) -> Option<u64>
    ensures { let next = n * 10 + digit_value byte in SomeIff result ((digit_value byte < 10) × (next < 2 ^ 64)) next }
{
    let digit = char::from(byte).to_digit(10)?;
    n.checked_mul(10)?.checked_add(u64::from(digit))
}

// A number of 64 bits; it has at least one digit.
fn decimal(s: &[u8]) -> Option<u64>
    ensures { SomeIff result (IsNumeral 10 s.now × (digits_value 10 s.now < 2 ^ 64)) (digits_value 10 s.now) }
{
    if s.is_empty() {
        return None;
    }
    let mut n = 0;
    for byte in s {
        n = with_digit(n, *byte)?;
    }
    Some(n)
}

// A number of some type.
pub fn unsigned<T: TryFrom<u64>>(s: &[u8]) -> Option<T>
where
    T::Error: Drop,
    ensures { IfSome result (λ n. IsNumeral 10 s.now × T.try_from_gives (digits_value 10 s.now) (Ok n)) }
{
    T::try_from(decimal(s)?).ok()
}

// A number of some type that is at most most.
pub fn up_to<T: TryFrom<u64> + PartialOrd + Copy>(s: &[u8], most: T) -> Option<T>
where
    T::Error: Drop,
    ensures value { IfSome result (λ n. IsNumeral 10 s.now × T.try_from_gives (digits_value 10 s.now) (Ok n)) }
    ensures upper_bound { IfSome result (λ n. IsTrue (partial_le T.partial_cmp n most)) }
{
    let n = unsigned(s)?;
    if n <= most { Some(n) } else { None }
}

// A signed number: a minus before its digits where it is below 0, and else no sign.
pub fn signed(s: &[u8]) -> Option<i64>
    ensures { IfSome result (λ n. n ≡ signed_digits_value 10 s.now) }
{
    match s.strip_prefix(b"-") {
        Some(digits) => match decimal(digits)? {
            0 => None,
            n => 0i64.checked_sub_unsigned(n),
        },
        None => unsigned(s),
    }
}
