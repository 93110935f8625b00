ghost use Rattle.std.specs.Prelude.{◌≡◌, ◌-◌, ◌^◌, min, true, All};
ghost use Rattle.std.specs.Char.{is_ascii_digit};
ghost use Rattle.std.specs.Str.Parse.{digits_value};

/// The number that the decimal digits write, or 2^64 - 1 where it is larger.
pub fn saturating_value(digits: &[u8]) -> u64
    requires { All (λ c. is_ascii_digit c ≡ true) digits.now }
    ensures { result ≡ min (digits_value 10 digits.now) (2 ^ 64 - 1) }
{
    let mut value: u64 = 0;
    for digit in digits {
        value = value
            .saturating_mul(10)
            .saturating_add(u64::from(*digit - b'0'));
    }
    value
}
