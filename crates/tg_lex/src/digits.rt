ghost use Rattle.std.specs.Prelude.{◌≡◌, ◌+◌, ◌-◌, ◌*◌, ◌^◌, ◌<◌, ◌≤◌, IsTrue, IfSome, IfNone, nat_lt, if◌then◌else◌, Some, None};
ghost use Rattle.std.specs.List.{list_all};
ghost use Rattle.tg_lex.specs.Bytes.{is_digit};
ghost use Rattle.tg_lex.specs.Grammar.{value};

// The value of digits, where it is below 2^64.
pub(crate) fn value_of(digits: &[u8]) -> Option<u64>
    requires { IsTrue (list_all is_digit digits.now) }
    ensures { result ≡ (if nat_lt (value digits.now) (2 ^ 64) then Some (value digits.now) else None) }
{
    let mut value = 0;
    for digit in digits {
        match with_digit(value, *digit) {
            Some(next) => value = next,
            None => return None,
        }
    }
    Some(value)
}

// The number that has one digit more.
fn with_digit(value: u64, digit: u8) -> Option<u64>
    requires { IsTrue (is_digit digit) }
    ensures some { IfSome result (λ v. v ≡ 10 * value + (digit - 48)) }
    ensures fits { IfSome result (λ v. v < 2 ^ 64) }
    ensures none { IfNone result (2 ^ 64 ≤ 10 * value + (digit - 48)) }
{
    value.checked_mul(10)?.checked_add(u64::from(digit - b'0'))
}
