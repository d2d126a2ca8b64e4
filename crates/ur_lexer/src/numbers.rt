//! Numbers from their digits.
ghost use Rattle.std.specs.Prelude.{◌≡◌, ◌<◌, ◌≤◌, ◌^◌, IfSome};
ghost use Rattle.ur_lexer.specs.Numbers as spec;

/// The greatest integer.
pub const LARGEST: u64 = 9223372036854775807;

/// The number that the digits write, where it is at most `most`.
pub fn number(digits: &[u8], most: u64) -> Option<u64>
    ensures value { result ≡ spec.number_of digits.now most }
    ensures small { IfSome result (λ v. v ≤ most) }
{
    let mut total: u64 = 0;
    'digits: for digit in digits {
        let next = u128::from(total) * 10 + u128::from((*digit).saturating_sub(48));
        if u128::from(most) < next {
            return None;
        }
        total = next as u64;
    }
    Some(total)
}
