ghost use Rattle.std.specs.Prelude.{◌≡◌, IfSome};
ghost use Rattle.pt_fields.specs.Numbers.{read_number, is_digit, IsNumber};

fn is_digit(byte: u8) -> bool
    ensures { result ≡ is_digit byte }
{
    matches!(byte, b'0'..=b'9')
}

/// Returns the number that a field spells: 1 to 10 digits without a leading zero, or `0`.
#[inline(always)]
pub fn read_number(field: &[u8]) -> Option<u64>
    ensures value { result ≡ read_number field.now }
    ensures fits { IfSome result IsNumber }
{
    if field.is_empty() || field.len() > 10 {
        return None;
    }
    if field.len() > 1 && field[0] == b'0' {
        return None;
    }
    let mut number = 0;
    for byte in field {
        if !is_digit(*byte) {
            return None;
        }
        number = 10 * number + u64::from(*byte - b'0');
    }
    Some(number)
}
