// The numbers that a word may write.
ghost use Rattle.std.specs.Prelude.{◌≡◌, ◌^◌, ◌<◌, IfSome};
ghost use Rattle.description.specs.Numbers.{unsigned_number, signed_number};

const MOST_DIGITS: usize = 9;

pub(crate) fn unsigned(word: &[u8]) -> Option<u32>
    ensures value { result ≡ unsigned_number word.now }
    ensures small { IfSome result (λ n. n < 10 ^ 9) }
{
    if word.is_empty() || word.len() > MOST_DIGITS {
        return None;
    }
    let mut number = 0;
    for byte in word {
        if !byte.is_ascii_digit() {
            return None;
        }
        number = number * 10 + u32::from(*byte - b'0');
    }
    Some(number)
}

pub(crate) fn signed(word: &[u8]) -> Option<i32>
    ensures { result ≡ signed_number word.now }
{
    match word {
        [b'-', digits @ ..] => Some(-(unsigned(digits)? as i32)),
        _ => Some(unsigned(word)? as i32),
    }
}
