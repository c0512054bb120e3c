// Numbers in lowercase hexadecimal digits.
#![tactic(auto)]

ghost use Rattle.std.specs.Prelude.{◌≡◌, ◌+◌, ◌^◌, ◌<◌, ◌≤◌, get_or, IfSome};
ghost use Rattle.hexadecimal.specs.Hexadecimal.{digit_of};
ghost use Rattle.hexadecimal.specs.Hexadecimal.{digit as Hexadecimal·digit};
ghost use Rattle.hexadecimal.specs.Hexadecimal.{number as Hexadecimal·number};
ghost use Rattle.hexadecimal.specs.Hexadecimal.{signed as Hexadecimal·signed};

// What a digit stands for.
pub fn digit(b: u8) -> Option<u8>
    ensures value { result ≡ Hexadecimal·digit b }
    ensures bound { IfSome result (λ d. d < 16) }
{
    match b {
        b'0'..=b'9' => Some(b - b'0'),
        b'a'..=b'f' => Some(b - b'a' + 10),
        _ => None,
    }
}

// The digit at a place, 0 where there is none.
fn digit_at(text: &[u8], at: usize) -> u8
    ensures value { result ≡ digit_of (get_or text.now at 0) }
    ensures bound { result < 16 }
{
    text.get(at).copied().and_then(digit).unwrap_or(0)
}

// The number of the digits at a place, with 0 where there is none.
pub fn number(text: &[u8], at: usize, digits: usize) -> u64
    requires { (digits ≤ 16) × (at + digits < 2 ^ 64) }
    ensures value { result ≡ Hexadecimal·number text.now at digits }
    ensures bound { result < 16 ^ digits }
{
    let mut n: u64 = 0;
    for i in 0..digits {
        n = 16 * n + digit_at(text, at + i) as u64;
    }
    n
}

// The number of the 4 digits at a place, in two's complement.
pub fn signed(text: &[u8], at: usize) -> i16
    requires { at + 4 < 2 ^ 64 }
    ensures { result ≡ Hexadecimal·signed (Hexadecimal·number text.now at 4) }
{
    (number(text, at, 4) as u16).cast_signed()
}
