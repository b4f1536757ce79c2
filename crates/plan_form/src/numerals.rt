// Numbers as they are spelled in plans and words.
ghost use Rattle.std.specs.Prelude.{ℕ, ◌≡◌, ◌≤◌, ◌^◌, decimal, IfSome, IfNone};
ghost use Rattle.std.specs.Str.Parse.{AllDigits, digits_value};
ghost use Rattle.plan_form.specs.Parts.{IsSmall};
ghost use Rattle.plan_form.specs.Values.{Spells};

// The value of decimal digits, where it is below 2^32; none where another byte stands among them.
fn value_of(digits: &[u8]) -> Option<u32>
    ensures some { IfSome result (λ n. AllDigits 10 digits.now × (digits_value 10 digits.now ≡ n) × IsSmall n) }
    ensures none { IfNone result (AllDigits 10 digits.now → 2 ^ 32 ≤ digits_value 10 digits.now) }
{
    let mut value: u64 = 0;
    for &byte in digits {
        if byte < b'0' || byte > b'9' {
            return None;
        }
        value = value * 10 + (byte - b'0') as u64;
        if value > u32::MAX as u64 {
            return None;
        }
    }
    Some(value as u32)
}

/// The number that is spelled so: digits without a leading zero, `0` itself excepted, with a value below 2^32. It takes no memory.
pub fn number(text: &[u8]) -> Option<u32>
    ensures { Spells IsSmall decimal text.now result }
{
    if text.is_empty() || text[0] == b'0' && text.len() > 1 {
        return None;
    }
    value_of(text)
}
