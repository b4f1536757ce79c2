// Sums in the fields of rows.
ghost use Rattle.std.specs.Prelude.{ℕ, IfSome, IfNone};
ghost use Rattle.round_reader.specs.Sums.{IsSum};

use rows::trimmed;
use tomo_base::SUM_LIMIT;

// How many digits a sum may have.
const DIGIT_LIMIT: usize = 20;

/// The sum in a field: what it holds without the spaces and tabs at its ends, where that is 1 to 20 digits with a value of at most
/// `SUM_LIMIT`.
pub(crate) fn sum_in(field: &[u8]) -> Option<u64>
    ensures some { IfSome result (IsSum field.now) }
    ensures none { IfNone result ((v : ℕ) → IsSum field.now v → ⊥) }
{
    let bytes = trimmed(field);
    if bytes.is_empty() || bytes.len() > DIGIT_LIMIT || bytes[0] == b'+' {
        return None;
    }
    let Ok(text) = str::from_utf8(bytes) else {
        return None;
    };
    match text.parse::<u64>() {
        Ok(sum) if sum <= SUM_LIMIT => Some(sum),
        _ => None,
    }
}
