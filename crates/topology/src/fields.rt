// Names in the fields of rows.
ghost use Rattle.std.specs.Prelude.{◌≡◌, false, IfSome, IfNone, IsTrue};
ghost use Rattle.rows.specs.Blanks as spec;
ghost use Rattle.topology.specs.Names.{is_name};

use rows::trimmed;

// How many bytes a name may have.
const NAME_LIMIT: usize = 64;

/// The bytes as a name, where they are one: 1 to 64 bytes of UTF-8. It takes no memory.
pub fn as_name(bytes: &[u8]) -> Option<&str>
    ensures name { IfSome result (λ name. (name.now ≡ bytes.now) × IsTrue (is_name name.now)) }
    ensures none { IfNone result (is_name bytes.now ≡ false) }
{
    if bytes.is_empty() || bytes.len() > NAME_LIMIT {
        return None;
    }
    str::from_utf8(bytes).ok()
}

/// The name in a field: what it holds without the spaces and tabs at its ends, where that is one.
pub(crate) fn name_in(field: &[u8]) -> Option<&str>
    ensures name { IfSome result (λ name.
        (name.now ≡ spec.trimmed field.now) × IsTrue (is_name name.now)) }
    ensures none { IfNone result (is_name (spec.trimmed field.now) ≡ false) }
{
    as_name(trimmed(field))
}
