// Fields without the blanks at their ends.
ghost use Rattle.std.specs.Prelude.{◌≡◌, reverse};
ghost use Rattle.rows.specs.Blanks as spec;
ghost use Rattle.rows.specs.Blanks.{after_blanks};

fn is_blank(byte: u8) -> bool
    ensures { result ≡ spec.is_blank byte }
{
    byte == b' ' || byte == b'\t'
}

// The bytes from the first one on that is no blank.
fn without_first_blanks(field: &[u8]) -> &[u8]
    ensures { result.now ≡ after_blanks field.now }
{
    let mut rest = field;
    while let [first, tail @ ..] = rest
        && is_blank(*first)
    {
        rest = tail;
    }
    rest
}

// The bytes up to the last one that is no blank.
fn without_last_blanks(field: &[u8]) -> &[u8]
    ensures { result.now ≡ reverse (after_blanks (reverse field.now)) }
{
    let mut rest = field;
    while let [head @ .., last] = rest
        && is_blank(*last)
    {
        rest = head;
    }
    rest
}

/// The field without the spaces and tabs at its ends. It takes no memory.
pub fn trimmed(field: &[u8]) -> &[u8]
    ensures { result.now ≡ spec.trimmed field.now }
{
    without_last_blanks(without_first_blanks(field))
}
