// The words of a line.
ghost use Rattle.std.specs.Prelude.{◌≡◌};
ghost use Rattle.description.specs.Words.{is_blank, first_word, after_word};

fn is_blank(byte: u8) -> bool
    ensures { result ≡ is_blank byte }
{
    byte == b' ' || byte == b'\t' || byte == b'\r'
}

// The first word, empty where there is none, and what follows it.
pub(crate) fn split_word(bytes: &[u8]) -> (&[u8], &[u8])
    ensures word { result.0.now ≡ first_word bytes.now }
    ensures rest { result.1.now ≡ after_word bytes.now }
{
    let start = bytes.iter().position(|byte| !is_blank(*byte));
    let trimmed = &bytes[start.unwrap_or(bytes.len())..];
    let end = trimmed.iter().position(|byte| is_blank(*byte));
    trimmed.split_at(end.unwrap_or(trimmed.len()))
}
