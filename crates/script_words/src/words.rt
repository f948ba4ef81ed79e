// Parts of a line.
ghost use Rattle.std.specs.Prelude.{◌≡◌, ◌==◌, MatchOption, None, Some, position};
ghost use Rattle.script_words.specs.Words.{behind, cut, nothing_behind};

/// What is behind these bytes at the front.
pub fn behind<'a>(front: &[u8], line: &'a [u8]) -> Option<&'a [u8]>
    ensures { MatchOption result (behind front.now line.now ≡ None)
        (λ rest. behind front.now line.now ≡ Some rest.now) }
{
    line.strip_prefix(front)
}

/// Whether a line is these bytes.
pub fn is_line(whole: &[u8], line: &[u8]) -> bool
    ensures { result ≡ nothing_behind (behind whole.now line.now) }
{
    match behind(whole, line) {
        Some(rest) => rest.is_empty(),
        None => false,
    }
}

/// Where the first space is.
pub fn space_at(line: &[u8]) -> Option<usize>
    ensures { result ≡ position (λ c. c == 32) line.now }
{
    line.iter().position(|c| *c == b' ')
}

/// What is before the first space, and what is behind it.
pub fn cut(line: &[u8]) -> Option<(&[u8], &[u8])>
    ensures { MatchOption result (cut line.now ≡ None) (λ parts. cut line.now ≡ Some (parts.0.now, parts.1.now)) }
{
    let end = space_at(line)?;
    Some((&line[..end], &line[end + 1..]))
}
