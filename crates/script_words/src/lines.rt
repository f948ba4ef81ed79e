// Where the first line ends.
ghost use Rattle.std.specs.Prelude.{◌≤◌, length};
ghost use Rattle.script_words.specs.Ends.{LacksEnd, StopsAt};

/// Where the first LF is, and the length where there is none. So many of the first bytes are known to have none.
pub fn end_from(text: &[u8], searched: usize) -> usize
    requires within { searched ≤ length text.now }
    requires lacks { LacksEnd text.now searched }
    ensures { StopsAt text.now result }
{
    for i in searched..text.len() {
        if text[i] == b'\n' {
            return i;
        }
    }
    text.len()
}
