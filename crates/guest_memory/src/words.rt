// The words of atomic accesses.
ghost use Rattle.std.specs.Prelude.{◌≡◌, ◌+◌, ◌≤◌, true, false, length, take, drop};
ghost use Rattle.guest_memory.specs.Words as words;

/// How many bytes an atomic access has: 8 where it is wide, else 4.
pub fn width_of(wide: bool) -> usize
    ensures { result ≡ words.width_of wide }
{
    if wide { 8 } else { 4 }
}

fn double_at(bytes: &[u8], offset: usize) -> u64
    requires { offset + 8 ≤ length bytes.now }
    ensures { result ≡ words.word_of true (take 8 (drop offset bytes.now)) }
{
    let mut word = [0; 8];
    word.copy_from_slice(&bytes[offset..offset + 8]);
    u64::from_le_bytes(word)
}

fn single_at(bytes: &[u8], offset: usize) -> u32
    requires { offset + 4 ≤ length bytes.now }
    ensures { result ≡ words.word_of false (take 4 (drop offset bytes.now)) }
{
    let mut word = [0; 4];
    word.copy_from_slice(&bytes[offset..offset + 4]);
    u32::from_le_bytes(word)
}

/// The word at an offset, the lowest byte first: of 8 bytes, or of 4.
pub fn word_at(bytes: &[u8], offset: usize, wide: bool) -> u64
    requires { offset + words.width_of wide ≤ length bytes.now }
    ensures { result ≡ words.word_of wide (take (words.width_of wide) (drop offset bytes.now)) }
{
    if wide {
        double_at(bytes, offset)
    } else {
        single_at(bytes, offset) as u64
    }
}
