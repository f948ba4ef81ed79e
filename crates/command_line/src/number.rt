// The number of a command.
ghost use Rattle.std.specs.Prelude.{◌≡◌};
ghost use Rattle.command_line.specs.Numbers.{load_number};

use script_words::number_within;

// From 0 to 4,294,967,295, in decimal digits without leading zeros.
pub(crate) fn load_number(word: &str) -> Option<u32>
    ensures { result ≡ load_number word.now }
{
    let number = number_within(word.as_bytes(), 0, 4_294_967_295)?;
    Some(number as u32)
}
