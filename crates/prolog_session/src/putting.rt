// Words and numbers at the end of a text.
ghost use Rattle.std.specs.Prelude.{◌≡◌, ◌++◌, OnOk};
ghost use Rattle.std.specs.Fmt.{decimal};

use itoa::Buffer;
use prolog_terms::Want;

/// Puts words at the end of a text, whose bytes before stay as they are.
pub fn put(text: &mut Vec<u8>, words: &str) -> Result<(), Want>
    ensures { OnOk result (text.new.items ≡ text.old.items ++ words.now) }
{
    text.extend_from_slice(words.as_bytes())?;
    Ok(())
}

/// Puts a number at the end of a text, in decimal.
pub fn put_number(text: &mut Vec<u8>, number: u128) -> Result<(), Want>
    ensures { OnOk result (text.new.items ≡ text.old.items ++ decimal number) }
{
    put(text, Buffer::new().format(number))
}
