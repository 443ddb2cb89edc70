//! Levels: `*`, `0`, `1`, `2` and `3`.
ghost use Rattle.std.specs.Prelude.{◌≡◌, ◌++◌, OnOk};
ghost use Rattle.text_words.specs.Reading.{Reads};
ghost use Rattle.text_words.specs.LevelWord.{level_text};

use base::Level;
use std::alloc::AllocError;

/// The level that the word spells.
pub fn read_level(word: &[u8]) -> Option<Level>
    ensures { Reads level_text (λ _. Unit) word.now result }
{
    match word {
        [b'*'] => Some(Level::Star),
        [b'0'] => Some(Level::L0),
        [b'1'] => Some(Level::L1),
        [b'2'] => Some(Level::L2),
        [b'3'] => Some(Level::L3),
        _ => None,
    }
}

/// Adds the spelling of the level.
pub fn put_level(out: &mut Vec<u8>, level: Level) -> Result<(), AllocError>
    ensures { OnOk result (out.new.items ≡ out.old.items ++ level_text level) }
{
    let byte = match level {
        Level::Star => b'*',
        Level::L0 => b'0',
        Level::L1 => b'1',
        Level::L2 => b'2',
        Level::L3 => b'3',
    };
    out.push(byte)?;
    Ok(())
}
