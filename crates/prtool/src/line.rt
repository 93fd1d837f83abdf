ghost use Rattle.std.specs.Prelude.{◌≡◌, ◌<◌, ℕ, List, map, length, All, IfOk};
ghost use Rattle.std.specs.List.{join_with_byte};
ghost use Rattle.std.specs.Borrow.{Bor};
ghost use Rattle.std.specs.Str.Iter.{LacksByte};

use std::alloc::{AllocError, Global};
use std::rt::Env;
use std::{env, io};

/// The words of the command line in one text, with a zero byte between each two. The first is the
/// program's name.
///
/// # Errors
///
/// Where a word isn't UTF-8, or there is no memory.
pub(crate) fn command_line<R: Env + AllocGlobal>(rt: &R) -> io::Result<String> {
    let words: Vec<String> = env::args(rt)?.collect(rt.alloc())?;
    Ok(words.join(rt.alloc(), "\0")?)
}

/// The pieces of a text between its zero bytes. There is one at least.
///
/// No word of a command line holds a zero byte, so these are the words that were put in one text.
pub(crate) fn cut(alloc: Global, line: &str) -> Result<Vec<&str>, AllocError>
    ensures some { IfOk result (λ v. 0 < length v.items) }
    ensures joined { IfOk result (λ v. join_with_byte 0 (map (λ (x : Bor (List ℕ)). x.now) v.items)
        ≡ line.now) }
    ensures cut { IfOk result (λ v. All (λ (x : Bor (List ℕ)). LacksByte 0 x.now) v.items) }
{
    line.split('\0').collect(alloc)
}
