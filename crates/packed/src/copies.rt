// Copies of lines, for a scan to work on.
ghost use Rattle.std.specs.Prelude.{◌≡◌, ℕ, suc, ◌+◌, ◌*◌, ◌<◌, ◌≤◌, length};
ghost use Rattle.packed.specs.declared.halves.Half.{Half as Copied};
ghost use Rattle.packed.specs.Layout.{line_words, word_of};
ghost use Rattle.packed.specs.Scans.{seen, line_at, Around};

use crate::halves::{Half, line_words};
use crate::scans::{Lines, WORDS};

// What stands outside: closed places.
const OUTSIDE: [u64; WORDS] = [u64::MAX; WORDS];

// A copy of the line whose words, so many, begin here; past its end it is closed.
fn copy_line(words: &[u64], from: usize, wide: usize) -> [u64; WORDS]
    requires { from + wide ≤ length words.now }
    ensures { (half : Copied) (line : ℕ) → line < half.lines → half.long ≤ 128 → wide ≡ line_words half.long → from ≡ word_of half line 0 → (q : ℕ) → seen result q ≡ line_at words.now half (suc line) q }
{
    match wide {
        0 => OUTSIDE,
        1 => [words[from], u64::MAX],
        _ => [words[from], words[from + 1]],
    }
}

// Copies of a line inside and of the two beside it; a line outside is closed everywhere.
pub fn lines_around(words: &[u64], half: Half, line: usize) -> Lines
    requires fits { half.from + half.lines * line_words half.long ≤ length words.now }
    requires short { half.long ≤ 128 }
    requires inside { line < half.lines }
    ensures { Around words.now half line result }
{
    let wide = line_words(half.long);
    let from = half.word_of(line, 0);
    let before = if line > 0 {
        copy_line(words, from - wide, wide)
    } else {
        OUTSIDE
    };
    let after = if line + 1 < half.lines {
        copy_line(words, from + wide, wide)
    } else {
        OUTSIDE
    };
    Lines {
        before,
        here: copy_line(words, from, wide),
        after,
    }
}
