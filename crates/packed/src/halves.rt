// Where the bits of a plan lie in its memory: once by rows, and after these once by columns.
ghost use Rattle.std.specs.Prelude.{◌≡◌, ◌+◌, ◌-◌, ◌*◌, ◌^◌, ◌<◌, min};
ghost use Rattle.packed.specs.Layout.{line_words, by_rows, by_cols, words_needed, word_of};

use source::Size;

// How many places a word holds.
pub const WORD: usize = 64;

// One of the two copies: its first word, how many lines it has, and how many places a line has.
#[derive(Clone, Copy)]
pub struct Half {
    pub from: usize,
    pub lines: usize,
    pub long: usize,
}

impl Half {
    // The rows come first, each with a place for each column.
    pub fn by_rows(size: Size) -> Half
        ensures { result ≡ by_rows size.rows size.cols }
    {
        Half {
            from: 0,
            lines: size.rows,
            long: size.cols,
        }
    }

    // The columns follow, each with a place for each row.
    pub fn by_columns(size: Size) -> Half
        ensures { result ≡ by_cols size.rows size.cols }
    {
        Half {
            from: size.rows * line_words(size.cols),
            lines: size.cols,
            long: size.rows,
        }
    }

    // The word that holds a place of a line.
    pub fn word_of(self, line: usize, place: usize) -> usize
        requires { word_of self line place < 2 ^ 64 }
        ensures { result ≡ word_of self line place }
    {
        self.from + (line * line_words(self.long) + place / WORD)
    }
}

// How many words a line of so many places takes.
pub fn line_words(long: usize) -> usize
    ensures { result ≡ line_words long }
{
    long.div_ceil(WORD)
}

// How many words a plan takes, or the largest number if that is not one of 64 bits.
pub fn words_needed(rows: usize, cols: usize) -> usize
    ensures { result ≡ min (words_needed rows cols) (2 ^ 64 - 1) }
{
    let by_rows = rows.saturating_mul(line_words(cols));
    by_rows.saturating_add(cols.saturating_mul(line_words(rows)))
}
