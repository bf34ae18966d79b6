// Scans along a line: three lines are combined a word at a time, and what ends a scan is found by counting zeros.
ghost use Rattle.std.specs.Prelude.{◌≡◌, ℕ, suc, ◌+◌, ◌*◌, ◌<◌, true, false};
ghost use Rattle.packed.specs.Bits.{bit};
ghost use Rattle.packed.specs.Scans.{upright, way_of, next_word, opening, ends, Next, Scanned};

use crate::halves::WORD;
use crate::words::{Way, beyond, first_set, is_set, moved_on};
use floor::Heading;

// How many words a line has at most.
pub const WORDS: usize = 2;

// Copies of a line and of the two lines beside it. Where a line has fewer words, the others have all bits set.
#[derive(Clone, Copy)]
pub struct Lines {
    pub before: [u64; WORDS],
    pub here: [u64; WORDS],
    pub after: [u64; WORDS],
}

// Whether a heading runs along columns.
pub fn is_upright(towards: Heading) -> bool
    ensures { result ≡ upright towards }
{
    matches!(towards, Heading::North | Heading::South)
}

// The way of a straight heading along its line.
pub fn way_of(towards: Heading) -> Way
    ensures { result ≡ way_of towards }
{
    match towards {
        Heading::East | Heading::SouthEast | Heading::South => Way::Forward,
        _ => Way::Backward,
    }
}

// The next word of a line on the way, if there is one.
// Kept, here and below: `word < 2` is one short clause; a type for the number of a word would be made for each call and taken apart in it: no plainer.
fn next_word(word: usize, way: Way) -> Option<usize>
    requires { word < 2 }
    ensures { result ≡ next_word way word }
{
    match way {
        Way::Forward => (word + 1 < WORDS).then_some(word + 1),
        Way::Backward => word.checked_sub(1),
    }
}

// Where a line opens up: the places that are open, with a closed one before them on the way.
// Kept, here and below: line, word and way are three arguments, since nothing holds of the three and a struct would only be taken apart: no plainer.
fn openings(line: &[u64; WORDS], word: usize, way: Way) -> u64
    requires { word < 2 }
    ensures { (i : ℕ) → i < 64 → bit result i ≡ opening line.now way (suc (64 * word + i)) }
{
    let last = next_word(word, way.turned()).map_or(u64::MAX, |from| line[from]);
    moved_on(line[word], last, way) & !line[word]
}

// Where a scan ends: the closed places of the line, and those where a line beside it opens up.
fn endings(lines: &Lines, word: usize, way: Way) -> u64
    requires { word < 2 }
    ensures { (i : ℕ) → i < 64 → bit result i ≡ ends lines.now way (suc (64 * word + i)) }
{
    lines.here[word] | openings(&lines.before, word, way) | openings(&lines.after, word, way)
}

// The first place after `at` where a scan ends, in the rest of its own word or in the other one.
fn next_ending(lines: &Lines, at: usize, way: Way) -> Option<usize>
    requires { at < 128 }
    ensures { Next lines.now at way result }
{
    // Of both words, so that none is looked up by its number.
    let ends = [endings(lines, 0, way), endings(lines, 1, way)];
    let near = at / WORD;
    let own = ends[near] & beyond(at % WORD, way);
    if let Some(place) = first_set(own, way) {
        return Some(WORD * near + place);
    }
    let far = next_word(near, way)?;
    let place = first_set(ends[far], way)?;
    Some(WORD * far + place)
}

// How far one comes from `at`, and whether it is a stop that one comes to. What ends no scan is a legal step.
#[inline(always)]
fn scan_on_way(lines: &Lines, at: usize, way: Way) -> (u16, bool)
    requires { at < 128 }
    ensures { Scanned lines.now at way result }
{
    let Some(end) = next_ending(lines, at, way) else {
        let steps = match way {
            Way::Forward => 127 - at as u16,
            Way::Backward => at as u16,
        };
        return (steps, false);
    };
    let steps = at.abs_diff(end) as u16;
    if is_set(lines.here[end / WORD], end % WORD) {
        (steps - 1, false)
    } else {
        (steps, true)
    }
}

// The same. Kept: a match of two like arms, so that each way is compiled by itself, and asks for no way within.
pub fn scan(lines: &Lines, at: usize, way: Way) -> (u16, bool)
    requires { at < 128 }
    ensures { Scanned lines.now at way result }
{
    match way {
        Way::Forward => scan_on_way(lines, at, Way::Forward),
        Way::Backward => scan_on_way(lines, at, Way::Backward),
    }
}
