// Bits of words: reading one, writing one, and finding the first that is set.
ghost use Rattle.std.specs.Prelude.{◌≡◌, ℕ, ◌-◌, ◌<◌, true, false, if◌then◌else◌, MatchOption, nat_eq};
ghost use Rattle.packed.specs.Bits.{turned, bit, sooner, previous};

// The ways along a line: from its first place to its last, or back.
#[derive(Clone, Copy)]
pub enum Way {
    Forward,
    Backward,
}

impl Way {
    // The other way.
    pub fn turned(self) -> Way
        ensures { result ≡ turned self }
    {
        match self {
            Way::Forward => Way::Backward,
            Way::Backward => Way::Forward,
        }
    }
}

// Kept, here and below: `place < 64` is one short clause; a type for a place in a word would be made for each call and taken apart in it: no plainer.
pub fn is_set(word: u64, place: usize) -> bool
    requires { place < 64 }
    ensures { result ≡ bit word place }
{
    (word >> place) & 1 == 1
}

// The word with one bit set or cleared.
pub fn with_bit(word: u64, place: usize, set: bool) -> u64
    requires { place < 64 }
    ensures { (i : ℕ) → i < 64 → bit result i ≡ (if nat_eq i place then set else bit word i) }
{
    let one = 1u64 << place;
    if set { word | one } else { word & !one }
}

// The first bit on the way that is set, if one is.
pub fn first_set(word: u64, way: Way) -> Option<usize>
    ensures { MatchOption result ((i : ℕ) → i < 64 → bit word i ≡ false) (λ f. (f < 64) × (bit word f ≡ true) × ((i : ℕ) → i < 64 → sooner way i f ≡ true → bit word i ≡ false)) }
{
    if word == 0 {
        return None;
    }
    match way {
        Way::Forward => Some(word.trailing_zeros() as usize),
        Way::Backward => Some(63 - word.leading_zeros() as usize),
    }
}

// Each bit moved on by one place of the way; the first place gets the bit that comes over from the word before.
pub fn moved_on(word: u64, last: u64, way: Way) -> u64
    ensures { (i : ℕ) → i < 64 → bit result i ≡ previous way word last i }
{
    match way {
        Way::Forward => (word << 1) | (last >> 63),
        Way::Backward => (word >> 1) | (last << 63),
    }
}

// The bits that come after a place on the way.
pub fn beyond(place: usize, way: Way) -> u64
    requires { place < 64 }
    ensures { (i : ℕ) → i < 64 → bit result i ≡ sooner way place i }
{
    let from = u64::MAX << place;
    match way {
        Way::Forward => from << 1,
        Way::Backward => !from,
    }
}
