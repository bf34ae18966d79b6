// Pieces written one after another to the front of a lent list; here text, to a page of bytes.
#![tactic(auto)]

ghost use Rattle.std.specs.Prelude.{◌≡◌, ◌≤◌, length, take, decimal};
ghost use Rattle.writing.specs.Values.{value, last_values};

// A lent list, and how much of it is written.
#[derive(Drop)]
pub struct Front<'a, T> {
    list: &'a mut [T],
    len: usize,
    ghost within: { len ≤ length list.now },
}

pub type Page<'a> = Front<'a, u8>;

impl<'a, T: Copy> Front<'a, T> {
    ghost use Rattle.writing.specs.Fronts.{Fits, Added};

    // Nothing is written yet.
    pub fn new(list: &'a mut [T]) -> Front<'a, T>
        ensures lent { result.list.ghost_name ≡ list.entry.ghost_name }
        ensures list { result.list.now ≡ list.old }
        ensures none { result.len ≡ 0 }
    {
        Front { list, len: 0 }
    }

    // How much is written.
    pub fn len(&self) -> usize
        ensures { result ≡ self.now.len }
    {
        self.len
    }

    // What is written.
    pub fn written(&self) -> &[T]
        ensures { result.now ≡ take self.now.len self.now.list.now }
    {
        &self.list[0..self.len]
    }

    // Writes a piece after what is written.
    pub fn put(&mut self, piece: &[T])
        requires { Fits self.old piece.now }
        ensures { Added self.old piece.now self.new }
    {
        let Front { list, len } = self;
        let end = *len + piece.len();
        list[*len..end].copy_from_slice(piece);
        *len = end;
    }
}

// Kept: by `write!` to a page it was not proved: what then stands on the page is promised only where Ok is answered, and nothing says that a page with
// room answers it; here a page with room is always written.
impl Front<'_, u8> {
    ghost use Rattle.writing.specs.Fronts.{Fits, Added};

    // Writes a number in decimal digits.
    pub fn put_number(&mut self, number: u64)
        requires { Fits self.old (decimal number) }
        ensures { Added self.old (decimal number) self.new }
    {
        let mut digits = itoa::Buffer::new();
        self.put(digits.format(number).as_bytes());
    }

    // Writes a space and a number.
    fn put_value(&mut self, number: u64)
        requires { Fits self.old (value number) }
        ensures { Added self.old (value number) self.new }
    {
        self.put(b" ");
        self.put_number(number);
    }

    // Writes the last values of a line, and its line feed.
    pub fn put_last_values(&mut self, numbers: &[u64])
        requires { Fits self.old (last_values numbers.now) }
        ensures { Added self.old (last_values numbers.now) self.new }
    {
        for number in numbers {
            self.put_value(*number);
        }
        self.put(b"\n");
    }
}
