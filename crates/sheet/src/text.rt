// A text cut into the pieces that its separators part.
ghost use Rattle.std.specs.Prelude.{◌≡◌};
ghost use Rattle.std.specs.Option.{option_map};
ghost use Rattle.sheet.specs.Format.{unended, fields, three};

// The text without the line feed that ends its last line.
pub fn without_end(text: &[u8]) -> &[u8]
    ensures { result.now ≡ unended text.now }
{
    text.strip_suffix(b"\n").unwrap_or(text)
}

// The three fields of a line, if it has three.
pub fn three_fields(line: &[u8]) -> Option<(&[u8], &[u8], &[u8])>
    ensures { option_map (λ f. (f.0.now, f.1.now, f.2.now)) result ≡ three (fields line.now) }
{
    let mut fields = line.split(|byte| *byte == b' ');
    let three = (fields.next()?, fields.next()?, fields.next()?);
    match fields.next() {
        None => Some(three),
        Some(_) => None,
    }
}
