// A line's fields under their columns' names, and the entry that they mean.
ghost use Rattle.std.specs.Prelude.{◌≡◌};
ghost use Rattle.std.specs.Option.{ok_or};
ghost use Rattle.sheet.specs.declared.refusals.Refusal.TheVariants.{BadNames};
ghost use Rattle.sheet.specs.Format.{as_column, as_names, as_coordinate, mark_of, as_mark, filled, as_entry};
ghost use Rattle.sheet.specs.Parts.{said, column_of};

use crate::text::three_fields;
use crate::{Entry, Mark, Refusal};

// What a field of a line stands for.
#[derive(Clone, Copy, PartialEq, Eq, Debug)]
pub enum Column {
    Row,
    Col,
    Mark,
}

// The columns from the left, as the first line names them.
// Kept: in an array a column would have a number in the place of its name, and each function would say again what the numbers mean.
#[derive(Clone, Copy, PartialEq, Eq, Debug)]
pub struct Names {
    first: Column,
    second: Column,
    third: Column,
}

// A field under its column, as the part of the sheet that it came from.
// Kept: it is a rule of the project that a field is an enum of borrowed bytes, with its line and its number.
#[derive(Clone, Copy)]
enum Token<'a> {
    Row(&'a [u8]),
    Col(&'a [u8]),
    Mark(&'a [u8]),
}

// A token with its line, and its place in the line from 1.
#[derive(Clone, Copy)]
struct Field<'a> {
    token: Token<'a>,
    line: usize,
    field: usize,
}

// A column by its name on the first line.
impl TryFrom<&[u8]> for Column {
    type Error = Refusal;

    ghost try_from_gives = { λ name r. r ≡ ok_or (as_column name.now) BadNames };

    fn try_from(name: &[u8]) -> Result<Column, Refusal> {
        match name {
            b"row" => Ok(Column::Row),
            b"col" => Ok(Column::Col),
            b"mark" => Ok(Column::Mark),
            _ => Err(Refusal::BadNames),
        }
    }
}

// The columns that the first line names, each once.
pub fn names_of(line: &[u8]) -> Result<Names, Refusal>
    ensures { result ≡ ok_or (as_names line.now) Refusal.BadNames }
{
    let (first, second, third) = three_fields(line).ok_or(Refusal::BadNames)?;
    let first = Column::try_from(first)?;
    let second = Column::try_from(second)?;
    let third = Column::try_from(third)?;
    if first == second || second == third || first == third {
        return Err(Refusal::BadNames);
    }
    Ok(Names {
        first,
        second,
        third,
    })
}

// A row or a column: the first digit and the rest.
// Kept: it is a rule of the project that a row or a column is taken apart so.
fn coordinate(bytes: &[u8]) -> Option<usize>
    ensures { result ≡ as_coordinate bytes.now }
{
    let [first, rest @ ..] = bytes else {
        return None;
    };
    match (*first, rest) {
        (b'0'..=b'9', []) => Some((*first - b'0') as usize),
        (b'1', [second @ b'0'..=b'5']) => Some(10 + (*second - b'0') as usize),
        _ => None,
    }
}

// Kept: it is a rule of the project that a mark is matched as a char.
fn mark_of(sign: char) -> Option<Mark>
    ensures { result ≡ mark_of sign }
{
    match sign {
        '.' => Some(Mark::Open),
        'P' => Some(Mark::Panel),
        'D' => Some(Mark::Device),
        _ => None,
    }
}

fn mark_in(bytes: &[u8]) -> Option<Mark>
    ensures { result ≡ as_mark bytes.now }
{
    match bytes {
        [sign] => mark_of(char::from(*sign)),
        _ => None,
    }
}

impl<'a> Field<'a> {
    fn new(column: Column, bytes: &'a [u8], line: usize, field: usize) -> Field<'a>
        ensures bytes { said result.token ≡ bytes.now }
        ensures column { column_of result.token ≡ column }
        ensures place { (result.line ≡ line) × (result.field ≡ field) }
    {
        let token = match column {
            Column::Row => Token::Row(bytes),
            Column::Col => Token::Col(bytes),
            Column::Mark => Token::Mark(bytes),
        };
        Field { token, line, field }
    }

    // The entry with this field's value in its place.
    fn fill(self, mut entry: Entry) -> Result<Entry, Refusal>
        ensures { result ≡ filled (column_of self.entry.token) (said self.entry.token) self.entry.line self.entry.field entry }
    {
        let refusal = Refusal::BadField {
            line: self.line,
            field: self.field,
        };
        match self.token {
            Token::Row(bytes) => entry.cell.row = coordinate(bytes).ok_or(refusal)?,
            Token::Col(bytes) => entry.cell.col = coordinate(bytes).ok_or(refusal)?,
            Token::Mark(bytes) => entry.mark = mark_in(bytes).ok_or(refusal)?,
        }
        Ok(entry)
    }
}

// The entry that a line means: three fields, each a value of its column.
pub fn entry_of(names: Names, line: usize, text: &[u8]) -> Result<Entry, Refusal>
    ensures { result ≡ as_entry names line text.now }
{
    let Some((first, second, third)) = three_fields(text) else {
        return Err(Refusal::FieldCount { line });
    };
    let blank = Entry {
        line,
        ..Entry::BLANK
    };
    // Kept: three lines, since a loop over columns and fields would have to count the field's number: no plainer.
    let entry = Field::new(names.first, first, line, 1).fill(blank)?;
    let entry = Field::new(names.second, second, line, 2).fill(entry)?;
    Field::new(names.third, third, line, 3).fill(entry)
}
