// Sheets at the edges of the rules: each refusal, the largest sheets that pass, and what is printed.
#![tactic(auto)]

use floor::Cell;
use sheet::{Entry, Mark};

// What a list holds before it is read into: no sheet has a cell this far out.
pub const BEFORE: Entry = Entry {
    cell: Cell { row: 99, col: 99 },
    mark: Mark::Open,
    line: 0,
};

#[cfg(test)]
mod tests {
    use super::*;
    use quoting::{Fault, Origin, PAGE, quote};
    use sheet::{Figures, MAX_ENTRIES};
    use std::alloc::{AllocError, Global};
    use std::fmt::Write;
    use std::process::Abort;
    use std::test::Fail;
    use writing::Front;

    // Empty, too few, spaces at the ends and doubled, a name twice, another name, a carriage return.
    const WRONG_NAMES: [&[u8]; 9] = [
        b"",
        b"\n",
        b"row col",
        b"row col mark \n0 0 P\n",
        b" row col mark\n0 0 P\n",
        b"row  col mark\n0 0 P\n",
        b"row row mark\n0 0 P\n",
        b"row col Mark\n0 0 P\n",
        b"row col mark\r\n0 0 P\r\n",
    ];

    // Texts with the line that does not have three fields: two line feeds, too few, spaces, too many.
    const NOT_THREE_FIELDS: [(&[u8], usize); 6] = [
        (b"row col mark\n0 0 P\n\n", 3),
        (b"row col mark\n\n0 0 P\n", 2),
        (b"row col mark\n0 0\n", 2),
        (b"row col mark\n0 0 P \n", 2),
        (b"row col mark\n0  0 P\n", 2),
        (b"row col mark\n0 0 P 1\n", 2),
    ];

    // Texts with the field of line 2 that is wrong, the leftmost if there are more.
    const WRONG_VALUES: [(&[u8], usize); 9] = [
        (b"row col mark\n05 0 P\n", 1),
        (b"row col mark\n0 16 P\n", 2),
        (b"row col mark\n16 16 X\n", 1),
        (b"mark row col\nP 0 1a\n", 3),
        (b"row col mark\n 0 P\n", 1),
        (b"row col mark\n0  P\n", 2),
        (b"row col mark\n0 0 \xc8\n", 3),
        (b"row col mark\n0 0 \0\n", 3),
        (b"row col mark\n0 0 p\n", 3),
    ];

    // Texts with a cell named twice, a second panel or none: the number and the line.
    const WRONG_WHOLES: [(&[u8], usize, usize); 6] = [
        (b"row col mark\n0 0 P\n0 1 .\n0 0 .\n", 20, 4),
        (b"row col mark\n0 0 P\n0 0 P\n", 20, 3),
        (b"row col mark\n0 0 P\n1 0 .\n0 1 P\n16 0 .\n", 21, 4),
        (b"row col mark\n0 0 D\n0 1 .\n", 21, 0),
        (b"row col mark\n", 21, 0),
        (b"row col mark", 21, 0),
    ];

    // Sheets with what is printed for them: two cells, a diagonal, no device, a locked room, a wrong field.
    const QUOTED: [(&[u8], &[u8]); 5] = [
        (
            b"row col mark\n0 0 P\n0 1 D\n",
            b"leg straight diagonal mm\n1 1 0 1000\n2 1 0 1000\nall 2 0 2000\n",
        ),
        (
            b"row col mark\n0 0 P\n0 1 .\n1 0 .\n1 1 D",
            b"leg straight diagonal mm\n1 0 1 1415\n2 0 1 1415\nall 0 2 2830\n",
        ),
        (
            b"row col mark\n0 0 P\n",
            b"number from line field leg\n8 planner 0 0 0\n",
        ),
        (
            b"row col mark\n0 0 P\n0 1 D\n2 2 D\n",
            b"number from line field leg\n7 planner 0 0 2\n",
        ),
        (
            b"row col mark\n0 0 P\n0 05 .\n",
            b"number from line field leg\n19 sheet 3 2 0\n",
        ),
    ];

    // The sheet is refused by this number, at this line and field.
    fn refused(rt: &impl Abort, text: &[u8], number: usize, line: usize, field: usize) {
        let mut entries = [BEFORE; 256];
        let figures = sheet::read(text, &mut entries).map_err(|refusal| refusal.in_figures());
        assert_eq!(rt;
            figures,
            Err(Figures {
                number,
                line,
                field
            })
        );
    }

    // The sheet is read, and has so many entries.
    fn accepted(rt: &impl Abort, text: &[u8], count: usize) {
        let mut entries = [BEFORE; 256];
        assert_eq!(rt; sheet::read(text, &mut entries), Ok(count));
    }

    #[test]
    fn lengths(rt: HostRuntime) {
        refused(&rt, &[b'x'; 4097], 15, 0, 0);
        refused(&rt, &[b'x'; 4096], 17, 1, 0);
        let mut short = [BEFORE; 255];
        let answer = sheet::read(b"row col mark\n0 0 P\n", &mut short);
        assert_eq!(rt;
            answer.map_err(|refusal| refusal.in_figures().number),
            Err(16)
        );
    }

    #[test]
    fn names(rt: HostRuntime) {
        for text in WRONG_NAMES {
            refused(&rt, text, 17, 1, 0);
        }
        accepted(&rt, b"mark row col\nP 0 0\n", 1);
        accepted(&rt, b"col mark row\n0 P 0", 1);
    }

    #[test]
    fn three_fields(rt: HostRuntime) {
        for (text, line) in NOT_THREE_FIELDS {
            refused(&rt, text, 18, line, 0);
        }
    }

    #[test]
    fn values(rt: HostRuntime) {
        for (text, field) in WRONG_VALUES {
            refused(&rt, text, 19, 2, field);
        }
        refused(&rt, b"row col mark\n0 0 P\n0 1 .\r\n", 19, 3, 3);
        accepted(&rt, b"row col mark\n15 15 P\n0 0 D\n10 9 .", 3);
    }

    #[test]
    fn cells_and_panels(rt: HostRuntime) {
        for (text, number, line) in WRONG_WHOLES {
            refused(&rt, text, number, line, 0);
        }
    }

    // Entries before the fault are filled, and what lies past them stays.
    #[test]
    fn front_of_a_list(rt: HostRuntime) {
        let mut entries = [BEFORE; 256];
        let answer = sheet::read(b"col row mark\n3 1 D\n2 0 P\n2 0 .\n", &mut entries);
        assert!(rt; answer.is_err());
        assert_eq!(rt; entries[0].cell.row, 1);
        assert_eq!(rt; entries[0].cell.col, 3);
        assert_eq!(rt; entries[0].line, 2);
        assert_eq!(rt; entries[1].line, 3);
        assert_eq!(rt; entries[2].cell.row, 99);
    }

    // A sheet that names every cell of the floor, with the panel in the first.
    fn whole_floor(heap: Global) -> Result<String, AllocError> {
        let mut text = String::from_str(heap, "row col mark\n")?;
        for row in 0..16 {
            for col in 0..16 {
                let mark = if row == 0 && col == 0 { 'P' } else { 'D' };
                writeln!(text, "{row} {col} {mark}")?;
            }
        }
        Ok(text)
    }

    #[test]
    fn every_cell(rt: HostRuntime) -> Result<(), Fail> {
        let mut text = whole_floor(rt.alloc())?;
        accepted(&rt, text.as_bytes(), 256);
        text.push_str("7 7 .\n")?;
        refused(&rt, text.as_bytes(), 20, 258, 0);
        Ok(())
    }

    fn cell(row: usize, col: usize) -> Cell {
        Cell { row, col }
    }

    // The panel comes first, and then the devices in line order.
    #[test]
    fn stops(rt: HostRuntime) -> Result<(), Fail> {
        let mut entries = [BEFORE; 256];
        let Ok(n) = sheet::read(b"row col mark\n0 2 D\n1 2 .\n0 0 P\n2 2 D\n", &mut entries) else {
            return Err(Fail::new("the sheet was refused"));
        };
        assert_eq!(rt; n, 4);
        let mut cells = [BEFORE.cell; MAX_ENTRIES];
        let mut stops = Front::new(&mut cells);
        sheet::put_run(&mut stops, &entries[0..n]);
        let run = [cell(0, 0), cell(0, 2), cell(2, 2)];
        assert_eq!(rt; stops.written(), run.as_slice());
        Ok(())
    }

    #[test]
    fn refusals_in_words(rt: HostRuntime) -> Result<(), Fail> {
        let mut entries = [BEFORE; 256];
        let Err(refusal) = sheet::read(b"row col mark\n0 0 P\n0 05 .\n", &mut entries) else {
            return Err(Fail::new("the sheet was accepted"));
        };
        let figures = Fault {
            number: 19,
            from: Origin::Sheet,
            line: 3,
            field: 2,
            leg: 0,
        };
        assert_eq!(rt; Fault::from(&refusal), figures);
        let words = refusal.to_string(rt.alloc())?;
        assert_eq!(rt;
            words.as_str(),
            "line 3: field 2 is not a value of its column"
        );
        Ok(())
    }

    // What is printed for a sheet.
    fn printed(rt: &impl Abort, sheet: &[u8], text: &[u8]) {
        let mut page = [b'#'; PAGE];
        let outcome = quote(sheet, &mut page);
        assert_eq!(rt; &page[0..outcome.length], text);
    }

    #[test]
    fn quotes(rt: HostRuntime) {
        for (sheet, text) in QUOTED {
            printed(&rt, sheet, text);
        }
    }

    // 64 stops are a loop, and one more is one too many.
    #[test]
    fn most_stops(rt: HostRuntime) -> Result<(), Fail> {
        let text = whole_floor(rt.alloc())?;
        printed(
            &rt,
            text.as_bytes(),
            b"number from line field leg\n8 planner 0 0 0\n",
        );
        Ok(())
    }

    #[test]
    fn quote_refusals_in_words(rt: HostRuntime) -> Result<(), Fail> {
        let mut page = [b'#'; PAGE];
        let outcome = quote(b"row col mark\n0 0 P\n2 2 D\n", &mut page);
        let Some(refusal) = outcome.refusal else {
            return Err(Fail::new("the sheet was quoted"));
        };
        let words = refusal.to_string(rt.alloc())?;
        assert_eq!(rt; words.as_str(), "leg 1: no legal route leads to its end");
        Ok(())
    }
}
