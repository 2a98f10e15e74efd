// Worked cases: proved over the definitions, and rows that others printed, run through the code.
#![tactic(auto)]

ghost use Rattle.std.specs.Prelude.{◌≡◌, length};
ghost use Rattle.std.specs.List.{AllByRecursion};
ghost use Rattle.worked_cases.specs.Table.{table, Holds};

/// Every case of the table holds of the definitions that rules and decoding are proved against. Answers how many there are.
#[tactic(auto, unfolding(rules::specs::Draws::step, rules::specs::Draws::within, rules::specs::Draws::draw, rules::specs::Draws::drawn, rules::specs::Draws::draws))]
pub fn cases_hold() -> usize
    ensures count { result ≡ length table }
    ensures cases { AllByRecursion Holds table }
{
    9
}

#[cfg(test)]
mod tests {
    use rules::line_rule::{LineRule, RowFault};
    use rules::published::Published;
    use rules::repeat::Repeat;
    use std::test::Fail;

    // Nine rows of a 25 × 25 parity matrix that a radio vendor printed: row Y is the row of number 25 + Y.
    const PRINTED: [(u16, &[u8; 25]); 9] = [
        (2, b"0010010001010011010101010"),
        (3, b"1101101011011001001000100"),
        (5, b"1011110010001100101000011"),
        (6, b"0101101101000001001010000"),
        (7, b"1001101110000000101010000"),
        (8, b"0001111010010110000100110"),
        (9, b"0000101011010001011000000"),
        (21, b"0000000011010100011111100"),
        (25, b"0000011101100100000111011"),
    ];

    #[test]
    fn printed_rows(rt: HostRuntime) -> Result<(), Fail> {
        for (y, row) in PRINTED {
            let mut marks = [false; 25];
            Published.fill(Published::ALGO, 25, 25 + y, &mut marks)?;
            for (mark, bit) in marks.iter().zip(row.iter()) {
                assert_eq!(rt; *mark, *bit == b'1');
            }
        }
        Ok(())
    }

    #[test]
    fn short_before_none(rt: HostRuntime) {
        let mut marks = [true; 4];
        assert_eq!(rt;
            Published.fill(Published::ALGO, 5, 12, &mut marks),
            Err(RowFault::Short)
        );
        assert_eq!(rt; Repeat.fill(0, 5, 1, &mut marks), Err(RowFault::Short));
        assert_eq!(rt;
            Published.fill(Published::ALGO, 4, 0, &mut marks),
            Err(RowFault::NoRow)
        );
        assert_eq!(rt; Repeat.fill(0, 4, 1, &mut marks), Err(RowFault::NoRow));
        assert_eq!(rt;
            Repeat.fill(Repeat::ALGO, 4, 16384, &mut marks),
            Err(RowFault::NoRow)
        );
        assert_eq!(rt; marks, [true; 4]);
    }

    #[test]
    fn rest_stays(rt: HostRuntime) -> Result<(), Fail> {
        let mut marks = [true; 6];
        Published.fill(Published::ALGO, 5, 12, &mut marks)?;
        assert_eq!(rt; marks, [false, false, false, true, false, true]);
        Repeat.fill(Repeat::ALGO, 3, 5, &mut marks)?;
        assert_eq!(rt; marks, [false, true, false, true, false, true]);
        Ok(())
    }
}
