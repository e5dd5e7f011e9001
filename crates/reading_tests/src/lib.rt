// Tests of reading: decimal text, and the rows of units.
#![tactic(auto)]

#[cfg(test)]
mod tests {
    use decimal::input::{InputError, read_words};
    use rows::units::{Refusal, UnitView, whole_wants};
    use std::test::Fail;

    // The last number ends with the text, without white space behind it; what was there before stays in front.
    #[test]
    fn numbers_of_a_text(rt: HostRuntime) -> Result<(), Fail> {
        let mut words = Vec::new(rt.alloc());
        words.push(3)?;
        let mut text = "5 007\n\t4294967295".as_bytes();
        assert!(rt; read_words(&mut text, &mut words, 4).is_ok());
        assert_eq!(rt; words.as_slice(), [3, 5, 7, 4_294_967_295].as_slice());
        Ok(())
    }

    // A bad number is named by its line and by how many stand before it.
    #[test]
    fn a_text_with_a_sign(rt: HostRuntime) -> Result<(), Fail> {
        let mut words = Vec::new(rt.alloc());
        let mut text = "5 7\n\n8 -9 10".as_bytes();
        let Err(InputError::NoNumber { line, before }) = read_words(&mut text, &mut words, 4) else {
            return Err(Fail::new("not refused"));
        };
        assert_eq!(rt; line, 3);
        assert_eq!(rt; before, 3);
        Ok(())
    }

    // One number more than there is room for.
    #[test]
    fn a_text_that_is_too_long(rt: HostRuntime) -> Result<(), Fail> {
        let mut words = Vec::new(rt.alloc());
        let mut text = "1 2 3".as_bytes();
        let Err(InputError::TooLong { limit }) = read_words(&mut text, &mut words, 2) else {
            return Err(Fail::new("not refused"));
        };
        assert_eq!(rt; limit, 2);
        Ok(())
    }

    // How a refusal is printed.
    #[test]
    fn texts_of_refusals(rt: HostRuntime) -> Result<(), Fail> {
        let bad = InputError::NoNumber { line: 3, before: 3 };
        let bad = bad.to_string(rt.alloc())?;
        assert_eq!(rt;
            bad.as_str(),
            "line 3: number 4 is not a decimal number below 4294967296"
        );
        let long = InputError::TooLong { limit: 2 }.to_string(rt.alloc())?;
        assert_eq!(rt;
            long.as_str(),
            "more than the 2 numbers that there is room for"
        );
        let memory = InputError::NoMemory.to_string(rt.alloc())?;
        assert_eq!(rt; memory.as_str(), "out of memory");
        Ok(())
    }

    // A unit that wants a procedure of one argument and calls it twice.
    const ASKS: [u32; 21] = [
        1, 0, 1, 1, 1, 2, 0, 1, 0, 6, 7, 9, 0, 1, 8, 7, 9, 0, 1, 8, 0,
    ];

    #[test]
    fn a_row_of_a_unit(rt: HostRuntime) -> Result<(), Fail> {
        let mut arities = [7; 256];
        let view = UnitView::read(&ASKS, &mut arities)?;
        assert_eq!(rt; view.name, 1);
        assert_eq!(rt; view.want_count(), 1);
        assert_eq!(rt; view.procs.len(), 12);
        assert_eq!(rt; arities[0], 0);
        assert_eq!(rt; arities[1], 7);
        Ok(())
    }

    // The want takes two arguments, and its calls have one.
    #[test]
    fn a_row_of_no_unit(rt: HostRuntime) -> Result<(), Fail> {
        let mut row = ASKS;
        row[7] = 2;
        assert_eq!(rt; UnitView::read(&row, &mut [0; 256]), Err(Refusal::NoUnit));
        Ok(())
    }

    // A word that is left over says nothing.
    #[test]
    fn wants_of_flat_words(rt: HostRuntime) -> Result<(), Fail> {
        let wants = whole_wants(&[7, 0, 1, 9, 2, 8, 5]);
        assert_eq!(rt; wants, [[7, 0, 1], [9, 2, 8]].as_slice());
        Ok(())
    }
}
