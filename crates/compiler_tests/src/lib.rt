// Tests of the compiler: the worked units, and units at each limit and one past it.
#![tactic(auto)]

#[cfg(test)]
mod tests {
    use compiler::compile;
    use rows::units::Refusal;
    use std::alloc::{AllocError, Global};
    use std::process::Abort;
    use std::test::Fail;

    // What stands in the object's words before a call.
    const FILL: u32 = 0xa5a5_a5a5;

    // How many words an object has, or why there is none.
    type Answer = Result<usize, Refusal>;

    // The answer for a row, with as many words lent as it asks for, and the object's words afterwards.
    fn compiled(heap: Global, row: &[u32]) -> Result<(Answer, Vec<u32>), AllocError> {
        let size = row.len().min(100_000);
        let mut object = vec![in heap; FILL; 256 + 32 * size]?;
        let mut work = vec![in heap; FILL; 4096 + 16 * size]?;
        let answer = compile(row, object.as_mut_slice(), work.as_mut_slice());
        Ok((answer, object))
    }

    // The row of a unit: the five numbers in front, so many times a piece, and what stands behind.
    fn row_of(
        heap: Global,
        front: &[u32],
        times: usize,
        piece: &[u32],
        back: &[u32],
    ) -> Result<Vec<u32>, AllocError> {
        let mut row = Vec::new(heap);
        row.extend_from_slice(front)?;
        for _ in 0..times {
            row.extend_from_slice(piece)?;
        }
        row.extend_from_slice(back)?;
        Ok(row)
    }

    // Whether all words are as they were before the call.
    fn untouched(object: &[u32]) -> bool {
        object.iter().all(|&word| word == FILL)
    }

    // The row is a unit's.
    fn accepts(heap: Global, row: &[u32]) -> Result<(), Fail> {
        compiled(heap, row)?.0?;
        Ok(())
    }

    // The row is no unit's, and the object's words are as they were.
    fn refuses(rt: &impl Abort, heap: Global, row: &[u32]) -> Result<(), Fail> {
        let (answer, object) = compiled(heap, row)?;
        assert_eq!(rt; answer, Err(Refusal::NoUnit));
        assert!(rt; untouched(object.as_slice()));
        Ok(())
    }

    // The first row is a unit's, and the second isn't.
    fn limit(rt: &impl Abort, heap: Global, at: &[u32], past: &[u32]) -> Result<(), Fail> {
        accepts(heap, at)?;
        refuses(rt, heap, past)
    }

    // Unit 1 asks unit 2's procedure 0 twice, each time with the tape's next word, and puts out what it gives.
    const ASKS: [u32; 21] = [
        1, 0, 1, 1, 1, 2, 0, 1, 0, 6, 7, 9, 0, 1, 8, 7, 9, 0, 1, 8, 0,
    ];

    const ASKS_OBJECT: [u32; 42] = [
        1, 0, 1, 1, 24, 2, 2, 0, 1, 0, 0, 0, 16, 0, 14, 5, 9, 0, 12, 0, 8, 0, 11, 0, 13, 0, 12, 0,
        8, 0, 11, 0, 15, 5, 10, 0, 9, 2, 0, 17, 2, 0,
    ];

    #[test]
    fn the_worked_unit(rt: HostRuntime) -> Result<(), Fail> {
        let (answer, object) = compiled(rt.alloc(), &ASKS)?;
        assert_eq!(rt; answer, Ok(42));
        assert_eq!(rt; object.get(..42), Some(ASKS_OBJECT.as_slice()));
        assert_eq!(rt; object.get(42).copied(), Some(FILL));
        Ok(())
    }

    // The want takes two arguments, and its calls have one.
    #[test]
    fn other_arguments_than_wanted(rt: HostRuntime) -> Result<(), Fail> {
        let mut row = ASKS;
        row[7] = 2;
        refuses(&rt, rt.alloc(), &row)
    }

    // The answer for the worked unit, with so many words lent; the object's words are as they were if it is refused.
    fn answer_in(
        rt: &impl Abort,
        heap: Global,
        object: usize,
        work: usize,
    ) -> Result<Answer, Fail> {
        let mut object = vec![in heap; FILL; object]?;
        let mut work = vec![in heap; FILL; work]?;
        let answer = compile(&ASKS, object.as_mut_slice(), work.as_mut_slice());
        assert!(rt; answer != Err(Refusal::Short) || untouched(object.as_slice()));
        Ok(answer)
    }

    // With one word less for the object, or to work with, the row isn't looked at.
    #[test]
    fn too_few_words(rt: HostRuntime) -> Result<(), Fail> {
        let heap = rt.alloc();
        assert_eq!(rt; answer_in(&rt, heap, 927, 4432)?, Err(Refusal::Short));
        assert_eq!(rt; answer_in(&rt, heap, 928, 4431)?, Err(Refusal::Short));
        assert_eq!(rt; answer_in(&rt, heap, 928, 4432)?, Ok(42));
        Ok(())
    }

    #[test]
    fn nothing_and_too_little(rt: HostRuntime) -> Result<(), Fail> {
        refuses(&rt, rt.alloc(), &[])?;
        refuses(&rt, rt.alloc(), &[1, 0, 0, 0])?;
        limit(&rt, rt.alloc(), &[1, 0, 0, 0, 0], &[1, 0, 0, 0, 0, 0])?;
        limit(&rt, rt.alloc(), &[1, 0, 0, 1, 0, 0, 8], &[1, 0, 0, 1, 0, 0])
    }

    // Offers fill the row up to its most words.
    #[test]
    fn the_longest_row(rt: HostRuntime) -> Result<(), Fail> {
        let heap = rt.alloc();
        let at = row_of(heap, &[1, 0, 0, 1, 65529, 0, 8], 65529, &[0], &[])?;
        let past = row_of(heap, &[1, 0, 0, 1, 65530, 0, 8], 65530, &[0], &[])?;
        assert_eq!(rt; at.len(), 65536);
        limit(&rt, heap, at.as_slice(), past.as_slice())
    }

    #[test]
    fn words(rt: HostRuntime) -> Result<(), Fail> {
        let heap = rt.alloc();
        limit(&rt, heap, &[1, 4096, 0, 0, 0], &[1, 4097, 0, 0, 0])?;
        // the last word is read, and one behind it
        limit(
            &rt,
            heap,
            &[1, 4096, 0, 1, 0, 0, 2, 4095],
            &[1, 4096, 0, 1, 0, 0, 2, 4096],
        )?;
        // and kept
        limit(
            &rt,
            heap,
            &[1, 3, 0, 1, 0, 0, 5, 2, 8],
            &[1, 3, 0, 1, 0, 0, 5, 3, 8],
        )
    }

    #[test]
    fn wants(rt: HostRuntime) -> Result<(), Fail> {
        let heap = rt.alloc();
        let at = row_of(heap, &[1, 0, 256, 1, 0], 256, &[2, 0, 0], &[0, 9, 255, 0])?;
        let past = row_of(heap, &[1, 0, 257, 1, 0], 257, &[2, 0, 0], &[0, 8])?;
        limit(&rt, heap, at.as_slice(), past.as_slice())?;
        limit(
            &rt,
            heap,
            &[1, 0, 1, 0, 0, 2, 0, 8],
            &[1, 0, 1, 0, 0, 2, 0, 9],
        )
    }

    #[test]
    fn procedures(rt: HostRuntime) -> Result<(), Fail> {
        let heap = rt.alloc();
        let at = row_of(heap, &[1, 0, 0, 256, 1], 256, &[0, 8], &[255])?;
        let past = row_of(heap, &[1, 0, 0, 257, 1], 257, &[0, 8], &[255])?;
        limit(&rt, heap, at.as_slice(), past.as_slice())
    }

    #[test]
    fn arguments(rt: HostRuntime) -> Result<(), Fail> {
        let heap = rt.alloc();
        limit(&rt, heap, &[1, 0, 0, 1, 0, 8, 8], &[1, 0, 0, 1, 0, 9, 8])?;
        limit(
            &rt,
            heap,
            &[1, 0, 0, 1, 0, 8, 1, 7],
            &[1, 0, 0, 1, 0, 8, 1, 8],
        )
    }

    // Expressions that put out what the one in them gives.
    #[test]
    fn depth(rt: HostRuntime) -> Result<(), Fail> {
        let heap = rt.alloc();
        let at = row_of(heap, &[1, 0, 0, 1, 0, 0], 255, &[7], &[8])?;
        let past = row_of(heap, &[1, 0, 0, 1, 0, 0], 256, &[7], &[8])?;
        limit(&rt, heap, at.as_slice(), past.as_slice())
    }

    #[test]
    fn signs_and_operations(rt: HostRuntime) -> Result<(), Fail> {
        let heap = rt.alloc();
        limit(
            &rt,
            heap,
            &[1, 0, 0, 1, 0, 0, 3, 5, 8, 8],
            &[1, 0, 0, 1, 0, 0, 3, 6, 8, 8],
        )?;
        limit(
            &rt,
            heap,
            &[1, 0, 0, 1, 0, 0, 9, 0, 0],
            &[1, 0, 0, 1, 0, 0, 10, 0, 0],
        )?;
        limit(
            &rt,
            heap,
            &[1, 0, 0, 1, 0, 0, 0, 4_294_967_295],
            &[1, 0, 0, 1, 0, 0, 0],
        )
    }

    // A want of no arguments and two procedures, of one and of two arguments.
    #[test]
    fn callees(rt: HostRuntime) -> Result<(), Fail> {
        let heap = rt.alloc();
        accepts(heap, &[1, 0, 1, 2, 0, 2, 0, 0, 1, 9, 0, 0, 2, 8])?;
        accepts(heap, &[1, 0, 1, 2, 0, 2, 0, 0, 1, 9, 1, 1, 8, 2, 8])?;
        limit(
            &rt,
            heap,
            &[1, 0, 1, 2, 0, 2, 0, 0, 1, 9, 2, 2, 8, 8, 2, 8],
            &[1, 0, 1, 2, 0, 2, 0, 0, 1, 9, 3, 2, 8, 8, 2, 8],
        )?;
        refuses(&rt, heap, &[1, 0, 1, 2, 0, 2, 0, 0, 1, 9, 2, 1, 8, 2, 8])
    }

    #[test]
    fn offers(rt: HostRuntime) -> Result<(), Fail> {
        let heap = rt.alloc();
        limit(
            &rt,
            heap,
            &[1, 0, 0, 1, 1, 0, 8, 0],
            &[1, 0, 0, 1, 1, 0, 8, 1],
        )?;
        // one procedure is offered twice
        accepts(heap, &[1, 0, 0, 1, 2, 0, 8, 0, 0])
    }
}
