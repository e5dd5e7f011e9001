// Tests of the linker: objects made by hand, and the images that they link to.
#![tactic(auto)]

#[cfg(test)]
mod tests {
    use linker::{Image, NotLinked, link};
    use std::alloc::{AllocError, Global};
    use std::process::Abort;
    use std::test::Fail;

    // Unit 1 asks unit 2's procedure 0 twice, each time with the tape's next word, and puts out what it gives.
    const ASKS: [u32; 42] = [
        1, 0, 1, 1, 24, 2, 2, 0, 1, 0, 0, 0, 16, 0, 14, 5, 9, 0, 12, 0, 8, 0, 11, 0, 13, 0, 12, 0,
        8, 0, 11, 0, 15, 5, 10, 0, 9, 2, 0, 17, 2, 0,
    ];

    // Unit 2 keeps a sum in its one word.
    const SUMS: [u32; 33] = [
        2, 1, 0, 1, 18, 2, 0, 1, 0, 16, 0, 14, 7, 9, 1, 3, 0, 2, 0, 5, 0, 4, 0, 15, 7, 10, 1, 7, 1,
        0, 13, 1, 0,
    ];

    // Unit 3 has three words, and nobody calls it.
    const IDLE: [u32; 21] = [
        3, 3, 0, 1, 12, 0, 0, 0, 0, 16, 0, 14, 5, 9, 0, 1, 7, 15, 5, 10, 0,
    ];

    // Links the objects, one behind the other, into an image whose words were all 7.
    fn link_row(
        heap: Global,
        objects: &[&[u32]],
        image: &mut [u32],
    ) -> Result<Result<Image, NotLinked>, AllocError> {
        let mut row = Vec::new(heap);
        for object in objects {
            row.extend_from_slice(object)?;
        }
        Ok(link(row.as_slice(), image))
    }

    #[test]
    fn worked_image(rt: HostRuntime) -> Result<(), Fail> {
        let mut image = [7; 80];
        let linked = link_row(rt.alloc(), &[&ASKS, &SUMS], &mut image)?;
        assert_eq!(rt; linked, Ok(Image { size: 46, words: 1 }));
        let expected = [
            8, 4, 0, 1, 16, 0, 14, 5, 9, 0, 12, 0, 8, 28, 11, 0, 13, 0, 12, 0, 8, 28, 11, 0, 15, 5,
            10, 0, 16, 0, 14, 7, 9, 1, 3, 0, 2, 0, 5, 0, 4, 0, 15, 7, 10, 1, 7,
        ];
        assert_eq!(rt; &image[0..47], &expected[0..47]);
        Ok(())
    }

    #[test]
    fn third_unit_between(rt: HostRuntime) -> Result<(), Fail> {
        let mut image = [7; 100];
        let linked = link_row(rt.alloc(), &[&ASKS, &IDLE, &SUMS], &mut image)?;
        assert_eq!(rt; linked, Ok(Image { size: 58, words: 4 }));
        let expected = [
            8, 4, 0, 1, 16, 0, 14, 5, 9, 0, 12, 0, 8, 40, 11, 0, 13, 0, 12, 0, 8, 40, 11, 0, 15, 5,
            10, 0, 16, 0, 14, 5, 9, 0, 1, 7, 15, 5, 10, 0, 16, 0, 14, 7, 9, 1, 3, 3, 2, 0, 5, 0, 4,
            3, 15, 7, 10, 1, 7,
        ];
        assert_eq!(rt; &image[0..59], &expected[0..59]);
        Ok(())
    }

    // Whether the objects are refused, and the image's words are as they were; why, for who reads that it failed.
    fn refused(
        rt: &impl Abort,
        heap: Global,
        objects: &[&[u32]],
        refusal: NotLinked,
        why: &str,
    ) -> Result<(), Fail> {
        let mut image = [7; 100];
        let linked = link_row(heap, objects, &mut image)?;
        assert_eq!(rt; linked, Err(refusal), "{why}");
        assert_eq!(rt; image, [7; 100], "{why}");
        Ok(())
    }

    #[test]
    fn missing(rt: HostRuntime) -> Result<(), Fail> {
        let first = "the first has no procedure 0 without arguments";
        refused(&rt, rt.alloc(), &[&SUMS, &ASKS], NotLinked::Missing, first)?;
        refused(
            &rt,
            rt.alloc(),
            &[&ASKS],
            NotLinked::Missing,
            "unit 2 isn't there",
        )?;
        refused(&rt, rt.alloc(), &[], NotLinked::Missing, "no object at all")
    }

    #[test]
    fn name_twice(rt: HostRuntime) -> Result<(), Fail> {
        refused(&rt, rt.alloc(), &[&ASKS, &ASKS], NotLinked::Twice, "both")?;
        refused(
            &rt,
            rt.alloc(),
            &[&SUMS, &IDLE, &IDLE],
            NotLinked::Twice,
            "the last two",
        )
    }

    #[test]
    fn no_objects(rt: HostRuntime) -> Result<(), Fail> {
        let none = NotLinked::NoObjects;
        refused(&rt, rt.alloc(), &[&ASKS, &[5]], none, "a word left over")?;
        refused(&rt, rt.alloc(), &[&ASKS[0..41]], none, "a word too few")?;
        refused(
            &rt,
            rt.alloc(),
            &[&[1, 4097, 0, 0, 0, 0]],
            none,
            "too many words",
        )?;
        let offer = [1, 0, 0, 1, 1, 0, 0, 0, 1, 9];
        refused(&rt, rt.alloc(), &[&offer], none, "an offer behind the code")?;
        let fit = [1, 0, 0, 0, 1, 1, 9, 1, 0, 0];
        refused(&rt, rt.alloc(), &[&fit], none, "a fit behind the code")?;
        let kind = [1, 0, 0, 0, 1, 1, 9, 0, 3, 0];
        refused(&rt, rt.alloc(), &[&kind], none, "a fourth kind")?;
        let want = [1, 0, 0, 0, 1, 1, 9, 0, 2, 0];
        refused(&rt, rt.alloc(), &[&want], none, "a want that isn't there")
    }

    #[test]
    fn no_space(rt: HostRuntime) {
        let mut image = [7; 36];
        assert_eq!(rt; link(&SUMS, &mut image), Err(NotLinked::NoSpace));
        assert_eq!(rt; link(&[5], &mut image[0..4]), Err(NotLinked::NoSpace));
        assert_eq!(rt; image, [7; 36]);
    }

    #[test]
    fn fits_of_one_place(rt: HostRuntime) {
        let object = [
            1, 0, 1, 1, 5, 8, 1, 0, 0, 0, 0, 1, 10, 20, 30, 40, 4294967295, 1, 0, 0, 1, 0, 0, 2, 0,
            0, 2, 2, 0, 3, 2, 0, 3, 0, 0, 3, 1, 0, 4, 0, 9,
        ];
        let mut image = [7; 45];
        assert_eq!(rt; link(&object, &mut image), Ok(Image { size: 9, words: 0 }));
        assert_eq!(rt; &image[0..10], &[8, 5, 0, 1, 10, 28, 5, 9, 3, 7][0..10]);
    }

    #[test]
    fn offered_with_other_arguments(rt: HostRuntime) -> Result<(), Fail> {
        let wants = [
            1, 0, 2, 1, 2, 2, 2, 0, 2, 2, 0, 1, 0, 0, 0, 0, 0, 0, 2, 0, 1, 2, 1,
        ];
        let offers = [2, 0, 0, 3, 3, 0, 0, 1, 0, 0, 2, 1, 0, 2, 2, 11, 12, 13];
        let mut image = [7; 45];
        let linked = link_row(rt.alloc(), &[&wants, &offers], &mut image)?;
        assert_eq!(rt; linked, Ok(Image { size: 9, words: 0 }));
        assert_eq!(rt; &image[0..10], &[8, 4, 0, 1, 7, 6, 11, 12, 13, 7][0..10]);
        Ok(())
    }
}
