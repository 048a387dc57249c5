//! What the text of a drawing gives, and every way in which it is refused.
#![tactic(auto)]

#[cfg(test)]
mod tests {
    use parts::{Edit, Fault, LineKind, ReadError, find_line, read, read_edits};
    use std::alloc::Global;
    use std::test::Fail;

    // The error that a text gives.
    fn refusal(heap: Global, text: &[u8]) -> Result<ReadError, Fail> {
        match read(heap, text) {
            Ok(_) => Err(Fail::new("the text was taken")),
            Err(error) => Ok(error),
        }
    }

    fn wrong(line: usize, fault: Fault) -> ReadError {
        ReadError::Wrong { line, fault }
    }

    #[test]
    fn parts_are_numbered_by_first_mention(rt: HostRuntime) -> Result<(), Fail> {
        let drawing = read(rt.alloc(), b"# parts\n\na b c\r\n\tb a a\nd  c c c c")?;
        assert!(rt;
            drawing.names()
                == [
                    b"a".as_slice(),
                    b"b".as_slice(),
                    b"c".as_slice(),
                    b"d".as_slice()
                ]
                .as_slice()
        );
        assert!(rt; drawing.slots() == [2, 3, 0, 0, 1, 1, 0, 0, 0, 0, 0, 0, 3, 3, 3, 3].as_slice());
        assert_eq!(rt; drawing.lines(), 3);
        assert_eq!(rt; drawing.references(), 8);
        Ok(())
    }

    #[test]
    fn nothing_is_a_drawing_too(rt: HostRuntime) -> Result<(), Fail> {
        let drawing = read(rt.alloc(), b"")?;
        assert_eq!(rt; drawing.names().len(), 0);
        assert_eq!(rt; drawing.lines(), 0);
        Ok(())
    }

    #[test]
    fn a_line_has_four_references_at_most(rt: HostRuntime) -> Result<(), Fail> {
        assert_eq!(rt;
            refusal(rt.alloc(), b"a b c d e\nb\nc a a a a a")?,
            wrong(3, Fault::TooManyReferences)
        );
        Ok(())
    }

    #[test]
    fn a_name_has_32_characters_at_most(rt: HostRuntime) -> Result<(), Fail> {
        let heap = rt.alloc();
        assert_eq!(rt;
            read(heap, b"a\nb abcdefghijklmnopqrstuvwxyz012345")?.references(),
            1
        );
        assert_eq!(rt;
            refusal(heap, b"a\nb abcdefghijklmnopqrstuvwxyz0123456")?,
            wrong(2, Fault::NameTooLong)
        );
        Ok(())
    }

    #[test]
    fn a_name_is_printable_ascii(rt: HostRuntime) -> Result<(), Fail> {
        let heap = rt.alloc();
        assert_eq!(rt; read(heap, b"!~ ~!")?.references(), 1);
        assert_eq!(rt; refusal(heap, b"a\x7f")?, wrong(1, Fault::NameNotPrintable));
        assert_eq!(rt;
            refusal(heap, b"\na b\x00")?,
            wrong(2, Fault::NameNotPrintable)
        );
        assert_eq!(rt;
            refusal(heap, b"a\xc3\xa9")?,
            wrong(1, Fault::NameNotPrintable)
        );
        Ok(())
    }

    #[test]
    fn a_part_is_described_once(rt: HostRuntime) -> Result<(), Fail> {
        assert_eq!(rt;
            refusal(rt.alloc(), b"a b\nb a\n# a\na")?,
            wrong(4, Fault::DescribedTwice)
        );
        Ok(())
    }

    // A description of `parts` parts, `pN` on a line of its own.
    fn many(heap: Global, parts: u16) -> Result<String, Fail> {
        let mut text = String::new(heap);
        for i in 0..parts {
            text.push_str(format!(in heap; "p{i}\n")?.as_str())?;
        }
        Ok(text)
    }

    #[test]
    fn a_drawing_has_1024_parts_at_most(rt: HostRuntime) -> Result<(), Fail> {
        let heap = rt.alloc();
        assert_eq!(rt; read(heap, many(heap, 1024)?.as_bytes())?.lines(), 1024);
        assert_eq!(rt;
            refusal(heap, many(heap, 1025)?.as_bytes())?,
            wrong(1025, Fault::TooManyParts)
        );
        Ok(())
    }

    #[test]
    fn a_refusal_names_the_line(rt: HostRuntime) -> Result<(), Fail> {
        let heap = rt.alloc();
        let said = refusal(heap, b"a b\n\na")?.to_string(heap)?;
        assert_eq!(rt; said.as_str(), "line 3: this part is described already");
        Ok(())
    }

    fn edits(heap: Global, text: &[u8]) -> Result<Vec<Edit>, Fail> {
        let drawing = read(heap, text)?;
        Ok(read_edits(heap, text, &drawing)?)
    }

    // The error that the edits of a text give, where its descriptions have none.
    fn edit_refusal(heap: Global, text: &[u8]) -> Result<ReadError, Fail> {
        let drawing = read(heap, text)?;
        match read_edits(heap, text, &drawing) {
            Ok(_) => Err(Fail::new("the edits were taken")),
            Err(error) => Ok(error),
        }
    }

    fn edit(slot: u16, content: u16) -> Edit {
        Edit { slot, content }
    }

    #[test]
    fn edits_name_a_slot_and_a_part_or_none(rt: HostRuntime) -> Result<(), Fail> {
        let heap = rt.alloc();
        let text = b"b.0 = a\na b\n# a.1 = a\na.3 =\nb\na.0\t=  b";
        assert_eq!(rt; read(heap, text)?.lines(), 2);
        assert!(rt;
            edits(heap, text)?.as_slice() == [edit(4, 1), edit(3, 0), edit(0, 2)].as_slice()
        );
        assert_eq!(rt; edits(heap, b"a b\n\nb a")?.len(), 0);
        Ok(())
    }

    #[test]
    fn a_slot_is_edited_as_often_as_the_text_says(rt: HostRuntime) -> Result<(), Fail> {
        let found = edits(rt.alloc(), b"a b\na.2 = b\na.2 =\na.2 = a")?;
        assert!(rt; found.as_slice() == [edit(2, 2), edit(2, 0), edit(2, 1)].as_slice());
        Ok(())
    }

    #[test]
    fn names_may_hold_dots(rt: HostRuntime) -> Result<(), Fail> {
        let found = edits(rt.alloc(), b"a.1 a\na.1.2 = a\na.1 = a.1")?;
        assert!(rt; found.as_slice() == [edit(2, 2), edit(5, 1)].as_slice());
        Ok(())
    }

    #[test]
    fn an_edit_is_well_formed(rt: HostRuntime) -> Result<(), Fail> {
        let heap = rt.alloc();
        assert_eq!(rt; edit_refusal(heap, b"a = a\na")?, wrong(1, Fault::BadEdit));
        assert_eq!(rt;
            edit_refusal(heap, b"a\na.4 = a")?,
            wrong(2, Fault::BadEdit)
        );
        assert_eq!(rt; edit_refusal(heap, b"a\n.0 = a")?, wrong(2, Fault::BadEdit));
        assert_eq!(rt;
            edit_refusal(heap, b"a\na.0 =\nx.0 = a a")?,
            wrong(3, Fault::BadEdit)
        );
        Ok(())
    }

    #[test]
    fn an_edit_names_parts_of_the_drawing(rt: HostRuntime) -> Result<(), Fail> {
        let heap = rt.alloc();
        assert_eq!(rt;
            edit_refusal(heap, b"a\n\na.0 = b\nb.0 = a")?,
            wrong(3, Fault::UnknownPart)
        );
        assert_eq!(rt;
            edit_refusal(heap, b"b.0 =\na")?,
            wrong(1, Fault::UnknownPart)
        );
        Ok(())
    }

    #[test]
    fn descriptions_are_refused_before_edits(rt: HostRuntime) -> Result<(), Fail> {
        assert_eq!(rt;
            refusal(rt.alloc(), b"a.9 = b\na\na")?,
            wrong(3, Fault::DescribedTwice)
        );
        Ok(())
    }

    #[test]
    fn a_line_is_found_by_what_it_says(rt: HostRuntime) -> Result<(), Fail> {
        let heap = rt.alloc();
        let text = b"# b\na b\nb.0 = a\nb\na.1 =";
        assert_eq!(rt; find_line(heap, text, LineKind::Mention, b"b", 0)?, Some(2));
        assert_eq!(rt;
            find_line(heap, text, LineKind::Description, b"b", 0)?,
            Some(4)
        );
        assert_eq!(rt; find_line(heap, text, LineKind::Edit, b"", 1)?, Some(5));
        assert_eq!(rt; find_line(heap, text, LineKind::Mention, b"c", 0)?, None);
        Ok(())
    }
}
