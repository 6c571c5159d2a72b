// The text that the program `inspect` prints.
#![tactic(auto)]

mod argument;
mod lines;
mod text;

pub use text::inspection_text;

#[cfg(test)]
mod tests {
    use crate::inspection_text;
    use crate::lines::USAGE;
    use std::alloc::{AllocError, Global};
    use std::test::Fail;

    // Probe 7, sequence 2, level -5.
    const ITEM: u64 = 0xffff_fffb_0002_0007;

    // The memory of one cell: head 0, end mark -1, and in cell 0 an item of rank 0 with gap -1.
    fn one_cell(heap: Global) -> Result<Vec<u8>, AllocError> {
        let mut words = [0u64; 128];
        for (place, word) in [
            (0, 1),
            (2, u64::MAX),
            (63, 1),
            (64, ITEM),
            (66, u64::MAX),
            (127, ITEM + 1),
        ] {
            words[place] = word;
        }
        let mut memory = Vec::new(heap);
        for word in words {
            memory.extend_from_slice(&word.to_le_bytes())?;
        }
        Ok(memory)
    }

    #[test]
    fn no_number_gives_the_usage(rt: HostRuntime) -> Result<(), Fail> {
        for argument in [
            None,
            Some(""),
            Some("01"),
            Some("+1"),
            Some("18446744073709551616"),
            Some("x"),
        ] {
            let text = inspection_text(rt.alloc(), argument, &[])?;
            assert_eq!(rt; text.as_str(), USAGE);
        }
        Ok(())
    }

    #[test]
    fn an_empty_memory_is_refused(rt: HostRuntime) -> Result<(), Fail> {
        let text = inspection_text(rt.alloc(), Some("1"), &[])?;
        assert_eq!(rt; text.as_str(), "refused 12 0\n");
        Ok(())
    }

    #[test]
    fn a_damaged_block_is_refused(rt: HostRuntime) -> Result<(), Fail> {
        let mut memory = one_cell(rt.alloc())?;
        if let Some(byte) = memory.get_mut(600) {
            *byte = 1;
        }
        let text = inspection_text(rt.alloc(), Some("1"), memory.as_slice())?;
        assert_eq!(rt; text.as_str(), "refused 13 1\n");
        Ok(())
    }

    #[test]
    fn a_whole_memory_is_told(rt: HostRuntime) -> Result<(), Fail> {
        let memory = one_cell(rt.alloc())?;
        let text = inspection_text(rt.alloc(), Some("1"), memory.as_slice())?;
        assert_eq!(rt;
            text.as_str(),
            "checks hold\ncells 1\nhead 0\nend -1\ncell 0 rank 0 gap -1 probe 7 sequence 2 level -5\n"
        );
        Ok(())
    }
}
