// Frames on examples: read, written and read back.
#![tactic(auto)]

#[cfg(test)]
mod tests {
    use frames::codec::{read, read_fields, write};
    use frames::frame::Frame;
    use frames::kinds::{
        BookingFrame, BookingRecord, ClassFrame, DepositFrame, FaultFrame, PairFrame,
        SecurityFrame, TotalFrame,
    };
    use std::test::Fail;
    use terms::choice::{ClassKind, Side};

    // Whether a line reads as a frame of one kind, and is written again as it was, with its line feed.
    fn reads_back<F: Frame>(line: &[u8]) -> bool
    where
        F::Record: Drop,
    {
        let mut memory = [b'.'; 100];
        let Ok(item) = read::<F>(line) else {
            return false;
        };
        let Ok(count) = write::<F>(&item, &mut memory) else {
            return false;
        };
        let Some(front) = memory.get(0..count) else {
            return false;
        };
        front
            .split_last()
            .is_some_and(|(feed, text)| *feed == b'\n' && text == line)
    }

    // The number of the refusal of a line; none where it reads.
    fn refused<F: Frame>(line: &[u8]) -> Option<u8>
    where
        F::Record: Drop,
    {
        read::<F>(line).err().map(|fault| u8::from(fault.refusal))
    }

    // The same of fields without their line.
    fn fields_refused<F: Frame>(fields: &[u8]) -> Option<u8>
    where
        F::Record: Drop,
    {
        read_fields::<F>(fields)
            .err()
            .map(|fault| u8::from(fault.refusal))
    }

    // The seven lines of the example of two bonds.
    #[test]
    fn two_bonds(rt: HostRuntime) {
        assert!(rt; reads_back::<ClassFrame>(b"43020200014A000050000118"));
        assert!(rt; reads_back::<SecurityFrame>(b"53000200ABE0000027100028380A"));
        assert!(rt; reads_back::<SecurityFrame>(b"53010200A07EB8002710002D6F3F"));
        assert!(rt; reads_back::<BookingFrame>(b"420001000003E8"));
        assert!(rt; reads_back::<BookingFrame>(b"420102000003E8"));
        assert!(rt;
            reads_back::<DepositFrame>(
                b"4402000000000000D20D000000000007728400000000000CAF4A0000000000000000000000000014F3DB",
            )
        );
        assert!(rt; reads_back::<TotalFrame>(b"5401000200000000000014F3DB"));
    }

    // Its first line, figure by figure.
    #[test]
    fn figures(rt: HostRuntime) -> Result<(), Fail> {
        let item = read::<ClassFrame>(b"43020200014A000050000118")?;
        assert_eq!(rt; item.class, 2);
        assert_eq!(rt; item.kind, ClassKind::Duration);
        assert_eq!(rt; item.y, 330);
        assert_eq!(rt; item.x, 80);
        assert_eq!(rt; item.dep, 280);
        Ok(())
    }

    #[test]
    fn least(rt: HostRuntime) {
        assert!(rt; reads_back::<ClassFrame>(b"430001000000000000000000"));
        assert!(rt; reads_back::<SecurityFrame>(b"5300000000000000000000000000"));
        assert!(rt; reads_back::<PairFrame>(b"500000000000"));
        assert!(rt; reads_back::<BookingFrame>(b"42000100000000"));
        assert!(rt;
            reads_back::<DepositFrame>(
                b"440000000000000000000000000000000000000000000000000000000000000000000000000000000000",
            )
        );
        assert!(rt; reads_back::<TotalFrame>(b"54000000000000000000000000"));
        assert!(rt; reads_back::<FaultFrame>(b"460000000000000000"));
    }

    #[test]
    fn greatest(rt: HostRuntime) {
        assert!(rt; reads_back::<ClassFrame>(b"43FF02FFFFFFFFFFFFFFFFFF"));
        assert!(rt; reads_back::<SecurityFrame>(b"53FFFFFFFFFFFFFFFFFFFFFFFFFF"));
        assert!(rt; reads_back::<PairFrame>(b"50FFFFFFFFFF"));
        assert!(rt; reads_back::<BookingFrame>(b"42FF02FFFFFFFF"));
        assert!(rt;
            reads_back::<DepositFrame>(
                b"44FFFFFFFFFFFFFFFFFFFFFFFFFFFFFFFFFFFFFFFFFFFFFFFFFFFFFFFFFFFFFFFFFFFFFFFFFFFFFFFFFF",
            )
        );
        assert!(rt; reads_back::<TotalFrame>(b"54FFFFFFFFFFFFFFFFFFFFFFFF"));
        assert!(rt; reads_back::<FaultFrame>(b"46FFFFFFFFFFFFFFFF"));
    }

    #[test]
    fn damaged(rt: HostRuntime) {
        assert_eq!(rt; refused::<BookingFrame>(b"420001000003E8"), None);
        assert_eq!(rt; refused::<BookingFrame>(b""), Some(30));
        assert_eq!(rt; refused::<BookingFrame>(b"420001000003e8"), Some(30));
        assert_eq!(rt; refused::<BookingFrame>(b"420001000003E"), Some(30));
        assert_eq!(rt; refused::<BookingFrame>(b"4"), Some(30));
        assert_eq!(rt; refused::<BookingFrame>(b"990001000003E8"), Some(31));
        assert_eq!(rt; refused::<BookingFrame>(b"43"), Some(31));
        assert_eq!(rt; refused::<BookingFrame>(b"42"), Some(32));
        assert_eq!(rt; refused::<BookingFrame>(b"420003000003E800"), Some(32));
        assert_eq!(rt; refused::<BookingFrame>(b"420003000003E8"), Some(33));
        assert_eq!(rt;
            refused::<ClassFrame>(b"43020000014A000050000118"),
            Some(33)
        );
    }

    // Fields without their line; what is no digits is refused as that, whatever its length.
    #[test]
    fn fields_alone(rt: HostRuntime) -> Result<(), Fail> {
        let item = read_fields::<BookingFrame>(b"0102000003E8")?;
        assert_eq!(rt; item.security, 1);
        assert!(rt; matches!(item.side, Side::Sold));
        assert_eq!(rt; item.quantity, 1000);
        assert_eq!(rt; fields_refused::<BookingFrame>(b"0102000003E8"), None);
        assert_eq!(rt; fields_refused::<BookingFrame>(b"0102000003e8"), Some(30));
        assert_eq!(rt; fields_refused::<BookingFrame>(b"G"), Some(30));
        assert_eq!(rt; fields_refused::<BookingFrame>(b""), Some(32));
        assert_eq!(rt; fields_refused::<BookingFrame>(b"0103000003"), Some(32));
        assert_eq!(rt; fields_refused::<BookingFrame>(b"0103000003E8"), Some(33));
        Ok(())
    }

    // A fault in words.
    #[test]
    fn told(rt: HostRuntime) -> Result<(), Fail> {
        let Err(fault) = read::<BookingFrame>(b"420003000003E8") else {
            return Err(Fail::new("read"));
        };
        let text = format!(in rt.alloc(); "{fault}")?;
        assert_eq!(rt;
            text.as_str(),
            "the side or the kind of class is neither 01 nor 02 (refusal 33, frame, place 0)"
        );
        Ok(())
    }

    // The memory has to hold the feed too; a refused write leaves it as it was.
    #[test]
    fn short_memory(rt: HostRuntime) -> Result<(), Fail> {
        let item = BookingRecord {
            security: 1,
            side: Side::Sold,
            quantity: 1000,
        };
        let mut memory = [b'.'; 16];
        match write::<BookingFrame>(&item, &mut memory[0..14]) {
            Ok(_) => return Err(Fail::new("written")),
            Err(fault) => assert_eq!(rt; u8::from(fault.refusal), 34),
        }
        assert!(rt; memory == *b"................");
        assert_eq!(rt; write::<BookingFrame>(&item, &mut memory)?, 15);
        assert!(rt; memory == *b"420102000003E8\n.");
        Ok(())
    }
}
