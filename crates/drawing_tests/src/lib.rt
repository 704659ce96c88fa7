//! Examples of odd inputs.
#![tactic(auto)]

#[cfg(test)]
mod tests {
    use bitboard::Bitboard;
    use drawing::draw_input;
    use mailbox::Mailbox;
    use std::test::Fail;

    // Whether an input is drawn so, on both makes of board.
    fn draws(rt: &HostRuntime, input: &[u8], drawn: &[u8]) -> Result<bool, Fail> {
        let by_mailbox = draw_input(rt.alloc(), Mailbox::new(), input)?;
        let by_bitboard = draw_input(rt.alloc(), Bitboard::new(), input)?;
        Ok(by_mailbox.as_slice() == drawn && by_bitboard.as_slice() == drawn)
    }

    #[test]
    fn odd_inputs(rt: HostRuntime) -> Result<(), Fail> {
        assert!(rt; draws(&rt, b"", b"")?, "an empty input has no line");
        assert!(rt;
            draws(&rt, b"\n", b"% fault 23 layer 2 byte 0 line 1\n\n")?,
            "an empty line"
        );
        assert!(rt;
            draws(&rt, b"w", b"% fault 23 layer 2 byte 0 line 1\n\n")?,
            "no final line feed"
        );
        assert!(rt;
            draws(
                &rt,
                b"\xff\n\x80",
                b"% fault 23 layer 2 byte 0 line 1\n\n% fault 23 layer 2 byte 2 line 2\n\n",
            )?,
            "bytes above 127"
        );
        assert!(rt;
            draws(
                &rt,
                b"4k3/8/8/8/8/8/8/4K3 w - - 0 1\r\n",
                b"% fault 23 layer 2 byte 0 line 1\n\n",
            )?,
            "a carriage return"
        );
        Ok(())
    }

    #[test]
    fn long_line(rt: HostRuntime) -> Result<(), Fail> {
        let eights = vec![in rt.alloc(); b'8'; 100000]?;
        assert!(rt; draws(&rt, &eights, b"% fault 23 layer 2 byte 0 line 1\n\n")?);
        Ok(())
    }

    #[test]
    fn a_position(rt: HostRuntime) -> Result<(), Fail> {
        let drawn =
            b"8 . . . . k . . .\n7 . . . . . . . .\n6 . . . . . . . .\n5 . . . . . . . .\n4 . . . . . . . .\n3 . . . . . . . .\n2 . . . . . . . .\n1 . . . . K . . r\n  a b c d e f g h\nWhite to move, in check\n4k3/8/8/8/8/8/8/4K2r w - - 0 1\nKd2 Ke2 Kf2\n\n";
        assert!(rt; draws(&rt, b"4k3/8/8/8/8/8/8/4K2r w - - 0 1", drawn)?);
        Ok(())
    }
}
