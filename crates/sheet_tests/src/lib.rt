//! Examples of tag pairs and remarks, at the limits.
#![tactic(auto)]

#[cfg(test)]
mod tests {
    use faults::NotationFault;
    use sheet::name::{is_name, is_reserved, is_value};
    use sheet::word::judge;
    use std::test::Fail;

    #[test]
    fn names(rt: HostRuntime) -> Result<(), Fail> {
        assert!(rt; is_name(b"Event"));
        assert!(rt; is_name(b"White_2"));
        assert!(rt; is_name(&[b'a'; 32]));
        assert!(rt; !is_name(&[b'a'; 33]));
        assert!(rt; !is_name(b""));
        assert!(rt; !is_name(b"White-2"));
        assert!(rt; !is_name(b"Wei\xdf"));
        Ok(())
    }

    #[test]
    fn reserved_names(rt: HostRuntime) -> Result<(), Fail> {
        assert!(rt; is_reserved(b"Result") && is_reserved(b"SetUp") && is_reserved(b"FEN"));
        assert!(rt; !is_reserved(b"Fen") && !is_reserved(b"Results") && !is_reserved(b"Event"));
        Ok(())
    }

    #[test]
    fn values(rt: HostRuntime) -> Result<(), Fail> {
        assert!(rt; is_value(b""));
        assert!(rt; is_value(b" \"\\\xff"));
        assert!(rt; is_value(&[b'a'; 200]));
        assert!(rt; !is_value(&[b'a'; 201]));
        assert!(rt; !is_value(b"a\x1f") && !is_value(b"a\x7f"));
        Ok(())
    }

    #[test]
    fn remarks(rt: HostRuntime) -> Result<(), Fail> {
        assert!(rt; judge(b"good") == Ok(4));
        assert!(rt;
            judge(b"\t a  good\r\nmove ") == Ok(11),
            "single spaces are kept"
        );
        assert!(rt; judge(&[b'a'; 77]) == Ok(77));
        assert!(rt;
            judge(&[b'a'; 78]) == Err(NotationFault::BadRemark),
            "a long word"
        );
        assert!(rt; judge(b"") == Err(NotationFault::NoWord));
        assert!(rt; judge(b" \r\n\t") == Err(NotationFault::NoWord));
        assert!(rt; judge(b"a } b") == Err(NotationFault::BadRemark));
        assert!(rt;
            judge(b"\x0c") == Err(NotationFault::BadRemark),
            "a form feed is no blank"
        );
        assert!(rt; judge(b"\x7f") == Err(NotationFault::BadRemark));
        assert!(rt; judge(b"{ ; \x80\xff") == Ok(6));
        Ok(())
    }
}
