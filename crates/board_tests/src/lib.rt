//! Examples for every make of board.
#![tactic(auto)]

#[cfg(test)]
mod tests {
    use bitboard::Bitboard;
    use board::Board;
    use board::check::{in_check, would_attack};
    use board::picture::{picture, show};
    use board::side::Side;
    use mailbox::Mailbox;
    use std::process::Abort;

    // Clears the board and puts a code on each square of a list.
    fn set<B: Board>(board: &mut B, men: &[(u8, u8)]) {
        board.clear();
        for (code, square) in men {
            board.put(*square, *code);
        }
    }

    // Whether the board has a list's code on each of its squares.
    fn shows<B: Board>(board: &B, men: &[(u8, u8)]) -> bool {
        men.iter()
            .all(|(code, square)| board.look(*square) == *code)
    }

    // Whether a side attacks every square of one list and none of another.
    fn attacks<B: Board>(board: &B, by: Side, these: &[u8], not: &[u8]) -> bool {
        these.iter().all(|square| board.attacked(by, *square))
            && !not.iter().any(|square| board.attacked(by, *square))
    }

    fn looks_and_puts<B: Board>(rt: &impl Abort, board: &mut B) {
        set(board, &[(5, 28)]);
        assert_eq!(rt; board.put(28, 11), 5, "the former code comes back");
        assert!(rt; shows(board, &[(11, 28), (0, 63), (255, 64), (255, 255)]));
        assert_eq!(rt; board.put(64, 1), 255, "above the board");
        assert_eq!(rt; board.put(28, 13), 255, "no such code");
        assert!(rt; shows(board, &[(11, 28)]), "a refused put writes nothing");
        board.clear();
        assert!(rt; shows(board, &[(0, 28)]));
    }

    fn finds_next<B: Board>(rt: &impl Abort, board: &mut B) {
        set(board, &[(1, 11), (1, 63)]);
        assert_eq!(rt; board.next(0, 1), Some(11));
        assert_eq!(rt; board.next(11, 1), Some(11));
        assert_eq!(rt; board.next(12, 1), Some(63));
        assert_eq!(rt; board.next(64, 1), None);
        assert_eq!(rt; board.next(11, 0), Some(12));
        assert_eq!(rt; board.next(0, 2), None);
        assert_eq!(rt; board.next(0, 255), None);
    }

    fn steps<B: Board>(rt: &impl Abort, board: &mut B) {
        set(board, &[(1, 28), (1, 15)]);
        assert!(rt;
            attacks(board, Side::White, &[35, 37, 22], &[36, 19, 21, 24, 16, 64]),
            "white pawns on e4 and h2"
        );
        assert!(rt;
            attacks(board, Side::Black, &[], &[35, 37, 22]),
            "attack for White alone"
        );
        set(board, &[(7, 28)]);
        assert!(rt;
            attacks(board, Side::Black, &[19, 21], &[35, 37, 20]),
            "a black pawn on e4"
        );
        set(board, &[(2, 7), (12, 28)]);
        assert!(rt;
            attacks(board, Side::White, &[13, 22], &[24, 15, 6]),
            "a knight on h1"
        );
        assert!(rt;
            attacks(
                board,
                Side::Black,
                &[19, 20, 21, 27, 29, 35, 36, 37],
                &[28, 12],
            ),
            "a king on e4"
        );
    }

    fn lines<B: Board>(rt: &impl Abort, board: &mut B) {
        set(board, &[(4, 4), (3, 0), (11, 59)]);
        assert!(rt;
            attacks(board, Side::White, &[60, 7, 63, 3], &[13, 61]),
            "rook e1, bishop a1"
        );
        assert!(rt;
            attacks(board, Side::Black, &[27, 3, 56, 63, 32], &[26]),
            "queen d8"
        );
        board.put(28, 7);
        assert!(rt;
            attacks(board, Side::White, &[28, 20], &[60]),
            "a line ends with the first piece"
        );
        board.put(27, 2);
        assert!(rt;
            attacks(board, Side::White, &[27], &[63]),
            "which may be the own one"
        );
        assert!(rt;
            attacks(board, Side::Black, &[27, 19], &[11]),
            "the pawn on e4 attacks d3"
        );
    }

    fn checks<B: Board>(rt: &impl Abort, board: &mut B) {
        board.clear();
        assert!(rt;
            !in_check(board, Side::White),
            "with no king there is no check"
        );
        set(board, &[(6, 0), (6, 4), (10, 60)]);
        assert!(rt; in_check(board, Side::White), "the second king is attacked");
        assert!(rt; !in_check(board, Side::Black));
        assert!(rt; !would_attack(board, 28, 1, Side::Black, 4));
        assert!(rt; shows(board, &[(0, 28)]), "the board is as before");
    }

    fn pictures<B: Board>(rt: &impl Abort, board: &mut B) {
        set(board, &[(6, 18), (12, 60)]);
        let taken = picture(board);
        set(board, &[(1, 11)]);
        show(board, &taken);
        assert!(rt; shows(board, &[(6, 18), (12, 60), (0, 11)]));
    }

    fn all<B: Board>(rt: &impl Abort, board: &mut B) {
        looks_and_puts(rt, board);
        finds_next(rt, board);
        steps(rt, board);
        lines(rt, board);
        checks(rt, board);
        pictures(rt, board);
    }

    #[test]
    fn mailbox_answers(rt: HostRuntime) {
        all(&rt, &mut Mailbox::new());
    }

    #[test]
    fn bitboard_answers(rt: HostRuntime) {
        all(&rt, &mut Bitboard::new());
    }
}
