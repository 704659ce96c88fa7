//! Reading the piece placement.
ghost use Rattle.std.specs.Prelude.{◌≡◌, false, []};
ghost use Rattle.notation.specs.Reader.{read_as};
ghost use Rattle.notation.specs.Fields.{is_gap as gap_digit, rank_end as end_of_rank, read_rank, read_ranks};

use crate::fen::fields;
use board::piece;

// Whether a byte is a digit for empty squares.
fn is_gap(byte: u8) -> bool
    ensures { result ≡ gap_digit byte }
{
    matches!(byte, b'1'..=b'8')
}

// The eight codes of a rank, and the rest behind it.
// An array and a file, where an ArrayVec would call for each gap and each rank what copies so many bytes, and take half as long again.
fn rank(text: &[u8]) -> Option<([u8; 8], &[u8])>
    ensures { read_as (λ codes. codes) result ≡ read_rank false [] text.now }
{
    let mut codes = [0; 8];
    let mut file = 0;
    let mut after_gap = false;
    let mut rest = text;
    while file < 8 {
        let (byte, behind) = rest.split_first()?;
        let gap = is_gap(*byte);
        if gap {
            if after_gap {
                return None;
            }
            file += usize::from(byte - b'0');
        } else {
            codes[file] = piece::from_letter(*byte)?;
            file += 1;
        }
        after_gap = gap;
        rest = behind;
    }
    (file == 8).then_some((codes, rest))
}

/// The byte behind a rank with so many ranks to come.
pub(crate) fn rank_end(left: usize) -> u8
    ensures { result ≡ end_of_rank left }
{
    if left == 0 { b' ' } else { b'/' }
}

/// The 64 codes, and the rest behind the placement and its space.
pub(crate) fn placement(text: &[u8]) -> Option<([u8; 64], &[u8])>
    ensures { read_as (λ codes. codes) result ≡ read_ranks 8 [] text.now }
{
    let mut codes = [0; 64];
    let mut rest = text;
    // The rows are counted, since std says nothing of what a table ends as behind its mutable chunks.
    for row in (0..8usize).rev() {
        let (squares, behind) = rank(rest)?;
        codes[8 * row..8 * row + 8].copy_from_slice(&squares);
        rest = fields::past(behind, rank_end(row))?;
    }
    Some((codes, rest))
}
