//! The words of a remark.
ghost use Rattle.std.specs.Prelude.{◌≡◌, ◌+◌, ◌<◌, ◌≤◌, ◌∷◌, ◌++◌, [], not, length, MatchOption};
ghost use Rattle.std.specs.List.{position_or_len};
ghost use Rattle.std.specs.List.{list_any};
ghost use Rattle.arrayvec.specs.ArrayVec.{array_vec_len};
ghost use Rattle.game.specs.Record.{most_remark_bytes};
ghost use Rattle.game.specs.Words.{is_blank as blank, is_word_byte as word_byte, is_bad_byte as bad_byte, is_long as long_word, words, kept, remark_answer};

use arrayvec::ArrayVec;
use faults::NotationFault;

// A space, a tab, a carriage return or a line feed.
fn is_blank(byte: u8) -> bool
    ensures { result ≡ blank byte }
{
    matches!(byte, b' ' | b'\t' | b'\r' | b'\n')
}

// How many blanks a text begins with.
fn leading_blanks(text: &[u8]) -> usize
    ensures value { result ≡ position_or_len (λ b. not (blank b)) text.now }
    ensures most { result ≤ length text.now }
{
    text.iter()
        .position(|byte| !is_blank(*byte))
        .unwrap_or(text.len())
}

// How many bytes a text has before its first blank.
fn before_blank(text: &[u8]) -> usize
    ensures value { result ≡ position_or_len blank text.now }
    ensures most { result ≤ length text.now }
{
    text.iter()
        .position(|byte| is_blank(*byte))
        .unwrap_or(text.len())
}

// The first word of a text and what stands behind it, or none where the text has blanks alone.
fn next_word(text: &[u8]) -> Option<(&[u8], &[u8])>
    ensures { MatchOption result (words text.now ≡ []) (λ r. (words text.now ≡ r.0.now ∷ words r.1.now) × (0 < length r.0.now) × (length r.0.now + length r.1.now ≤ length text.now)) }
{
    let text = text.split_at(leading_blanks(text)).1;
    if text.is_empty() {
        return None;
    }
    Some(text.split_at(before_blank(text)))
}

// A byte from 33 to 126 without }, or from 128 on.
fn is_word_byte(byte: u8) -> bool
    ensures { result ≡ word_byte byte }
{
    (byte.is_ascii_graphic() && byte != b'}') || byte >= 128
}

// Whether a text has a byte that may not stand in a remark.
fn has_bad_byte(text: &[u8]) -> bool
    ensures { result ≡ list_any bad_byte text.now }
{
    text.iter()
        .any(|byte| !is_blank(*byte) && !is_word_byte(*byte))
}

// Whether a text has a word over 77 bytes.
fn has_long_word(text: &[u8]) -> bool
    ensures { result ≡ list_any long_word (words text.now) }
{
    let mut rest = text;
    while let Some((word, behind)) = next_word(rest) {
        if word.len() > 77 {
            return true;
        }
        rest = behind;
    }
    false
}

// How many bytes are kept of a text: its words and a space between each and the next.
#[tactic(auto, unfolding(game::specs::Words::kept))]
fn kept_len(text: &[u8]) -> usize
    ensures { result ≡ length (kept text.now) }
{
    let Some((first, mut rest)) = next_word(text) else {
        return 0;
    };
    let mut len = first.len();
    while let Some((word, behind)) = next_word(rest) {
        len += 1 + word.len();
        rest = behind;
    }
    len
}

/// How many bytes are kept of a remark, or the fault that it has a bad byte or a long word, or no word.
#[tactic(auto, unfolding(game::specs::Words::is_bad_remark, game::specs::Words::remark_answer, game::specs::Words::kept))]
pub fn judge(text: &[u8]) -> Result<usize, NotationFault>
    ensures { result ≡ remark_answer text.now }
{
    if has_bad_byte(text) || has_long_word(text) {
        return Err(NotationFault::BadRemark);
    }
    if next_word(text).is_none() {
        return Err(NotationFault::NoWord);
    }
    Ok(kept_len(text))
}

/// The room for the remarks of a game.
pub(crate) type Store = ArrayVec<u8, 4096>;

// Some bytes behind what a store holds.
fn add(store: &mut Store, bytes: &[u8])
    requires { array_vec_len store.old + length bytes.now ≤ most_remark_bytes }
    ensures { store.new.items ≡ store.old.items ++ bytes.now }
{
    store.try_extend_from_slice(bytes).unwrap();
}

/// What is kept of a text, its words and a space between each and the next, behind what a store holds.
#[tactic(auto, unfolding(game::specs::Words::kept))]
pub(crate) fn keep(store: &mut Store, text: &[u8])
    requires { array_vec_len store.old + length (kept text.now) ≤ most_remark_bytes }
    ensures { store.new.items ≡ store.old.items ++ kept text.now }
{
    let Some((first, mut rest)) = next_word(text) else {
        return;
    };
    add(store, first);
    while let Some((word, behind)) = next_word(rest) {
        store.push(b' ');
        add(store, word);
        rest = behind;
    }
}
