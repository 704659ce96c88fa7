//! Names and values of tag pairs.
ghost use Rattle.std.specs.Prelude.{◌≡◌};
ghost use Rattle.std.specs.List.{list_all};
ghost use Rattle.game.specs.Tags.{is_name_byte as name_byte, is_value_byte as value_byte, is_name as name_text, is_reserved as reserved, is_value as value_text};
ghost use Rattle.san.specs.Text.{same_bytes};

// Whether two texts are the same bytes.
fn same(text: &[u8], word: &[u8]) -> bool
    ensures { result ≡ same_bytes text.now word.now }
{
    text == word
}

// A letter, a digit or an underscore.
fn is_name_byte(byte: u8) -> bool
    ensures { result ≡ name_byte byte }
{
    byte.is_ascii_alphanumeric() || byte == b'_'
}

fn are_name_bytes(text: &[u8]) -> bool
    ensures { result ≡ list_all name_byte text.now }
{
    text.iter().all(|byte| is_name_byte(*byte))
}

fn are_value_bytes(text: &[u8]) -> bool
    ensures { result ≡ list_all value_byte text.now }
{
    text.iter().all(|byte| *byte >= 32 && *byte != 127)
}

/// Whether a text may be the name of a tag: 1 to 32 letters, digits or underscores.
#[tactic(auto, unfolding(game::specs::Tags::is_name))]
pub fn is_name(text: &[u8]) -> bool
    ensures { result ≡ name_text text.now }
{
    text.len() >= 1 && text.len() <= 32 && are_name_bytes(text)
}

/// Whether a name is that of a tag that calls of their own set.
#[tactic(auto, unfolding(game::specs::Tags::is_reserved))]
pub fn is_reserved(name: &[u8]) -> bool
    ensures { result ≡ reserved name.now }
{
    same(name, b"Result") || same(name, b"SetUp") || same(name, b"FEN")
}

/// Whether a text may be the value of a tag: at most 200 bytes, none of them below 32 or 127.
#[tactic(auto, unfolding(game::specs::Tags::is_value))]
pub fn is_value(text: &[u8]) -> bool
    ensures { result ≡ value_text text.now }
{
    text.len() <= 200 && are_value_bytes(text)
}
