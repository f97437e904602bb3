//! The symbol at the front of bytes: a character, or one byte that begins none.
ghost use Rattle.std.specs.Prelude.{◌≡◌, ◌<◌, ◌≤◌, ◌∷◌, ◌++◌, ℕ, List, IfNone, IfSome};
ghost use Rattle.std.specs.Prelude.{IsFalse, IsTrue, drop, length, nat_lt, take};
ghost use Rattle.std.specs.List.{list_any};
ghost use Rattle.td_scan.specs.code.Fronts.{IsKnown, char_size};
ghost use Rattle.td_tree.specs.model.Symbols.{front_bytes, front_char, symbols};

/// What stands at the front: its character, if it is one, and how many bytes it takes.
#[derive(Clone, Copy)]
pub struct Front {
    pub character: Option<char>,
    pub size: usize,
}

/// How many bytes a character takes that begins with this one.
fn char_size(lead: u8) -> usize
    ensures is { result ≡ char_size lead }
    ensures most { result ≤ 4 }
{
    if lead < 128 {
        1
    } else if lead < 224 {
        2
    } else if lead < 240 {
        3
    } else {
        4
    }
}

/// The bytes that a character at the front takes, or fewer where there are fewer.
#[tactic(auto, using(td_tree::proofs::law_lemmas::FrontLaws::all_taken))]
fn front_bytes(bytes: &[u8]) -> &[u8]
    requires { 0 < length bytes.now }
    ensures { result.now ≡ front_bytes bytes.now }
{
    let size = char_size(bytes[0]);
    if bytes.len() < size {
        return bytes;
    }
    bytes.split_at(size).0
}

/// The character at the front, or `None` where no UTF-8 character begins there.
#[tactic(auto, using(td_tree::proofs::law_lemmas::FrontLaws::invalid))]
fn front_char(bytes: &[u8]) -> Option<char>
    requires { 0 < length bytes.now }
    ensures { result ≡ front_char bytes.now }
{
    match str::from_utf8(front_bytes(bytes)) {
        Ok(text) => text.chars().next(),
        Err(_) => None,
    }
}

/// The symbol at the front of bytes of which the first is no ASCII.
fn wide_symbol(bytes: &[u8]) -> Front
    requires { 0 < length bytes.now }
    ensures step { symbols bytes.now
        ≡ (record { character = result.character; text = take result.size bytes.now })
        ∷ symbols (drop result.size bytes.now) }
    ensures some { 0 < result.size }
    ensures within { result.size ≤ length bytes.now }
{
    match front_char(bytes) {
        Some(character) => Front {
            character: Some(character),
            size: front_bytes(bytes).len(),
        },
        None => Front {
            character: None,
            size: 1,
        },
    }
}

/// The symbol at the front.
pub fn symbol_at_front(bytes: &[u8]) -> Front
    requires { 0 < length bytes.now }
    ensures step { symbols bytes.now
        ≡ (record { character = result.character; text = take result.size bytes.now })
        ∷ symbols (drop result.size bytes.now) }
    ensures some { 0 < result.size }
    ensures within { result.size ≤ length bytes.now }
{
    let first = bytes[0];
    if first < 128 {
        return Front {
            character: Some(first as char),
            size: 1,
        };
    }
    wide_symbol(bytes)
}

/// Whether one of the bytes is ASCII.
fn has_ascii(bytes: &[u8]) -> bool
    ensures { result ≡ list_any (λ b. nat_lt b 128) bytes.now }
{
    bytes.iter().any(|byte| *byte < 128)
}

/// Whether the symbol at the front is the same whatever follows the bytes.
fn is_known(bytes: &[u8]) -> bool
    requires { 0 < length bytes.now }
    ensures known { IsTrue result → IsKnown bytes.now }
    ensures short { IsFalse result → length bytes.now < 4 }
{
    bytes.len() >= char_size(bytes[0]) || has_ascii(bytes)
}

/// The symbol at the front of bytes of which the first is no ASCII, where it is the same whatever
/// follows the bytes.
fn wide_front(bytes: &[u8]) -> Option<Front>
    requires { 0 < length bytes.now }
    ensures step { IfSome result (λ front. (later : List ℕ) → symbols (bytes.now ++ later)
        ≡ (record { character = front.character; text = take front.size bytes.now })
        ∷ symbols (drop front.size bytes.now ++ later)) }
    ensures some { IfSome result (λ front. 0 < front.size) }
    ensures within { IfSome result (λ front. front.size ≤ length bytes.now) }
    ensures none { IfNone result (length bytes.now < 4) }
{
    if !is_known(bytes) {
        return None;
    }
    Some(wide_symbol(bytes))
}

/// The symbol at the front, where it is the same whatever follows the bytes. Where there are four
/// bytes it is.
#[inline]
pub fn known_front(bytes: &[u8]) -> Option<Front>
    ensures step { IfSome result (λ front. (later : List ℕ) → symbols (bytes.now ++ later)
        ≡ (record { character = front.character; text = take front.size bytes.now })
        ∷ symbols (drop front.size bytes.now ++ later)) }
    ensures some { IfSome result (λ front. 0 < front.size) }
    ensures within { IfSome result (λ front. front.size ≤ length bytes.now) }
    ensures none { IfNone result (length bytes.now < 4) }
{
    if bytes.is_empty() {
        return None;
    }
    let first = bytes[0];
    if first < 128 {
        return Some(Front {
            character: Some(first as char),
            size: 1,
        });
    }
    wide_front(bytes)
}
