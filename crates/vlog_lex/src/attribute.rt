ghost use Rattle.std.specs.Prelude.{◌≡◌, ◌+◌, ◌<◌, ◌≤◌, ℕ, length, IfSome, IfNone};
ghost use Rattle.vlog_lex.specs.Attribute.{EndsString, EndsAttribute};

use crate::place::stand_at;

/// The place of the `*)` that ends the attribute whose inside begins at `start`.
pub fn attribute_end(bytes: &[u8], start: usize) -> Option<usize>
    requires { start ≤ length bytes.now }
    ensures found { IfSome result (EndsAttribute bytes.now start) }
    ensures none { IfNone result ((e : ℕ) → EndsAttribute bytes.now start e → ⊥) }
    ensures within { IfSome result (λ e. e + 2 ≤ length bytes.now) }
{
    let mut at = start;
    while at < bytes.len() {
        if stand_at(b'*', b')', bytes, at) {
            return Some(at);
        }
        at = match bytes[at] {
            b'"' => string_end(bytes, at + 1)? + 1,
            _ => at + 1,
        };
    }
    None
}

/// The place of the quote that ends the string whose inside begins at `start`. A backslash takes the next byte with it.
fn string_end(bytes: &[u8], start: usize) -> Option<usize>
    requires { start ≤ length bytes.now }
    ensures found { IfSome result (EndsString bytes.now start) }
    ensures none { IfNone result ((e : ℕ) → EndsString bytes.now start e → ⊥) }
    ensures within { IfSome result (λ e. (start ≤ e) × (e < length bytes.now)) }
{
    let mut at = start;
    while at < bytes.len() {
        match bytes[at] {
            b'"' => return Some(at),
            b'\\' => at += 2,
            _ => at += 1,
        }
    }
    None
}
