ghost use Rattle.std.specs.Prelude.{◌≡◌, ◌↔◌, IsSome, IfSome, Some, nat_eq, true, refl};
ghost use Rattle.std.specs.List.{list_all};
ghost use Rattle.std.specs.Ordering.{nat_cmp};
ghost use Rattle.std.specs.Cmp.{partial_equiv_from_equiv};
ghost use Rattle.std.specs.Cmp.Lexicographic.{pointwise, slice_cmp, nat_list_eq_equiv, nat_list_cmp_total, texts_po, texts_ties};
ghost use Rattle.quilt_types.specs.Layers.{is_name, is_letter, is_name_byte};

use arrayvec::ArrayString;
use std::cmp::Ordering;
use std::fmt;
use std::marker::Model;

/// A layer's name: 1 to 12 bytes out of `a` to `z`, `0` to `9` and `_`, a letter first.
#[derive(Drop)]
pub struct Name {
    text: ArrayString<12>,
}

impl Model for Name {
    ghost use Rattle.std.specs.Prelude.{◌≡◌, List, ℕ, true};
    ghost use Rattle.quilt_types.specs.Layers.{is_name};

    ghost Value = { List ℕ };

    ghost view = { λ n. n.text.bytes };

    ghost invariant = { λ n. is_name n.text.bytes ≡ true };
}

/// Whether the byte is one of `a` to `z`.
fn is_letter_byte(c: u8) -> bool
    ensures { result ≡ is_letter c }
{
    b'a' <= c && c <= b'z'
}

/// Whether the byte may stand in a name.
fn is_byte_of_name(c: u8) -> bool
    ensures { result ≡ is_name_byte c }
{
    is_letter_byte(c) || (b'0' <= c && c <= b'9') || c == b'_'
}

/// Whether each byte may stand in a name.
fn are_bytes_of_name(bytes: &[u8]) -> bool
    ensures { result ≡ list_all is_name_byte bytes.now }
{
    bytes.iter().all(|c| is_byte_of_name(*c))
}

/// Whether the bytes are a name.
fn is_spelled(bytes: &[u8]) -> bool
    ensures { result ≡ is_name bytes.now }
{
    match bytes.split_first() {
        None => false,
        Some((first, rest)) => {
            is_letter_byte(*first) && are_bytes_of_name(rest) && rest.len() <= 11
        }
    }
}

impl Name {
    /// The name that the word is.
    pub fn of(word: &str) -> Option<Name>
        ensures is_one { IsSome result ↔ (is_name word.now ≡ true) }
        ensures name { IfSome result (λ n. n ≡ word.now) }
    {
        if !is_spelled(word.as_bytes()) {
            return None;
        }
        let text = ArrayString::from(word).ok()?;
        Some(Name { text })
    }

    /// The name's bytes.
    pub fn text(&self) -> &str
        ensures text { result.now ≡ self.now }
        ensures name { is_name self.now ≡ true }
    {
        self.text.as_str()
    }

    /// The same name, without memory.
    pub fn copy(&self) -> Name
        ensures { result ≡ self.now }
    {
        Name { text: self.text }
    }
}

impl PartialEq for Name {
    ghost eq = { λ s t. pointwise nat_eq s t };

    ghost laws = { partial_equiv_from_equiv nat_list_eq_equiv };

    fn eq(&self, other: &Self) -> bool {
        self.text() == other.text()
    }
}

impl Eq for Name {
    ghost laws = { nat_list_eq_equiv };
}

impl PartialOrd for Name {
    ghost partial_cmp = { λ s t. Some (slice_cmp nat_cmp s t) };

    ghost laws = { texts_po };

    fn partial_cmp(&self, other: &Self) -> Option<Ordering> {
        Some(self.cmp(other))
    }
}

/// Names are ordered as their bytes are.
impl Ord for Name {
    ghost cmp = { λ s t. slice_cmp nat_cmp s t };

    ghost total = { nat_list_cmp_total };

    ghost matches_partial_cmp = { λ s t. refl };

    ghost matches_eq = { λ s t. texts_ties s t };

    fn cmp(&self, other: &Self) -> Ordering {
        self.text().cmp(other.text())
    }
}

impl fmt::Debug for Name {
    fn fmt<W: fmt::Write>(&self, f: &mut fmt::Formatter<W>) -> fmt::Result {
        fmt::Debug::fmt(&self.text(), f)
    }
}
