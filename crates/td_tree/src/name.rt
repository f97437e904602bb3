//! Names of types, relvars, attributes, components and constraints.
ghost use Rattle.std.specs.Prelude.{◌≡◌, IfOk, IsTrue};
ghost use Rattle.std.proofs.Common.{rules};
ghost use Rattle.std.specs.List.{list_all};
ghost use Rattle.std.specs.Str.{chars};
ghost use Rattle.td_tree.specs.model.Names.{IsName, begins_the, is_name, is_word, is_word_more};
ghost use Rattle.td_tree.specs.model.Names.{is_word_start};

use crate::keyword::Keyword;
use std::alloc::{AllocError, Global};
use std::cmp::Ordering;
use std::hash::{Hash, Hasher};
use std::marker::Model;
use std::rc::RcStr;

/// Whether a word may begin with the character.
pub fn is_word_start(character: char) -> bool
    ensures { result ≡ is_word_start character }
{
    unicode_ident::is_xid_start(character) || character == '_'
}

/// Whether a word may go on with the character.
pub fn is_word_more(character: char) -> bool
    ensures { result ≡ is_word_more character }
{
    unicode_ident::is_xid_continue(character) || character == '_' || character == '#'
}

/// Whether a word may go on with each character of the text.
fn is_word_rest(text: &str) -> bool
    ensures { result ≡ list_all is_word_more (chars text.now) }
{
    text.chars().all(|character| is_word_more(character))
}

/// Whether the text is a word: a start, and then what a word goes on with.
fn is_word(text: &str) -> bool
    ensures { result ≡ is_word (chars text.now) }
{
    let mut characters = text.chars();
    match characters.next() {
        Some(first) => is_word_start(first) && is_word_rest(characters.as_str()),
        None => false,
    }
}

/// Whether the text begins with `THE_` in any ASCII case.
pub fn begins_the(text: &[u8]) -> bool
    ensures { result ≡ begins_the text.now }
{
    let (front, _) = text.split_at(text.len().min(4));
    front.eq_ignore_ascii_case(b"THE_")
}

/// Whether the text is a name: a word that is no reserved word and does not begin with `THE_`.
#[tactic(auto, unfolding(crate::specs::model::Names::is_name))]
pub fn is_name(text: &str) -> bool
    ensures { result ≡ is_name text.now }
{
    is_word(text) && Keyword::of_word(text.as_bytes()).is_none() && !begins_the(text.as_bytes())
}

/// A name, seen as its bytes in UTF-8. Its text is shared, so that a clone takes no memory for it.
#[derive(Drop)]
pub struct Name {
    text: RcStr,
}

impl Model for Name {
    ghost use Rattle.std.specs.Prelude.{ℕ, List};
    ghost use Rattle.std.specs.Rc.{rc_str_bytes};
    ghost use Rattle.td_tree.specs.model.Names.{IsName};

    ghost Value = { List ℕ };

    ghost view = { λ a. rc_str_bytes a.text };

    ghost invariant = { λ a. IsName (rc_str_bytes a.text) };
}

impl Name {
    /// The name that the text is.
    pub fn new(alloc: Global, text: &str) -> Result<Name, AllocError>
        requires { IsTrue (is_name text.now) }
        ensures { IfOk result (λ n. n ≡ text.now) }
    {
        let text = RcStr::from_str(alloc, text)?;
        Ok(Name { text })
    }

    /// What holds of every name. It takes no time.
    pub fn reveal(&self)
        ensures { IsName self.now }
    {
        let _ = self.text.as_str();
    }

    /// The name as a text.
    pub fn as_str(&self) -> &str
        ensures value { result.now ≡ self.now }
        ensures is_name { IsName self.now }
    {
        self.text.as_str()
    }

    /// A copy of the name.
    pub fn try_clone(&self) -> Result<Name, AllocError>
        ensures { IfOk result (λ n. n ≡ self.now) }
    {
        let text = self.text.clone()?;
        Ok(Name { text })
    }
}

impl PartialEq for Name {
    ghost use Rattle.std.specs.Prelude.{◌==◌};
    ghost use Rattle.std.proofs.lemmas.Cmp.{nat_list_eq_equiv};
    ghost use Rattle.std.specs.Cmp.{partial_equiv_from_equiv};
    ghost use lib.Pointwise.{pointwise};

    ghost eq = { pointwise ◌==◌ };

    ghost laws = { partial_equiv_from_equiv nat_list_eq_equiv };

    fn eq(&self, other: &Name) -> bool {
        self.as_str() == other.as_str()
    }
}

impl Eq for Name {
    ghost use Rattle.std.proofs.lemmas.Cmp.{nat_list_eq_equiv};

    ghost laws = { nat_list_eq_equiv };
}

/// By code points: UTF-8 keeps their order.
impl PartialOrd for Name {
    ghost use Rattle.std.specs.Ordering.{as_partial_cmp, nat_cmp};
    ghost use Rattle.std.specs.Cmp.Lexicographic.{slice_cmp};
    ghost use Rattle.std.specs.Cmp.{partial_order_from_own_ties};
    ghost use Rattle.std.specs.Cmp.Rules.{comparing};

    ghost partial_cmp = { as_partial_cmp (slice_cmp nat_cmp) };

    ghost laws = { partial_order_from_own_ties
        (Prim.search (comparing, rules)) (Prim.search (comparing, rules)) };

    fn partial_cmp(&self, other: &Name) -> Option<Ordering> {
        Some(self.cmp(other))
    }
}

impl Ord for Name {
    ghost use Rattle.std.specs.Ordering.{nat_cmp};
    ghost use Rattle.std.specs.Cmp.Lexicographic.{slice_cmp};
    ghost use Rattle.std.proofs.lemmas.Cmp.{nat_list_cmp_total};
    ghost use Rattle.std.specs.Cmp.Rules.{comparing};

    ghost cmp = { slice_cmp nat_cmp };

    ghost total = { nat_list_cmp_total };

    ghost matches_partial_cmp = { Prim.search (comparing, rules) };

    ghost matches_eq = { Prim.search (comparing, rules) };

    fn cmp(&self, other: &Name) -> Ordering {
        self.as_str().cmp(other.as_str())
    }
}

impl Hash for Name {
    ghost use Rattle.std.specs.Hash as fed;
    ghost use Rattle.td_tree.specs.code.Hashes.{fed_alike};

    ghost hash_input = { fed.str };

    ghost respects_eq = { fed_alike };

    fn hash<H: Hasher>(&self, state: &mut H) {
        self.as_str().hash(state);
    }
}
