//! Names, tokens and other texts: what a contract sees of each is the list of its bytes.
ghost use Rattle.std.specs.Prelude.{◌≡◌, ◌↔◌, IfOk, IsErrOf, IsTrue, string_bytes, ℕ, List, Some, nat_eq, refl};
ghost use Rattle.std.specs.Ordering.{nat_cmp};
ghost use Rattle.std.specs.Cmp.Lexicographic.{pointwise, slice_cmp, nat_list_eq_equiv, nat_list_cmp_total, texts_ties, texts_po};
ghost use Rattle.std.specs.Cmp.{partial_equiv_from_equiv};
ghost use Rattle.broker_names.specs.Name.{IsName, IsToken, are_name_bytes as are_name_bytes_of, is_name, is_token_byte};

use std::alloc::{AllocError, Global};
use std::cmp::Ordering;
use std::marker::Model;
use thiserror::Error;

/// The most bytes of a name.
pub const LONGEST_NAME: usize = 100;

/// The fewest bytes of a token.
pub const SHORTEST_TOKEN: usize = 16;

/// The most bytes of a token.
pub const LONGEST_TOKEN: usize = 128;

/// The name of a team, a pacticipant, a version, a branch, an environment, an instance or a run: 1
/// to 100 bytes of UTF-8
/// without control characters of ASCII (this project's own choice). Names are compared and ordered
/// by their bytes.
#[derive(Debug, Drop)]
pub struct Name {
    text: String,
}

impl Model for Name {
    ghost use Rattle.std.specs.Prelude.{ℕ, List, string_bytes};
    ghost use Rattle.broker_names.specs.Name.{IsName};

    ghost Value = { List ℕ };

    ghost view = { λ n. string_bytes n.text };

    ghost invariant = { λ n. IsName (string_bytes n.text) };
}

/// Why a text is no name.
#[derive(Clone, Copy, Debug, PartialEq, Eq, Error)]
pub enum NameFault {
    /// It is empty, over 100 bytes, or holds a character below U+0020 or U+007F.
    #[error("not a name")]
    BadName,
    /// Out of memory.
    #[error("out of memory")]
    Memory,
}

/// Whether none of the bytes is a control character of ASCII.
fn are_name_bytes(text: &[u8]) -> bool
    ensures { result ≡ are_name_bytes_of text.now }
{
    for byte in text {
        if *byte < 32 || *byte == 127 {
            return false;
        }
    }
    true
}

impl Name {
    /// Whether the text is a name. No memory is taken.
    #[tactic(auto, unfolding(crate::specs::Name::is_name))]
    pub fn is_valid(text: &str) -> bool
        ensures { result ≡ is_name text.now }
    {
        1 <= text.len() && text.len() <= LONGEST_NAME && are_name_bytes(text.as_bytes())
    }

    /// A copy of the text as a name.
    ///
    /// [`NameFault::BadName`] comes if and only if the text isn't a name, before memory is asked for.
    pub fn new(alloc: Global, text: &str) -> Result<Name, NameFault>
        ensures ok { IfOk result (λ name. (name ≡ text.now) × IsName text.now) }
        ensures bad { IsErrOf result NameFault.BadName ↔ (¬ (IsName text.now)) }
    {
        if !Name::is_valid(text) {
            return Err(NameFault::BadName);
        }
        let text = String::from_str(alloc, text).map_err(|_| NameFault::Memory)?;
        Ok(Name { text })
    }

    /// The name's text.
    pub fn as_str(&self) -> &str
        ensures { result.now ≡ self.now }
    {
        self.text.as_str()
    }

    /// That this is a name, as its type promises. Nothing is done.
    pub fn is_name(&self)
        ensures { IsName self.now }
    {
        let _ = &self.text;
    }

    /// The same name once more. The error is out of memory.
    pub fn clone(&self) -> Result<Name, AllocError>
        ensures { IfOk result (λ name. name ≡ self.now) }
    {
        let text = self.text.clone()?;
        Ok(Name { text })
    }
}

impl PartialEq for Name {
    ghost eq = { pointwise nat_eq };

    ghost laws = { partial_equiv_from_equiv nat_list_eq_equiv };

    fn eq(&self, other: &Name) -> bool {
        self.text == other.text
    }
}

impl Eq for Name {
    ghost laws = { nat_list_eq_equiv };
}

impl PartialOrd for Name {
    ghost partial_cmp = { λ x y. Some (slice_cmp nat_cmp x y) };

    ghost laws = { texts_po };

    fn partial_cmp(&self, other: &Name) -> Option<Ordering> {
        Some(self.cmp(other))
    }
}

impl Ord for Name {
    ghost cmp = { slice_cmp nat_cmp };

    ghost total = { nat_list_cmp_total };

    ghost matches_partial_cmp = { λ x y. refl };

    ghost matches_eq = { texts_ties };

    fn cmp(&self, other: &Name) -> Ordering {
        self.text.cmp(&other.text)
    }
}

/// The secret by which a caller is known: 16 to 128 letters and digits of ASCII and `-._~+/=`, the
/// characters of a Bearer token
/// (the limits are this project's own choice). It isn't shown by `Debug`.
#[derive(Drop)]
pub struct Token {
    secret: String,
}

impl Model for Token {
    ghost use Rattle.std.specs.Prelude.{ℕ, List, string_bytes};
    ghost use Rattle.broker_names.specs.Name.{IsToken};

    ghost Value = { List ℕ };

    ghost view = { λ t. string_bytes t.secret };

    ghost invariant = { λ t. IsToken (string_bytes t.secret) };
}

/// Why a text is no token.
#[derive(Clone, Copy, Debug, PartialEq, Eq, Error)]
pub enum TokenFault {
    /// It is under 16 or over 128 bytes, or holds another character.
    #[error("not a token")]
    BadToken,
    /// Out of memory.
    #[error("out of memory")]
    Memory,
}

fn is_token_byte(byte: u8) -> bool
    ensures { result ≡ is_token_byte byte }
{
    byte.is_ascii_alphanumeric()
        || byte == b'-'
        || byte == b'.'
        || byte == b'_'
        || byte == b'~'
        || byte == b'+'
        || byte == b'/'
        || byte == b'='
}

impl Token {
    /// A copy of the text as a token.
    ///
    /// [`TokenFault::BadToken`] comes if and only if the text isn't a token, before memory is asked for.
    pub fn new(alloc: Global, text: &str) -> Result<Token, TokenFault>
        ensures ok { IfOk result (λ token. (token ≡ text.now) × IsToken text.now) }
        ensures bad { IsErrOf result TokenFault.BadToken ↔ (¬ (IsToken text.now)) }
    {
        if text.len() < SHORTEST_TOKEN || text.len() > LONGEST_TOKEN {
            return Err(TokenFault::BadToken);
        }
        if !text.as_bytes().iter().all(|byte| is_token_byte(*byte)) {
            return Err(TokenFault::BadToken);
        }
        let secret = String::from_str(alloc, text).map_err(|_| TokenFault::Memory)?;
        Ok(Token { secret })
    }

    /// The token's text.
    pub fn as_str(&self) -> &str
        ensures { result.now ≡ self.now }
    {
        self.secret.as_str()
    }

    /// That this is a token, as its type promises. Nothing is done.
    pub fn is_token(&self)
        ensures { IsToken self.now }
    {
        let _ = &self.secret;
    }
}

/// A text of any form, as the normal text of a pact or the place of a fault.
#[derive(Debug, Drop)]
pub struct Text {
    content: String,
}

impl Model for Text {
    ghost use Rattle.std.specs.Prelude.{ℕ, List, string_bytes};

    ghost Value = { List ℕ };

    ghost view = { λ t. string_bytes t.content };
}

impl Text {
    /// The string as a text.
    pub fn new(content: String) -> Text
        ensures { result ≡ string_bytes content }
    {
        Text { content }
    }

    /// The text, lent.
    pub fn as_str(&self) -> &str
        ensures { result.now ≡ self.now }
    {
        self.content.as_str()
    }

    /// The same text once more. The error is out of memory.
    pub fn clone(&self) -> Result<Text, AllocError>
        ensures { IfOk result (λ text. text ≡ self.now) }
    {
        let content = self.content.clone()?;
        Ok(Text { content })
    }
}

/// The bytes of a request's body.
#[derive(Debug, Drop)]
pub struct Body {
    bytes: Vec<u8>,
}

impl Model for Body {
    ghost use Rattle.std.specs.Prelude.{ℕ, List};

    ghost Value = { List ℕ };

    ghost view = { λ b. b.bytes.items };
}

impl Body {
    /// The bytes as a body.
    pub fn new(bytes: Vec<u8>) -> Body
        ensures { result ≡ bytes.items }
    {
        Body { bytes }
    }

    /// The bytes, lent.
    pub fn as_slice(&self) -> &[u8]
        ensures { result.now ≡ self.now }
    {
        self.bytes.as_slice()
    }
}
