ghost use Rattle.std.specs.Prelude.{◌≡◌, ◌≤◌, IfOk, length, map};
ghost use Rattle.std.specs.List.{slice_range};
ghost use Rattle.tm_lex.specs.Lexes.{Tokenizes};
ghost use Rattle.tm_parse.specs.Spelling.{class_in, class_of, mark_class, terminal_of, terminals_of, word_class};
ghost use Rattle.tm_parse.specs.declared.class.Class.TheVariants.{Name};

use crate::class::Class;
use crate::terminal::Terminal;
use crate::vocabulary::WORDS;
use std::alloc::Global;
use tm_base::Memory;
use tm_lex::{Token, TokenKind};

/// The class that a table gives for a word, else `Name`.
fn class_in(table: &[(&str, Class)], word: &[u8]) -> Class
    ensures { result ≡ class_in (map (λ x. (x.0.now, x.1)) table.now) Name word.now }
{
    for (known, class) in table {
        if known.as_bytes() == word {
            return *class;
        }
    }
    Class::Name
}

/// The class of a word.
fn word_class(word: &[u8]) -> Class
    ensures { result ≡ word_class word.now }
{
    class_in(&WORDS, word)
}

/// The class of a mark of one character.
#[tactic(auto, unfolding(crate::specs::Spelling::mark_class))]
fn mark_class(mark: u8) -> Class
    ensures { result ≡ mark_class mark }
{
    match mark {
        b'{' => Class::OpenBrace,
        b'}' => Class::CloseBrace,
        b'(' => Class::OpenParen,
        b')' => Class::CloseParen,
        b'[' => Class::OpenBracket,
        b']' => Class::CloseBracket,
        b'<' => Class::Less,
        b'>' => Class::Greater,
        b',' => Class::Comma,
        b';' => Class::Semicolon,
        b':' => Class::Colon,
        b'=' => Class::Equals,
        b'&' => Class::Ampersand,
        b'!' => Class::Bang,
        b'#' => Class::Hash,
        b'-' => Class::Minus,
        _ => Class::Keyword,
    }
}

/// The class of a token whose bytes lie in the text.
fn class_of(text: &str, token: Token) -> Class
    requires ordered { token.start ≤ token.end }
    requires within { token.end ≤ length text.now }
    ensures { result ≡ class_of text.now token }
{
    match token.kind {
        TokenKind::Word => {
            word_class(&text.as_bytes()[token.start as usize..token.end as usize])
        }
        TokenKind::Lifetime => Class::Lifetime,
        TokenKind::Number(value) => Class::Number(value),
        TokenKind::Punct(mark) => mark_class(mark),
        TokenKind::Arrow => Class::Arrow,
    }
}

/// The terminal of the token at a place in the list, which is no greater than its first byte's, since
/// each token before it has a byte.
fn terminal(text: &str, place: usize, token: Token) -> Terminal
    requires before { place ≤ token.start }
    requires ordered { token.start ≤ token.end }
    requires within { token.end ≤ length text.now }
    ensures { result ≡ terminal_of text.now (place, token) }
{
    Terminal {
        class: class_of(text, token),
        place: place as u32,
        size: token.end - token.start,
    }
}

/// The terminals of a text's tokens, in their order: each has its token's class, its place in the list
/// of tokens, from 0, and its size in bytes.
///
/// The tokens are those that `lex` answers for the text. `Memory`: there wasn't enough memory for the
/// terminals.
pub fn terminals(alloc: Global, text: &str, tokens: &[Token]) -> Result<Vec<Terminal>, Memory>
    requires { Tokenizes text.now tokens.now }
    ensures { IfOk result (λ found. found.items ≡ terminals_of text.now tokens.now) }
{
    let mut terminals = Vec::new(alloc);
    for (place, token) in tokens.iter().enumerate() {
        match terminals.push(terminal(text, place, *token)) {
            Ok(()) => {}
            Err(_) => return Err(Memory),
        }
    }
    Ok(terminals)
}
