use std::alloc::Global;
use tm_lex::{LexErr, LexWhy, TokenKind, lex};

/// Whether the text of one character is a token of its own.
fn is_mark(alloc: Global, text: &str) -> bool {
    if text.len() > 100 {
        return false;
    }
    match lex(alloc, text) {
        Ok(tokens) => matches!(
            tokens.first().map(|token| token.kind),
            Some(TokenKind::Punct(_))
        ),
        Err(_) => false,
    }
}

/// Whether no token begins with the text.
fn is_no_token(alloc: Global, text: &str) -> bool {
    if text.len() > 100 {
        return false;
    }
    lex(alloc, text).err() == Some(LexErr::At(0, LexWhy::NoToken))
}

#[test]
fn these_characters_are_tokens_of_their_own(rt: HostRuntime) {
    for text in [
        "{", "}", "(", ")", "[", "]", "<", ">", ",", ";", ":", "=", "&", "!", "#", "-",
    ] {
        assert!(rt; is_mark(rt.alloc(), text), "at {text}");
    }
    for text in ["+", "*", ".", "|", "@", "\"", "\\", "~", "%", "^", "?", "`"] {
        assert!(rt; is_no_token(rt.alloc(), text), "at {text}");
    }
}
