use game_text::{Spanned, Token, Tokens, read_tokens};
use std::alloc::{AllocError, Global};

// Each token with its span: a text in quotes, a word after `=`, a number as a fraction.
fn shown(alloc: Global, tokens: &Tokens) -> Result<Vec<u8>, AllocError> {
    let mut text = Vec::new(alloc);
    for spanned in tokens.list() {
        put_token(alloc, &mut text, &spanned.token)?;
        put_span(alloc, &mut text, spanned)?;
    }
    Ok(text)
}

fn put_token(alloc: Global, text: &mut Vec<u8>, token: &Token) -> Result<(), AllocError> {
    match token {
        Token::Left => text.extend_from_slice(b"{")?,
        Token::Right => text.extend_from_slice(b"}")?,
        Token::Comma => text.extend_from_slice(b",")?,
        Token::Text(name) => {
            text.extend_from_slice(b"\"")?;
            text.extend_from_slice(name.bytes())?;
            text.extend_from_slice(b"\"")?;
        }
        Token::Word(name) => {
            text.extend_from_slice(b"=")?;
            text.extend_from_slice(name.bytes())?;
        }
        Token::Number(number) => {
            let fraction = format!(in alloc; "{}/{}", number.num(), number.den())?;
            text.extend_from_slice(fraction.as_bytes())?;
        }
    }
    Ok(())
}

fn put_span(alloc: Global, text: &mut Vec<u8>, spanned: &Spanned) -> Result<(), AllocError> {
    let span = format!(in alloc; "@{}-{};", spanned.start, spanned.end)?;
    text.extend_from_slice(span.as_bytes())
}

#[test]
fn reads_tokens(rt: HostRuntime) {
    for (source, expected) in [
        (b"".as_slice(), b"".as_slice()),
        (b"{},", b"{@0-1;}@1-2;,@2-3;"),
        (b"\"a\\\"b\"", b"\"a\"b\"@0-6;"),
        (b"\"a\\nb\"", b"\"a\\nb\"@0-6;"),
        (b"\"\\\\\"b\"", b"\"\\\"b\"@0-6;"),
        (b"\"\xff\xc3 }\n\"", b"\"\xff\xc3 }\n\"@0-7;"),
        (b"\"\"", b"\"\"@0-2;"),
        (b"\"a\"\"b\"", b"\"a\"@0-3;\"b\"@3-6;"),
        (b"NFG 1 R", b"=NFG@0-3;1/1@4-5;=R@6-7;"),
        (b"2e-1", b"1/5@0-4;"),
        (b"-1.5,+3/6", b"-3/2@0-4;,@4-5;1/2@5-9;"),
        (b"a1.b Zz/-+", b"=a1.b@0-4;=Zz/-+@5-10;"),
        (b" \t\n\x0b\x0c\ra ", b"=a@6-7;"),
        (b"{\"x\" 1}", b"{@0-1;\"x\"@1-4;1/1@5-6;}@6-7;"),
    ] {
        let tokens = read_tokens(rt.alloc(), source).expect(&rt, "tokens");
        let read = shown(rt.alloc(), &tokens).expect(&rt, "memory");
        assert!(rt; read.as_slice() == expected);
        assert!(rt; tokens.source_length() == source.len());
    }
}
