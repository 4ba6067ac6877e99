//! The tokens of a text, a line for each.
ghost use Rattle.std.specs.Prelude.{◌≡◌, ◌++◌, OnOk, IfOk};
ghost use Rattle.cases.specs.Listings.{entry, token_line, listing};
ghost use Rattle.text.specs.Lexings.{lexed};
ghost use Rattle.text.specs.Tokens.{lexeme};

use std::alloc::Global;
use std::io;
use std::io::Write;
use text::lexing::Lexer;
use text::places::Placed;
use text::spellings::Spelled;
use text::tokens::Token;

/// One line: the place, the kind, and the bytes.
fn entry(out: &mut Vec<u8>, place: usize, kind: &str, bytes: &[u8]) -> io::Result<()>
    ensures { OnOk result (out.new.items ≡ out.old.items ++ entry place kind.now bytes.now) }
{
    write!(out, "{place} {kind} ")?;
    out.write_all(bytes)?;
    out.write_all(b"\n")
}

fn list_token(out: &mut Vec<u8>, token: Placed<Token<&[u8]>>) -> io::Result<()>
    ensures { OnOk result (out.new.items ≡ out.old.items ++ token_line token.entry.place (lexeme token.entry.item)) }
{
    let place = token.place;
    match token.item {
        Token::Word(keyword) => entry(out, place, "word", keyword.spelling()),
        Token::Name(name) => entry(out, place, "name", name),
        Token::Number(value) => writeln!(out, "{place} number {value}"),
        Token::Sign(sign) => entry(out, place, "sign", sign.spelling()),
        Token::End => writeln!(out, "{place} end"),
    }
}

/// The tokens of a text up to its end or a refusal.
pub fn listed(heap: Global, source: &[u8]) -> io::Result<Vec<u8>>
    ensures { IfOk result (λ v. v.items ≡ listing (lexed source.now)) }
{
    let mut out = Vec::new(heap);
    let mut lexer = Lexer::new(source);
    loop {
        match lexer.next_token() {
            Ok(token) => {
                list_token(&mut out, token)?;
                if let Token::End = token.item {
                    return Ok(out);
                }
            }
            Err(refusal) => {
                writeln!(out, "{refusal}")?;
                return Ok(out);
            }
        }
    }
}
