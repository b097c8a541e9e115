ghost use Rattle.std.specs.Prelude.{◌≡◌, ◌+◌, ◌++◌, [], map, length};
ghost use Rattle.std.specs.Str.{bytes_eq};
ghost use Rattle.c_grammar.specs.Views.{words_of};
ghost use Rattle.c_grammar.specs.Words as spec;

use c_lexer::Token;

/// The bytes of the tokens of a text, by their numbers.
#[derive(Clone, Copy)]
pub struct Words<'a> {
    pub text: &'a [u8],
    pub tokens: &'a [Token],
}

fn bytes_of(text: &[u8], token: Token) -> &[u8]
    ensures { result.now ≡ spec.bytes_of text.now (Some token) }
{
    if token.start <= token.end && token.end <= text.len() as u64 {
        &text[token.start as usize..token.end as usize]
    } else {
        &[]
    }
}

impl<'a> Words<'a> {
    /// The bytes of the token with this number, and none where there is no such token.
    pub fn get(&self, at: u32) -> &'a [u8]
        ensures { result.now ≡ words_of self.now at }
    {
        match self.tokens.get(at as usize) {
            Some(token) => bytes_of(self.text, *token),
            None => &[],
        }
    }
}
