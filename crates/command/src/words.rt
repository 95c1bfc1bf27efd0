// The words of a key.
ghost use Rattle.std.specs.Prelude.{◌≡◌, option_map};
ghost use Rattle.std.specs.List.{find, position};
ghost use Rattle.std.specs.Str.{bytes_eq};
ghost use Rattle.command.specs.Rows.{words_of};
ghost use Rattle.command.specs.Values.{code_got, value_read};

use crate::Refusal;

// A word that is read as another one's code, and never written.
#[derive(Clone, Copy)]
pub struct Alias {
    pub text: &'static [u8],
    pub code: u64,
}

// The refusal of an unknown word, the code of the first, from which the others count on, the words in the
// order of their codes, and the aliases.
#[derive(Clone, Copy)]
pub struct Words {
    pub unknown: Refusal,
    pub first: u8,
    pub texts: &'static [&'static [u8]],
    pub aliases: &'static [Alias],
}

impl Words {
    // The code of a word or of an alias.
    pub fn code(&self, text: &[u8]) -> Result<u64, Refusal>
        ensures { code_got result ≡ value_read (words_of self.now) text.now }
    {
        if let Some(i) = place_in(self.texts, text) {
            return Ok(u64::from(self.first) + i as u64);
        }
        alias_in(self.aliases, text).ok_or(self.unknown)
    }
}

// The place of a text among texts.
fn place_in(texts: &[&'static [u8]], text: &[u8]) -> Option<usize>
    ensures { result ≡ position (λ t. bytes_eq text.now t.now) texts.now }
{
    texts.iter().position(|known| text == *known)
}

// The code of the alias that a text is.
fn alias_in(aliases: &[Alias], text: &[u8]) -> Option<u64>
    ensures { result ≡ option_map (λ a. a.code) (find (λ a. bytes_eq text.now a.text.now) aliases.now) }
{
    aliases
        .iter()
        .find(|alias| text == alias.text)
        .map(|alias| alias.code)
}
