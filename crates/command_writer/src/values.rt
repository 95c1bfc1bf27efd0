// A field, by the kind of its value: it is put as `;key=value`, or left out, or refused.
ghost use Rattle.std.specs.Prelude.{◌≡◌};
ghost use Rattle.command.specs.Keys.{Kind};
ghost use Rattle.command.specs.Rows.{words_of};
ghost use Rattle.command.specs.Values.{Value, shown};
ghost use Rattle.command.specs.Slots.{bytes_at};
ghost use Rattle.command_writer.specs.Pieces.{FieldPut};

use crate::store::Draft;
use command::letters::Class;
use command::words::Words;
use command::{Place, Refusal, letters};
use decimal::Number;

impl Draft<'_> {
    // The word of a code, which else is refused as unknown.
    pub(crate) fn put_word(&mut self, name: &[u8], words: &Words, n: Number) -> Result<(), Refusal>
        ensures { FieldPut name.now (shown (words_of words.now) (Value.number n)) self.old result self.new }
    {
        if n.negative {
            return Err(words.unknown);
        }
        if n.magnitude == 0 {
            return Ok(());
        }
        let i = n.magnitude.saturating_sub(u64::from(words.first));
        let Some(word) = words.texts.get(i as usize) else {
            return Err(words.unknown);
        };
        self.put_key(name);
        self.put(word);
        Ok(())
    }

    // An integer.
    #[tactic(auto, using(crate::proofs::Shows::integer_put), unfolding(command::specs::Values::shown))]
    pub(crate) fn put_integer(&mut self, name: &[u8], n: Number) -> Result<(), Refusal>
        ensures { FieldPut name.now (shown Kind.integer (Value.number n)) self.old result self.new }
    {
        if n.magnitude > 0 {
            self.put_key(name);
            return self.put_number(n);
        }
        if n.negative {
            return Err(Refusal::MalformedInteger);
        }
        Ok(())
    }

    // A safe string, which stands in the text.
    pub(crate) fn put_safe(
        &mut self,
        name: &[u8],
        short: bool,
        text: &[u8],
        place: Place,
    ) -> Result<(), Refusal>
        ensures { FieldPut name.now (shown (Kind.safe short) (bytes_at text.now place)) self.old result self.new }
    {
        if !octets::fits(place.start, place.len, text.len()) {
            return Err(Refusal::UnsafeCharacter);
        }
        let s = octets::part(text, place.start, place.len);
        if !letters::all(Class::Safe, s) {
            return Err(Refusal::UnsafeCharacter);
        }
        if letters::over(short, s.len()) {
            return Err(Refusal::TooLong);
        }
        if s.len() > 0 {
            self.put_key(name);
            self.put(s);
        }
        Ok(())
    }

    // The Base64 of bytes, which stand in the scratch.
    pub(crate) fn put_bytes(
        &mut self,
        name: &[u8],
        scratch: &[u8],
        place: Place,
    ) -> Result<(), Refusal>
        ensures { FieldPut name.now (shown Kind.base64 (bytes_at scratch.now place)) self.old result self.new }
    {
        if !octets::fits(place.start, place.len, scratch.len()) {
            return Err(Refusal::Base64Length);
        }
        if place.len > 0 {
            let bytes = octets::part(scratch, place.start, place.len);
            self.put_key(name);
            self.put_base64(bytes);
        }
        Ok(())
    }
}
