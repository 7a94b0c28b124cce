// Lines of a log that hold texts alone.
ghost use Rattle.std.specs.Prelude.{◌≡◌, ◌∷◌, [], IfSome, Some, bytes_eq, option_map, true};
ghost use Rattle.std.specs.List.{list_all, list_any};
ghost use Rattle.json.specs.Token.{key, string, end_object};
ghost use Rattle.mx_redact.specs.Fields.{object_keys, text_field};
ghost use Rattle.mx_requests.specs.Requests.{json_of};
ghost use Rattle.mx_log.specs.TextMembers.{object_shown};

use crate::lines::keys::is_among;
use json::{Reader, Scratch, Token};

// The most bytes of a line that is read here. A longer one, as lines with events are, is read once, by its JSON value.
const LONGEST_LINE: usize = 512;

/// A member of an object whose value is a text.
#[derive(Clone, Copy)]
pub(crate) struct TextMember<'l> {
    pub key: &'l str,
    pub text: &'l str,
}

/// Three members of an object in their order, whose values are texts.
#[derive(Clone, Copy)]
pub(crate) struct ThreeMembers<'l> {
    pub first: TextMember<'l>,
    pub second: TextMember<'l>,
    pub third: TextMember<'l>,
}

impl<'l> ThreeMembers<'l> {
    /// The text at a key. Of a key that is repeated the last one stands.
    #[tactic(auto, using(crate::proofs::TextMemberLemmas::text_of_three))]
    pub fn text_at(self, name: &str) -> Option<&'l str>
        ensures { option_map (λ text. text.now) result ≡ text_field name.now (object_shown self.entry) }
    {
        if self.third.key == name {
            Some(self.third.text)
        } else if self.second.key == name {
            Some(self.second.text)
        } else if self.first.key == name {
            Some(self.first.text)
        } else {
            None
        }
    }

    /// Whether each key is one of these names.
    #[tactic(auto, using(crate::proofs::TextMemberLemmas::keys_of_three))]
    pub fn has_only(self, names: &[&str]) -> bool
        ensures { result ≡ true → list_all (λ key. list_any (λ name. bytes_eq key name.now) names.now)
            (object_keys (object_shown self.entry)) ≡ true }
    {
        is_among(self.first.key, names)
            && is_among(self.second.key, names)
            && is_among(self.third.key, names)
    }
}

/// The object that a line is, where it has three members whose values are texts. None for another line, for one of more
/// than 512 bytes, and where no memory is left for the scratch, which is kept from line to line.
pub(crate) fn members_in<'l>(scratch: &'l mut Scratch, line: &'l [u8]) -> Option<ThreeMembers<'l>>
    ensures { IfSome result (λ members. json_of line.now ≡ Some (object_shown members)) }
{
    if line.len() > LONGEST_LINE {
        return None;
    }
    let text = str::from_utf8(line).ok()?;
    let mut reader = Reader::new(text, scratch).ok()?;
    let Some(Token::BeginObject) = reader.next() else {
        return None;
    };
    let first = member_in(&mut reader)?;
    let second = member_in(&mut reader)?;
    let third = member_in(&mut reader)?;
    if !ends_object(&mut reader) {
        return None;
    }
    Some(ThreeMembers {
        first,
        second,
        third,
    })
}

fn member_in<'l>(reader: &mut Reader<'l>) -> Option<TextMember<'l>>
    ensures { IfSome result (λ member. reader.old ≡ key member.key.now ∷ string member.text.now ∷ reader.new) }
{
    let Ok(Some(key)) = reader.next_key() else {
        return None;
    };
    let Some(Token::String(text)) = reader.next() else {
        return None;
    };
    Some(TextMember { key, text })
}

fn ends_object(reader: &mut Reader<'_>) -> bool
    ensures { result ≡ true → reader.old ≡ end_object ∷ [] }
{
    let Ok(None) = reader.next_key() else {
        return false;
    };
    reader.next().is_none()
}
