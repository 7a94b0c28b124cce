// The members of a record: what it tells, each under a key.
ghost use Rattle.std.specs.Prelude.{◌≡◌, option_map};
ghost use Rattle.mx_records.specs.Members as definition;

/// What stands under a key. `None` stands for nothing.
#[derive(Clone, Copy, Debug)]
pub(crate) enum MemberValue<'a> {
    None,
    Text(&'a str),
    Number(u64),
}

/// A key, and what stands under it. The key has only lowercase letters and `_`.
#[derive(Clone, Copy, Debug)]
pub(crate) struct Member<'a> {
    pub(crate) key: &'static str,
    pub(crate) value: MemberValue<'a>,
}

impl<'a> Member<'a> {
    /// A text under a key.
    pub(crate) fn text(key: &'static str, text: &'a str) -> Member<'a>
        ensures { definition.member_shown result ≡ definition.text_at key.now text.now }
    {
        Member {
            key,
            value: MemberValue::Text(text),
        }
    }

    /// A text under a key, where there is one.
    pub(crate) fn text_if(key: &'static str, text: Option<&'a str>) -> Member<'a>
        ensures { definition.member_shown result ≡ definition.text_if key.now (option_map (λ t. t.now) text.entry) }
    {
        match text {
            Some(text) => Member::text(key, text),
            None => Member {
                key,
                value: MemberValue::None,
            },
        }
    }

    /// A number under a key.
    pub(crate) fn number(key: &'static str, number: u64) -> Member<'a>
        ensures { definition.member_shown result ≡ definition.number_at key.now number }
    {
        Member {
            key,
            value: MemberValue::Number(number),
        }
    }
}
