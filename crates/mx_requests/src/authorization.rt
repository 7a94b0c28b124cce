// The Authorization header of a request: which server sends it.
ghost use Rattle.std.specs.Prelude.{◌≡◌, ◌⊎◌, Ok, Err, IfErr, IfOk, Some, fold, map, option_map};
ghost use Rattle.std.specs.List.{list_any};
ghost use Rattle.mx_requests.specs.Authorization as definition;
ghost use Rattle.mx_requests.specs.Reading.{is_mark, part_shown, reading_of};

use crate::faults::Fault;
use mx_ident::ServerName;
use std::alloc::{AllocError, Global};
use std::mem::replace;

// One `name=value` of a header.
#[derive(Drop)]
pub(crate) struct Part {
    name: String,
    value: String,
}

// Where a reading stands in a part; `Outside` where the form is broken.
#[derive(Clone, Copy, Drop)]
pub(crate) enum HeaderState {
    BeforeName,
    InName,
    // Right after the `=`.
    BeforeValue,
    // In a value that is not quoted.
    InValue,
    InQuotes,
    AfterBackslash,
    AfterQuote,
    AfterSpaces,
    Outside,
}

// What a character does to a reading.
#[derive(Clone, Copy, Drop)]
pub(crate) enum HeaderAction {
    Move(HeaderState),
    AddToName,
    AddToValue(HeaderState),
    EndPart,
}

// The parts before the one that is being read, and that one as far as it is read.
#[derive(Drop)]
pub(crate) struct Reader {
    parts: Vec<Part>,
    place: HeaderState,
    name: String,
    value: String,
}

/// The server that a request comes from, by its Authorization header, at the server of this name.
///
/// `NoOrigin` where there is no header, or one of another form than `X-Matrix name=value,name="value"`, or none of its
/// parts is named `origin`, or the first such part is no server name; then `WrongDestination` where the first part named
/// `destination` is another server; `Memory`. Names are in any case. Signatures are not looked at.
///
/// Source: the section "Request Authentication" of the Server-Server API of the Matrix specification.
#[tactic(auto, unfolding(crate::specs::Authorization::origin_of))]
pub(crate) fn origin_of(
    alloc: Global,
    server: &ServerName,
    authorization: Option<&str>,
) -> Result<ServerName, Fault>
    ensures ok { IfOk result (λ origin.
        definition.origin_of server.now (option_map (λ h. h.now) authorization.entry) ≡ Ok origin) }
    ensures err { IfErr result (λ fault. (fault ≡ Fault.Memory)
        ⊎ (definition.origin_of server.now (option_map (λ h. h.now) authorization.entry) ≡ Err fault)) }
{
    let Some(header) = authorization else {
        return Err(Fault::NoOrigin);
    };
    let Some(parts) = header_parts(alloc, header)? else {
        return Err(Fault::NoOrigin);
    };
    let origin = origin_in(alloc, server, &parts)?;
    Ok(origin)
}

fn origin_in(alloc: Global, server: &ServerName, parts: &[Part]) -> Result<ServerName, Fault>
    ensures ok { IfOk result (λ origin.
        definition.origin_in server.now (Some (map part_shown parts.now)) ≡ Ok origin) }
    ensures err { IfErr result (λ fault. (fault ≡ Fault.Memory)
        ⊎ (definition.origin_in server.now (Some (map part_shown parts.now)) ≡ Err fault)) }
{
    let Some(origin) = part_named(parts, "origin") else {
        return Err(Fault::NoOrigin);
    };
    if !ServerName::is(origin) {
        return Err(Fault::NoOrigin);
    }
    if !is_for(server, part_named(parts, "destination")) {
        return Err(Fault::WrongDestination);
    }
    match ServerName::parse(alloc, origin) {
        Ok(name) => Ok(name),
        Err(_) => Err(Fault::Memory),
    }
}

fn is_for(server: &ServerName, destination: Option<&str>) -> bool
    ensures { result ≡ definition.is_for server.now (option_map (λ d. d.now) destination.entry) }
{
    match destination {
        Some(name) => name == server.as_str(),
        None => true,
    }
}

fn part_named<'p>(parts: &'p [Part], name: &str) -> Option<&'p str>
    ensures { definition.part_named name.now (map part_shown parts.now) ≡ option_map (λ v. v.now) result }
{
    for part in parts {
        if part.is_named(name) {
            return Some(&part.value);
        }
    }
    None
}

fn header_parts(alloc: Global, header: &str) -> Result<Option<Vec<Part>>, AllocError>
    ensures { IfOk result (λ parts.
        definition.header_parts header.now ≡ option_map (λ ps. map part_shown ps.items) parts) }
{
    let Some((scheme, rest)) = header.split_once(' ') else {
        return Ok(None);
    };
    if !scheme.eq_ignore_ascii_case("X-Matrix") || has_tab(header) {
        return Ok(None);
    }
    let reader = read_parts(alloc, rest)?;
    let parts = reader.finish()?;
    Ok(parts)
}

fn has_tab(text: &str) -> bool
    ensures { result ≡ list_any definition.is_tab text.now }
{
    text.bytes().any(|byte| byte == b'\t')
}

fn read_parts(alloc: Global, text: &str) -> Result<Reader, AllocError>
    ensures { IfOk result (λ reader. reading_of reader ≡ fold definition.feed definition.start text.now) }
{
    let mut reader = Reader::new(alloc);
    let mut rest = text;
    while let Some((before, after)) = rest.split_once('"') {
        reader.read(alloc, before)?;
        reader.feed(alloc, '"')?;
        rest = reader.read_quoted(after)?;
    }
    reader.read(alloc, rest)?;
    Ok(reader)
}

// Whether a text has what ends a quoted value, or stands before an escaped character.
fn has_mark(text: &str) -> bool
    ensures { result ≡ list_any is_mark text.now }
{
    text.bytes().any(|byte| byte == b'"' || byte == b'\\')
}

impl Part {
    ghost use Rattle.std.specs.Prelude.{◌≡◌, string_bytes};
    ghost use Rattle.std.specs.Str.{str_eq_ignore_ascii_case};

    // Whether this is its name, in any case.
    fn is_named(&self, name: &str) -> bool
        ensures { result ≡ str_eq_ignore_ascii_case (string_bytes self.now.name) name.now }
    {
        self.name.eq_ignore_ascii_case(name)
    }
}

impl HeaderState {
    ghost use Rattle.std.specs.Prelude.{◌≡◌};
    ghost use Rattle.mx_requests.specs.Authorization.{after_value, is_whole, step};
    ghost use Rattle.mx_requests.specs.Reading.{is_in_quotes};

    fn step(self, character: char) -> HeaderAction
        ensures { result ≡ step self character }
    {
        match (self, character) {
            (HeaderState::BeforeName, ' ') => HeaderAction::Move(HeaderState::BeforeName),
            (HeaderState::InName, '=') => HeaderAction::Move(HeaderState::BeforeValue),
            (HeaderState::BeforeName | HeaderState::InName, '=' | ',' | ' ' | '"') =>
                HeaderAction::Move(HeaderState::Outside),
            (HeaderState::BeforeName | HeaderState::InName, _) => HeaderAction::AddToName,
            (HeaderState::BeforeValue, '"') => HeaderAction::Move(HeaderState::InQuotes),
            (HeaderState::BeforeValue, ' ') => HeaderAction::Move(HeaderState::Outside),
            (HeaderState::InQuotes, '"') => HeaderAction::Move(HeaderState::AfterQuote),
            (HeaderState::InQuotes, '\\') => HeaderAction::Move(HeaderState::AfterBackslash),
            (HeaderState::InQuotes | HeaderState::AfterBackslash, _) => HeaderAction::AddToValue(
                HeaderState::InQuotes,
            ),
            (HeaderState::Outside, _) => HeaderAction::Move(HeaderState::Outside),
            (_, ',') => HeaderAction::EndPart,
            (_, ' ') => HeaderAction::Move(HeaderState::AfterSpaces),
            (HeaderState::BeforeValue | HeaderState::InValue, _) => HeaderAction::AddToValue(
                HeaderState::InValue,
            ),
            (HeaderState::AfterQuote | HeaderState::AfterSpaces, _) => HeaderAction::Move(
                HeaderState::Outside,
            ),
        }
    }

    fn is_in_quotes(self) -> bool
        ensures { result ≡ is_in_quotes self }
    {
        matches!(self, HeaderState::InQuotes)
    }

    // Whether a value is whole here, so that the header may end.
    fn is_whole(self) -> bool
        ensures { result ≡ is_whole self }
    {
        matches!(
            self,
            HeaderState::BeforeValue | HeaderState::InValue | HeaderState::AfterQuote
        )
    }
}

impl Reader {
    ghost use Rattle.std.specs.Prelude.{◌≡◌, ◌≤◌, [], IfOk, OnOk, fold, length, map, option_map};
    ghost use Rattle.std.specs.Char.{encode_utf8};
    ghost use Rattle.mx_requests.specs.Authorization as definition;
    ghost use Rattle.mx_requests.specs.Reading.{part_shown, reading_of};

    fn new(alloc: Global) -> Reader
        ensures { reading_of result ≡ definition.start }
    {
        Reader {
            parts: Vec::new(alloc),
            place: HeaderState::BeforeName,
            name: String::new(alloc),
            value: String::new(alloc),
        }
    }

    // Reads these characters, one after the other.
    fn read(&mut self, alloc: Global, text: &str) -> Result<(), AllocError>
        ensures { OnOk result (reading_of self.new ≡ fold definition.feed (reading_of self.old) text.now) }
    {
        for character in text.chars() {
            self.feed(alloc, character)?;
        }
        Ok(())
    }

    // Reads the rest of a quoted value at once, where it has no escaped character, and its quotation mark. What is left of
    // the text.
    fn read_quoted<'t>(&mut self, text: &'t str) -> Result<&'t str, AllocError>
        ensures shorter { IfOk result (λ rest. length rest.now ≤ length text.now) }
        ensures read { IfOk result (λ rest. fold definition.feed (reading_of self.new) rest.now
            ≡ fold definition.feed (reading_of self.old) text.now) }
    {
        if !self.place.is_in_quotes() {
            return Ok(text);
        }
        let Some((value, rest)) = text.split_once('"') else {
            return Ok(text);
        };
        if has_mark(value) {
            return Ok(text);
        }
        self.value.push_str(value)?;
        self.place = HeaderState::AfterQuote;
        Ok(rest)
    }

    // Reads one more character.
    fn feed(&mut self, alloc: Global, character: char) -> Result<(), AllocError>
        ensures { OnOk result (reading_of self.new
            ≡ definition.stepped (definition.step self.old.place character) (reading_of self.old) (encode_utf8 character)) }
    {
        match self.place.step(character) {
            HeaderAction::Move(place) => self.place = place,
            HeaderAction::AddToName => {
                self.name.push(character)?;
                self.place = HeaderState::InName;
            }
            HeaderAction::AddToValue(place) => {
                self.value.push(character)?;
                self.place = place;
            }
            HeaderAction::EndPart => {
                self.end_part(alloc)?;
                self.place = HeaderState::BeforeName;
            }
        }
        Ok(())
    }

    // Adds the part that is being read to the parts, and begins another.
    fn end_part(&mut self, alloc: Global) -> Result<(), AllocError>
        ensures { OnOk result (reading_of self.new
            ≡ record (definition.stepped HeaderAction.EndPart (reading_of self.old) []) { place = self.old.place }) }
    {
        let name = replace(&mut self.name, String::new(alloc));
        let value = replace(&mut self.value, String::new(alloc));
        self.parts.push(Part { name, value })?;
        Ok(())
    }

    // The parts, where the header may end here.
    fn finish(self) -> Result<Option<Vec<Part>>, AllocError>
        ensures { IfOk result (λ parts.
            definition.finish (reading_of self) ≡ option_map (λ ps. map part_shown ps.items) parts) }
    {
        if !self.place.is_whole() {
            return Ok(None);
        }
        let mut parts = self.parts;
        let last = Part {
            name: self.name,
            value: self.value,
        };
        parts.push(last)?;
        Ok(Some(parts))
    }
}
