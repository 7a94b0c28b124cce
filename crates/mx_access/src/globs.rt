// Globs. Nothing here takes memory.
ghost use Rattle.std.specs.Prelude.{◌≡◌, ◌↔◌, ◌∷◌, ◌==◌, ◌||◌, IfSome, IsTrue, IsUtf8, List, MatchOption, [], ℕ};
ghost use Rattle.std.specs.List.{list_all};
ghost use Rattle.mx_access.specs.Acl as definition;

/// Whether the whole of a text matches a glob: `*` is any run of characters, `?` is one character, any other character
/// is itself, and the case of ASCII letters is ignored. It takes no memory.
///
/// The time is at most the product of the two lengths, whatever the pattern: where the text stops matching, the last
/// `*` takes one character more, and no earlier one is tried again.
///
/// Source: the Matrix specification, Client-Server API, `m.room.server_acl`.
pub fn glob_matches(pattern: &str, text: &str) -> bool
    ensures { result ≡ definition.glob text.now pattern.now }
{
    let mut wanted = pattern;
    let mut found = text;
    // The pattern after the last `*`, and the text behind what that `*` took.
    let mut last_star: Option<(&str, &str)> = None;
    while let Some((letter, later)) = first_letter(found) {
        match first_letter(wanted) {
            Some((next, after_star)) if next == '*' => {
                wanted = after_star;
                last_star = Some((after_star, found));
            }
            Some((next, others)) if fits(next, letter) => {
                wanted = others;
                found = later;
            }
            _ => {
                let Some((after_star, behind)) = last_star else {
                    return false;
                };
                let Some((_, rest)) = first_letter(behind) else {
                    return false;
                };
                wanted = after_star;
                found = rest;
                last_star = Some((after_star, rest));
            }
        }
    }
    has_only_stars(wanted)
}

// The first character, in lower case where it is an ASCII letter, and the text behind it.
fn first_letter(text: &str) -> Option<(char, &str)>
    ensures letters { MatchOption result
        (definition.letters text.now ≡ [])
        (λ first. definition.letters text.now ≡ first.0 ∷ definition.letters first.1.now) }
    ensures utf8 { IfSome result (λ first. IsUtf8 first.1.now) }
{
    let mut characters = text.chars();
    let first = characters.next()?;
    Some((first.to_ascii_lowercase(), characters.as_str()))
}

// Whether a character of a pattern that is no `*` matches a character of a text.
fn fits(wanted: char, letter: char) -> bool
    ensures { result ≡ ((wanted == 63) || (wanted == letter)) }
{
    wanted == '?' || wanted == letter
}

fn has_only_stars(pattern: &str) -> bool
    ensures { result ≡ list_all (λ (c : ℕ). c == 42) (definition.letters pattern.now) }
{
    let mut rest = pattern;
    while let Some((letter, later)) = first_letter(rest) {
        if letter != '*' {
            return false;
        }
        rest = later;
    }
    true
}

/// A law: a glob matches a text where the pattern ends with the text, where a `*` and any run of characters, a `?` and
/// one character, or one character and itself stand before what matches already, and nowhere else.
pub fn globs_match_by_cases()
    ensures { (pattern : List ℕ) → (text : List ℕ)
        → (IsTrue (definition.glob_matches pattern text) ↔ definition.Matches pattern text) }
{}
