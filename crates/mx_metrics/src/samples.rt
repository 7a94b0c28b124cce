// Figures in the text form of Prometheus.
ghost use Rattle.std.specs.Prelude.{◌≡◌, ◌++◌, OnOk, string_bytes};
ghost use Rattle.mx_metrics.specs.Samples as definition;

use std::alloc::AllocError;

/// What kind of figures a family has.
///
/// Source: Prometheus, "Exposition formats", "Comments, help text, and type information".
#[derive(Clone, Copy, Debug, PartialEq, Eq)]
pub enum FamilyKind {
    Counter,
    Gauge,
    Histogram,
}

impl FamilyKind {
    fn name(self) -> &'static str
        ensures { result.now ≡ definition.kind_name self }
    {
        match self {
            FamilyKind::Counter => "counter",
            FamilyKind::Gauge => "gauge",
            FamilyKind::Histogram => "histogram",
        }
    }
}

/// Figures of one name, what they are, and of what kind. The words have no newline and no backslash.
#[derive(Clone, Copy, Debug)]
pub struct Family<'a> {
    pub name: &'a str,
    pub help: &'a str,
    pub kind: FamilyKind,
}

/// What a figure is of. The value has no quotes, no newline and no backslash.
#[derive(Clone, Copy, Debug)]
pub struct Label<'a> {
    pub name: &'a str,
    pub value: &'a str,
}

/// Of what a figure is: of nothing apart, or of what one or two labels say.
#[derive(Clone, Copy, Debug)]
pub enum Labels<'a> {
    None,
    One(Label<'a>),
    Two(Label<'a>, Label<'a>),
}

/// Adds the two lines that tell of a family. `AllocError` where no memory is left.
///
/// Source: Prometheus, "Exposition formats", "Text-based format".
pub fn write_family(text: &mut String, family: &Family<'_>) -> Result<(), AllocError>
    ensures { OnOk result (string_bytes text.new ≡ string_bytes text.old
        ++ definition.family_text family.now.name.now family.now.help.now family.now.kind) }
{
    let name = family.name;
    let help = family.help;
    let kind = family.kind.name();
    write!(text, "# HELP {name} {help}\n# TYPE {name} {kind}\n")
}

/// Adds the line of one figure. `AllocError` where no memory is left.
///
/// Source: Prometheus, "Exposition formats", "Text-based format".
pub fn write_sample(
    text: &mut String,
    name: &str,
    labels: &Labels<'_>,
    value: u64,
) -> Result<(), AllocError>
    ensures { OnOk result (string_bytes text.new ≡ string_bytes text.old
        ++ definition.sample_text name.now (definition.labels_shown labels.now) value) }
{
    match labels {
        Labels::None => writeln!(text, "{name} {value}"),
        Labels::One(label) => {
            let first = label.name;
            let word = label.value;
            writeln!(text, "{name}{{{first}=\"{word}\"}} {value}")
        }
        Labels::Two(label, other) => {
            let first = label.name;
            let word = label.value;
            let second = other.name;
            let other_word = other.value;
            writeln!(
                text,
                "{name}{{{first}=\"{word}\",{second}=\"{other_word}\"}} {value}"
            )
        }
    }
}
