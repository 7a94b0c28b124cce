// What a directory was made for, as text.
ghost use Rattle.std.specs.Prelude.{◌≡◌, ◌↔◌, bytes_eq, IfOk, IsErrOf, Some, None, option_map, string_bytes};
ghost use Rattle.serde_json.specs.Data.{Data};
ghost use Rattle.serde_json.specs.Errors.{IsMemory};
ghost use Rattle.serde_json.specs.View.{view};
ghost use Rattle.mx_directory.specs.ServerFile as definition;
ghost use Rattle.mx_directory.specs.ServerFile.{IsJsonFor, made_in, shown};

use serde_json::{Value, json};
use std::alloc::{AllocError, Global};
use std::fmt;

/// The layout that files are brought to.
const CURRENT_LAYOUT: u64 = 2;

/// What a directory was made for: a server's name, a number of shards, and a layout of files.
#[derive(Debug, Drop)]
pub(crate) struct MadeFor {
    pub(crate) name: String,
    pub(crate) shards: u64,
    pub(crate) layout: u64,
}

/// Why bytes don't say what a directory was made for.
#[derive(Clone, Copy, Debug, PartialEq, Eq, Drop)]
pub(crate) enum NotMadeFor {
    // No memory was left.
    Memory,
    // They are no JSON that says all of it.
    Malformed,
}

impl From<AllocError> for NotMadeFor {
    ghost use Rattle.std.specs.Prelude.{◌≡◌};
    ghost use Rattle.mx_directory.specs.declared.made_for.NotMadeFor.TheVariants.{Memory};

    ghost from_gives = { λ _ error. error ≡ Memory };

    fn from(_refused: AllocError) -> NotMadeFor {
        NotMadeFor::Memory
    }
}

impl MadeFor {
    /// What these bytes say.
    ///
    /// `Malformed` where they are no JSON that says all of it; `Memory`.
    pub(crate) fn read(alloc: Global, bytes: &[u8]) -> Result<MadeFor, NotMadeFor>
        ensures ok { IfOk result (λ made. (d : Data) × IsJsonFor d bytes.now × (made_in d ≡ Some (shown made))) }
        ensures malformed { IsErrOf result NotMadeFor.Malformed → (d : Data) → IsJsonFor d bytes.now → made_in d ≡ None }
    {
        let value = value_of(alloc, bytes)?;
        match MadeFor::of_value(alloc, &value)? {
            Some(made) => Ok(made),
            None => Err(NotMadeFor::Malformed),
        }
    }

    fn of_value(alloc: Global, value: &Value) -> Result<Option<MadeFor>, AllocError>
        ensures { IfOk result (λ made. option_map shown made ≡ made_in (view value.now)) }
    {
        let Some(name) = value.get("name").and_then(Value::as_str) else {
            return Ok(None);
        };
        let (Some(shards), Some(layout)) = (count_in(value, "shards"), count_in(value, "layout"))
        else {
            return Ok(None);
        };
        let name = String::from_str(alloc, name)?;
        Ok(Some(MadeFor {
            name,
            shards,
            layout,
        }))
    }

    /// Whether a server of this name has such files.
    pub(crate) fn is_named(&self, name: &str) -> bool
        ensures { result ≡ bytes_eq (string_bytes self.now.name) name.now }
    {
        self.name.as_str() == name
    }

    /// Whether a server of so many shards has such files, in the layout that files are brought to.
    pub(crate) fn has_shards(&self, shards: u64) -> bool
        ensures { result ≡ definition.has_shards shards (shown self.now) }
    {
        (self.shards == shards) & (self.layout == CURRENT_LAYOUT)
    }
}

// The value that these bytes are JSON for.
fn value_of(alloc: Global, bytes: &[u8]) -> Result<Value, NotMadeFor>
    ensures ok { IfOk result (λ value. IsJsonFor (view value) bytes.now) }
    ensures malformed { IsErrOf result NotMadeFor.Malformed → (d : Data) → ¬ IsJsonFor d bytes.now }
{
    let value = Value::from_slice(alloc, bytes).map_err(of_json)?;
    Ok(value)
}

fn of_json(error: serde_json::Error) -> NotMadeFor
    ensures memory { (result ≡ NotMadeFor.Memory) ↔ IsMemory error }
    ensures malformed { (result ≡ NotMadeFor.Malformed) ↔ ¬ IsMemory error }
{
    if error.is_memory() {
        NotMadeFor::Memory
    } else {
        NotMadeFor::Malformed
    }
}

fn count_in(value: &Value, key: &str) -> Option<u64>
    ensures { result ≡ definition.count_in key.now (view value.now) }
{
    value.get(key).and_then(Value::as_u64)
}

/// The line that says so.
pub(crate) fn made_line(alloc: Global, name: &str, shards: u64) -> Result<String, AllocError>
    ensures { IfOk result (λ line. string_bytes line ≡ definition.made_line name.now shards) }
{
    let mut line = made_value(alloc, name, shards)?.to_string(alloc)?;
    line.push('\n')?;
    Ok(line)
}

fn made_value(alloc: Global, name: &str, shards: u64) -> Result<Value, AllocError>
    ensures { IfOk result (λ value. view value ≡ definition.made_value name.now shards) }
{
    json!(in alloc; {"layout": CURRENT_LAYOUT, "name": name, "shards": shards})
}

impl fmt::Display for MadeFor {
    fn fmt<W: fmt::Write>(&self, f: &mut fmt::Formatter<W>) -> fmt::Result {
        let plural = if self.shards == 1 { "" } else { "s" };
        write!(
            f,
            "made for {} with {} shard{plural}",
            self.name, self.shards
        )?;
        if self.layout != CURRENT_LAYOUT {
            write!(f, " in layout {}", self.layout)?;
        }
        Ok(())
    }
}
