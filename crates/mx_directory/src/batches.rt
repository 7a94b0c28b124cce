// The first files of a kind, a few at a time.
ghost use Rattle.std.specs.Prelude.{◌≡◌, ◌-◌, IfOk, length, min};

use crate::errors::StartError;
use crate::presence::path_of;
use std::alloc::Global;

/// How many files are opened at once, each by a thread where one can be started.
pub(crate) const FILES_AT_ONCE: usize = 8;

/// The first files of a kind in a directory.
#[derive(Clone, Copy)]
pub(crate) struct FirstFiles<'a> {
    pub(crate) directory: &'a str,
    pub(crate) kind: &'a str,
    pub(crate) count: usize,
}

impl FirstFiles<'_> {
    /// The paths of the files that are opened at once, from this number on.
    pub(crate) fn batch(&self, alloc: Global, first: usize) -> Result<Vec<String>, StartError>
        ensures { IfOk result (λ paths. length paths.items ≡ min FILES_AT_ONCE (self.now.count - first)) }
    {
        let width = FILES_AT_ONCE.min(self.count.saturating_sub(first));
        let mut paths = Vec::new(alloc);
        for place in 0..width {
            let path = path_of(alloc, self.directory, self.kind, first + place)?;
            paths.push(path)?;
        }
        Ok(paths)
    }
}
