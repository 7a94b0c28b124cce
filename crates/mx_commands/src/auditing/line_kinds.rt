// The kinds of lines that an audit tells, and how many lines are of each.
ghost use Rattle.std.specs.Prelude.{◌≡◌, ◌+◌, length};
ghost use Rattle.std.specs.List.{filter};
ghost use Rattle.mx_commands.specs.LineKinds as definition;

use mx_lines::RefusedCause;
use mx_receipt::Verdict;

/// What kind of line an audit tells: of an event that was kept, under its verdict; of one that was refused; or of a value
/// that is no event.
#[derive(Clone, Copy, Debug)]
pub(crate) enum LineKind {
    Accepted,
    SoftFailed,
    Rejected,
    Refused(RefusedCause),
    Malformed,
}

impl LineKind {
    /// Of an event that was kept under this verdict.
    pub(crate) fn of_verdict(verdict: Verdict) -> LineKind {
        match verdict {
            Verdict::Accepted => LineKind::Accepted,
            Verdict::SoftFailed(_) => LineKind::SoftFailed,
            Verdict::Rejected(_) => LineKind::Rejected,
        }
    }

    fn is_accepted(self) -> bool
        ensures { result ≡ definition.is_accepted self }
    {
        matches!(self, LineKind::Accepted)
    }

    fn is_soft_failed(self) -> bool
        ensures { result ≡ definition.is_soft_failed self }
    {
        matches!(self, LineKind::SoftFailed)
    }

    fn is_rejected(self) -> bool
        ensures { result ≡ definition.is_rejected self }
    {
        matches!(self, LineKind::Rejected)
    }

    fn is_refused(self) -> bool
        ensures { result ≡ definition.is_refused self }
    {
        matches!(self, LineKind::Refused(_))
    }

    fn is_malformed(self) -> bool
        ensures { result ≡ definition.is_malformed self }
    {
        matches!(self, LineKind::Malformed)
    }

    /// Whether it is of an event that was refused for this.
    pub(crate) fn is_refused_for(self, cause: RefusedCause) -> bool {
        match self {
            LineKind::Refused(why) => why == cause,
            _ => false,
        }
    }
}

/// How many lines are of each kind.
#[derive(Clone, Copy, Debug)]
pub(crate) struct Sum {
    pub(crate) accepted: usize,
    pub(crate) soft_failed: usize,
    pub(crate) rejected: usize,
    pub(crate) refused: usize,
    pub(crate) malformed: usize,
}

/// How many of these lines are of each kind. Each line is counted once.
pub(crate) fn sum_of(kinds: &[LineKind]) -> Sum
    ensures accepted { result.accepted ≡ length (filter definition.is_accepted kinds.now) }
    ensures soft_failed { result.soft_failed ≡ length (filter definition.is_soft_failed kinds.now) }
    ensures rejected { result.rejected ≡ length (filter definition.is_rejected kinds.now) }
    ensures refused { result.refused ≡ length (filter definition.is_refused kinds.now) }
    ensures malformed { result.malformed ≡ length (filter definition.is_malformed kinds.now) }
    ensures total { result.accepted + result.soft_failed + result.rejected + result.refused + result.malformed ≡ length kinds.now }
{
    Sum {
        accepted: count_accepted(kinds),
        soft_failed: count_soft_failed(kinds),
        rejected: count_rejected(kinds),
        refused: count_refused(kinds),
        malformed: count_malformed(kinds),
    }
}

fn count_accepted(kinds: &[LineKind]) -> usize
    ensures { result ≡ length (filter definition.is_accepted kinds.now) }
{
    kinds.iter().filter(|kind| kind.is_accepted()).count()
}

fn count_soft_failed(kinds: &[LineKind]) -> usize
    ensures { result ≡ length (filter definition.is_soft_failed kinds.now) }
{
    kinds.iter().filter(|kind| kind.is_soft_failed()).count()
}

fn count_rejected(kinds: &[LineKind]) -> usize
    ensures { result ≡ length (filter definition.is_rejected kinds.now) }
{
    kinds.iter().filter(|kind| kind.is_rejected()).count()
}

fn count_refused(kinds: &[LineKind]) -> usize
    ensures { result ≡ length (filter definition.is_refused kinds.now) }
{
    kinds.iter().filter(|kind| kind.is_refused()).count()
}

fn count_malformed(kinds: &[LineKind]) -> usize
    ensures { result ≡ length (filter definition.is_malformed kinds.now) }
{
    kinds.iter().filter(|kind| kind.is_malformed()).count()
}
