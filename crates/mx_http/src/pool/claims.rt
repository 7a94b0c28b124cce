// What requests claim.
ghost use Rattle.std.specs.Prelude.{◌≡◌};
ghost use Rattle.mx_http.specs.Claims.{conflicts, may_begin, must_wait};

/// What a request claims of the shards, which are the parts of what its responders share, counted from 0. Of those that
/// claim the same one is answered at a time, so that no two threads wait for one shard.
#[derive(Clone, Copy, Debug)]
pub enum Claim {
    // Nothing: it was not read, or goes to no shard.
    Nothing,
    // It asks one shard.
    Asks(usize),
    // It changes one shard.
    Changes(usize),
    // It goes to several shards in turn.
    Several,
}

impl Claim {
    // Whether a request with the one claim has to wait for one with the other.
    fn conflicts(self, other: Claim) -> bool
        ensures { result ≡ conflicts self other }
    {
        match (self, other) {
            (Claim::Asks(shard), Claim::Asks(other))
            | (Claim::Changes(shard), Claim::Changes(other)) => shard == other,
            (Claim::Several, Claim::Several) => true,
            _ => false,
        }
    }
}

// Whether a request with this claim has to wait for one of those at work.
fn must_wait(at_work: &[Claim], claim: Claim) -> bool
    ensures { result ≡ must_wait at_work.now claim }
{
    at_work.iter().any(|other| claim.conflicts(*other))
}

/// Whether a request with this claim may begin beside those at work.
pub fn may_begin(at_work: &[Claim], claim: Claim) -> bool
    ensures { result ≡ may_begin at_work.now claim }
{
    !must_wait(at_work, claim)
}
