// The target of a request: its path, and what stands behind it.
ghost use Rattle.std.specs.Prelude.{◌≡◌};
ghost use Rattle.mx_requests.specs.Targets as definition;

pub(crate) mod parameters;
pub(crate) mod route_parameters;
pub(crate) mod routes;
pub(crate) mod segments;

/// The path of a target: what stands before the first `?`.
pub(crate) fn path_of(target: &str) -> &str
    ensures { result.now ≡ definition.path_of target.now }
{
    match target.split_once('?') {
        Some((path, _)) => path,
        None => target,
    }
}

/// The query of a target: what stands after the first `?`, or nothing.
pub(crate) fn query_of(target: &str) -> &str
    ensures { result.now ≡ definition.query_of target.now }
{
    match target.split_once('?') {
        Some((_, query)) => query,
        None => "",
    }
}
