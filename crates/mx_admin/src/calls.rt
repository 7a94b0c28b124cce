// What is asked at the admin port.
ghost use Rattle.std.specs.Prelude.{◌≡◌};
ghost use Rattle.mx_admin.specs.Calls as definition;

/// What a request at the admin port asks.
///
/// `Health`: whether the server is well. `Metrics`: what it counts. `Rooms`: which rooms it hosts. `HostRoom`: that it hosts one
/// more. `UnknownMethod`: one of these by another method. `UnknownPath`: another path.
#[derive(Clone, Copy, Debug, PartialEq, Eq)]
pub enum AdminCall {
    Health,
    Metrics,
    Rooms,
    HostRoom,
    UnknownMethod,
    UnknownPath,
}

impl AdminCall {
    /// What a request of this method for this path asks.
    pub fn of(method: &[u8], path: &[u8]) -> AdminCall
        ensures { result ≡ definition.call_of method.now path.now }
    {
        if path == b"/health".as_slice() {
            by_get(method, AdminCall::Health)
        } else if path == b"/metrics".as_slice() {
            by_get(method, AdminCall::Metrics)
        } else if path == b"/rooms".as_slice() {
            of_rooms(method)
        } else {
            AdminCall::UnknownPath
        }
    }
}

// This call, where the method is GET.
fn by_get(method: &[u8], call: AdminCall) -> AdminCall
    ensures { result ≡ definition.by_get method.now call }
{
    if method == b"GET".as_slice() {
        call
    } else {
        AdminCall::UnknownMethod
    }
}

// What is asked of the rooms by this method.
fn of_rooms(method: &[u8]) -> AdminCall
    ensures { result ≡ definition.of_rooms method.now }
{
    if method == b"POST".as_slice() {
        AdminCall::HostRoom
    } else {
        by_get(method, AdminCall::Rooms)
    }
}
