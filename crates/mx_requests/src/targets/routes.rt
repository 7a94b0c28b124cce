// The routes of the Server-Server API, and the route of a path.
ghost use Rattle.std.specs.Prelude.{◌≡◌, OnOk};
ghost use Rattle.mx_requests.specs.Targets as definition;

use matchit::Router;
use std::alloc::{AllocError, Global};

/// What a request asks: one of the routes under `/_matrix/federation`.
///
/// Source: the Server-Server API of the Matrix specification, versions 1 and 2 of its routes.
#[derive(Clone, Copy, Debug, PartialEq, Eq, Drop)]
pub enum Route {
    Send,
    Event,
    State,
    StateIds,
    EventAuth,
    Backfill,
    GetMissingEvents,
    MakeJoin,
    SendJoin,
}

impl Route {
    ghost use Rattle.std.specs.Prelude.{◌≡◌};
    ghost use Rattle.mx_requests.specs.Targets.{method_of, pattern_of};

    /// The pattern of its paths, in which a parameter stands in braces.
    pub(crate) fn pattern(self) -> &'static str
        ensures { result.now ≡ pattern_of self }
    {
        match self {
            Route::Send => "/_matrix/federation/v1/send/{txn_id}",
            Route::Event => "/_matrix/federation/v1/event/{event_id}",
            Route::State => "/_matrix/federation/v1/state/{room_id}",
            Route::StateIds => "/_matrix/federation/v1/state_ids/{room_id}",
            Route::EventAuth => "/_matrix/federation/v1/event_auth/{room_id}/{event_id}",
            Route::Backfill => "/_matrix/federation/v1/backfill/{room_id}",
            Route::GetMissingEvents => "/_matrix/federation/v1/get_missing_events/{room_id}",
            Route::MakeJoin => "/_matrix/federation/v1/make_join/{room_id}/{user_id}",
            Route::SendJoin => "/_matrix/federation/v2/send_join/{room_id}/{event_id}",
        }
    }

    /// The one method of the route.
    pub(crate) fn method(self) -> &'static str
        ensures { result.now ≡ method_of self }
    {
        match self {
            Route::Send | Route::SendJoin => "PUT",
            Route::GetMissingEvents => "POST",
            Route::Event | Route::State | Route::StateIds | Route::EventAuth => "GET",
            Route::Backfill | Route::MakeJoin => "GET",
        }
    }
}

/// The table of the routes, made once.
#[derive(Drop)]
pub struct Routes {
    router: Router<Route>,
    ghost is_table: { router ≡ definition.table },
}

impl Routes {
    ghost use Rattle.std.specs.Prelude.{◌≡◌};
    ghost use Rattle.mx_requests.specs.Targets.{route_of, table};

    /// The table. `AllocError` is its one error.
    pub fn new(alloc: Global) -> Result<Routes, AllocError> {
        let mut router = Router::new(alloc);
        add(&mut router, Route::Send)?;
        add(&mut router, Route::Event)?;
        add(&mut router, Route::State)?;
        add(&mut router, Route::StateIds)?;
        add(&mut router, Route::EventAuth)?;
        add(&mut router, Route::Backfill)?;
        add(&mut router, Route::GetMissingEvents)?;
        add(&mut router, Route::MakeJoin)?;
        add(&mut router, Route::SendJoin)?;
        Ok(Routes { router })
    }

    /// The route of a path, before anything in it is decoded. It takes no memory.
    ///
    /// The constant parts match byte for byte, and a parameter is one segment of at least one byte, so that a slash at
    /// the end is part of no route.
    #[tactic(auto, unfolding(crate::specs::Targets::route_of))]
    pub(crate) fn route_of(&self, path: &str) -> Option<Route>
        ensures { result ≡ route_of path.now }
    {
        match self.router.at(path) {
            Ok(found) => Some(*found.value),
            Err(_) => None,
        }
    }
}

fn add(router: &mut Router<Route>, route: Route) -> Result<(), AllocError>
    ensures { OnOk result (router.new ≡ definition.with_route route router.old) }
{
    match router.insert(route.pattern(), route) {
        Ok(()) => Ok(()),
        Err(_) => Err(AllocError),
    }
}
