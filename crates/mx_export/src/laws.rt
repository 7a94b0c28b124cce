// What holds of the order of a log.
ghost use Rattle.std.specs.Prelude.{◌≡◌, ◌++◌, [], ℕ, List, true};
ghost use Rattle.std.specs.List.{list_all, list_any};
ghost use Rattle.std.specs.List.Sorted.{IsPermutation};
ghost use Rattle.mx_redact.specs.Fields.{Event};
ghost use Rattle.mx_export.specs.Arrangement.{follow_cited};
ghost use Rattle.mx_export.specs.RoomEvents.{cites, ids_differ, in_circles, in_order, room_events};

/// Each event of a room stands in its log, or among those in circles, exactly once.
pub fn each_event_has_one_place()
    ensures places { (es : List Event) → IsPermutation es (in_order es ++ in_circles es) }
    ensures ids { (room : List ℕ) (create : Event) (es : List Event) → ids_differ (room_events room create es) ≡ true }
{}

/// Each event of a log cites neither itself nor one after it, nor one of those in circles.
pub fn cited_events_come_first()
    ensures { (es : List Event) → follow_cited cites (in_order es) (in_circles es) ≡ true }
{}

/// Each event that is left out cites one that is left out.
pub fn left_out_events_cite_in_circles()
    ensures { (es : List Event) → list_all (λ e. list_any (cites e) (in_circles es)) (in_circles es) ≡ true }
{}

/// Events of which none cites itself or one after it keep their order, and none is left out.
pub fn events_in_order_stay()
    ensures { (es : List Event) → follow_cited cites es [] ≡ true → in_order es ≡ es }
{}
