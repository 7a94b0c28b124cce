// The order of a transaction's events.
ghost use Rattle.std.specs.Prelude.{◌≡◌, ℕ, List};
ghost use Rattle.mx_receipt.specs.Receipt.{Kept};
ghost use Rattle.mx_room.specs.Offer.{Offered as Event};
ghost use Rattle.mx_world.specs.Replies.{body_of};
ghost use Rattle.mx_world.specs.Orders.{after_offers, told_in_turn, AgreeByRoom, AreApart};

/// A transaction's events in two orders in which each room has the same events in the same order leave each room the
/// same record. Where no id stands on events of two rooms, the reply that they call for is the same too.
///
/// So a server may take the rooms' events side by side.
///
/// Source: own; the Matrix specification, Server-Server API, "Transactions", says nothing of the order among rooms.
pub fn agreeing_orders_answer_alike()
    ensures records { (rows : List ℕ → List Kept) (origin : List ℕ) (events others : List Event) → AgreeByRoom events others →
        (room : List ℕ) → after_offers rows origin events room ≡ after_offers rows origin others room }
    ensures reply { (rows : List ℕ → List Kept) (origin : List ℕ) (events others : List Event) → AgreeByRoom events others → AreApart others →
        body_of (told_in_turn rows origin events) ≡ body_of (told_in_turn rows origin others) }
{}
