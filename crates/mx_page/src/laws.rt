// Laws of the page's data.
ghost use Rattle.std.specs.Prelude.{◌≡◌, ◌==◌, ◌++◌, ℕ, T, List, false, length};
ghost use Rattle.std.specs.List.{list_any};
ghost use Rattle.std.specs.FinMap.Entries.{is_sorted};
ghost use Rattle.mx_graph.specs.StateMap.{State, key_cmp};
ghost use Rattle.mx_receipt.specs.Receipt.{Kept};
ghost use Rattle.mx_page.specs.Changes.{changed, changes};
ghost use Rattle.mx_page.specs.Escaping.{escaped};
ghost use Rattle.mx_page.specs.Page.{data_end, data_start, data_text, escaped_entries, escaped_refused, refused_start};

/// A law: what differs between two states, read as changes of the first, gives the second. It does nothing: this is what it
/// ensures.
pub fn changes_make_the_state()
    ensures { (old new : State) → T (is_sorted key_cmp old) → T (is_sorted key_cmp new) → changed old (changes old new) ≡ new }
{}

/// A law: nothing in escaped data begins a tag, so that nothing in it ends its script. It does nothing: this is what it
/// ensures.
///
/// Source: HTML Standard, "Restrictions for contents of script elements".
pub fn data_has_no_tag()
    ensures { (text : List ℕ) → list_any (λ b. b == 60) (escaped text) ≡ false }
{}

/// A law: the beginning, the entries as they are written, one after another, the lines of events that were not kept, and
/// the end are the escaped data of the room. It does nothing: this is what it ensures.
pub fn entries_make_the_data()
    ensures { (room : List ℕ) (kept : List Kept) (refused : List (List ℕ)) → escaped (data_text room kept refused)
        ≡ escaped (data_start room) ++ (escaped_entries kept (length kept) ++ (refused_start ++ (escaped_refused false refused ++ data_end))) }
{}
