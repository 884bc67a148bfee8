// The table of lock kinds: which two go together on a page.
ghost use Rattle.std.specs.Prelude.{◌≡◌};
ghost use Rattle.slots.specs.Locks.{lock_table};

// A row for the kind held, in it a place for the kind wanted: whether they clash. Rows and places in the order of the kinds' numbers, less 1:
// ρ, ξ, updater's ρ, α.
pub fn lock_table() -> [[bool; 4]; 4]
    ensures { result ≡ lock_table }
{
    [
        [false, true, false, false],
        [true, true, true, true],
        [false, true, false, true],
        [false, true, true, true],
    ]
}
