// Reading a page's words: its level, its number of pairs, where a key stands in it, what is at or above it and where it leads.
// A `Page` has the words that are read; the methods that look for a key ask also that the keys rise.
ghost use Rattle.std.specs.Prelude.{◌<◌, ◌≤◌, length, get_or, true, false, ◌≡◌};
ghost use Rattle.page.specs.Place.{place as place_of, pointer as pointer_of, route as route_of, at_or_above};
ghost use Rattle.page.specs.Reading.{Readable, FirstFrom, looked, nearest};
ghost use Rattle.page.specs.Short.{neighbour as neighbour_of, has_right, between_at};
ghost use Rattle.page.specs.Sound.{rises};
ghost use Rattle.page.specs.Splits.{entry_at};
ghost use Rattle.page.specs.Words.{view, is_leaf, pairs_from};

// Where a page's pairs begin: behind word 1 in a leaf, behind p0 above.
pub fn pairs_from(level: u32) -> usize
    ensures { result ≡ pairs_from level }
{
    if level == 1 { 2 } else { 3 }
}

// Word 0, of words of which no more is known than that they have a level and a number.
pub fn level(w: &[u32]) -> u32
    requires { 3 ≤ length w.now }
    ensures { result ≡ (view w.now).level }
{
    w[0]
}

// Word 1, the number μ, likewise.
pub fn count(w: &[u32]) -> usize
    requires { 3 ≤ length w.now }
    ensures { result ≡ get_or w.now 1 0 }
{
    w[1] as usize
}

// A leaf is level 1.
pub fn is_leaf(w: &[u32]) -> bool
    requires { 3 ≤ length w.now }
    ensures { result ≡ is_leaf (view w.now) }
{
    level(w) == 1
}

// A page, read where its words lie.
#[derive(Clone, Copy)]
pub struct Page<'a> {
    pub words: &'a [u32],
    ghost readable: { Readable words.now },
}

impl Page<'_> {
    // Word 0.
    pub fn level(self) -> u32
        ensures { result ≡ (view self.entry.words.now).level }
    {
        level(self.words)
    }

    // Word 1, the number μ.
    pub fn count(self) -> usize
        ensures { result ≡ get_or self.entry.words.now 1 0 }
    {
        count(self.words)
    }

    // A leaf is level 1.
    pub fn is_leaf(self) -> bool
        ensures { result ≡ is_leaf (view self.entry.words.now) }
    {
        is_leaf(self.words)
    }

    // Where its pairs begin.
    pub fn pairs_from(self) -> usize
        ensures { result ≡ pairs_from (get_or self.entry.words.now 0 0) }
    {
        pairs_from(self.level())
    }

    // The key of pair i.
    pub fn key(self, i: usize) -> u32
        requires { i < get_or self.words.now 1 0 }
        ensures { result ≡ (entry_at i (view self.entry.words.now).entries).key }
    {
        self.words[self.pairs_from() + 2 * i]
    }

    // What stands behind the key of pair i.
    pub fn value(self, i: usize) -> u32
        requires { i < get_or self.words.now 1 0 }
        ensures { result ≡ (entry_at i (view self.entry.words.now).entries).value }
    {
        self.words[self.pairs_from() + 2 * i + 1]
    }

    // How many keys are at most x, by halving. The first `low` keys are, and of the `left` next ones it is not known yet: the one in the
    // middle tells it of itself and of one side. That is added and taken off as a number, since no processor foresees which side.
    // Stays: the theorem `six_comparisons` counts the steps of this loop, and the library's `partition_point` says nothing of theirs.
    pub fn place(self, x: u32) -> usize
        requires { rises (view self.words.now).entries ≡ true }
        ensures value { result ≡ place_of x (view self.entry.words.now).entries }
        ensures upper_bound { result ≤ get_or self.entry.words.now 1 0 }
    {
        let w = self.words;
        let from = self.pairs_from();
        let mut low = 0;
        let mut left = self.count();
        while 0 < left {
            let half = left / 2;
            let middle = w[from + 2 * (low + half)];
            let passed = if middle <= x { 1 } else { 0 };
            low += (half + 1) * passed;
            left = (left - passed) / 2;
        }
        low
    }

    // The information under x in a leaf, if x stands there. A key that is there stands just before its place.
    pub fn look(self, x: u32) -> Option<u32>
        requires { rises (view self.words.now).entries ≡ true }
        ensures { result ≡ looked x (view self.entry.words.now).entries }
    {
        let i = self.place(x);
        if i == 0 || self.key(i - 1) != x {
            return None;
        }
        Some(self.value(i - 1))
    }

    // How many keys are below x. A key x stands just before its place.
    fn keys_below(self, x: u32) -> usize
        requires { rises (view self.words.now).entries ≡ true }
        ensures { FirstFrom x (view self.entry.words.now).entries result }
    {
        let i = self.place(x);
        if 0 < i && self.key(i - 1) == x {
            i - 1
        } else {
            i
        }
    }

    // The first entry whose key is at or above x: its key and what stands behind it.
    pub fn at_or_above(self, x: u32) -> Option<(u32, u32)>
        requires { rises (view self.words.now).entries ≡ true }
        ensures { result ≡ nearest (at_or_above x (view self.entry.words.now).entries) }
    {
        let i = self.keys_below(x);
        if self.count() <= i {
            return None;
        }
        Some((self.key(i), self.value(i)))
    }

    // pi, above the leaves.
    pub fn pointer(self, i: usize) -> u32
        requires above_leaves { is_leaf (view self.words.now) ≡ false }
        requires i_bound { i ≤ get_or self.words.now 1 0 }
        ensures { result ≡ pointer_of i (view self.entry.words.now) }
    {
        self.words[2 + 2 * i]
    }

    // The page to which x leads, above the leaves.
    pub fn route(self, x: u32) -> u32
        requires above_leaves { is_leaf (view self.words.now) ≡ false }
        requires rising { rises (view self.words.now).entries ≡ true }
        ensures { result ≡ route_of x (view self.entry.words.now) }
    {
        self.pointer(self.place(x))
    }

    // Of the father: the page to which it routes x has a right neighbour under it.
    pub fn has_right(self, x: u32) -> bool
        requires { rises (view self.words.now).entries ≡ true }
        ensures { result ≡ has_right x (view self.entry.words.now) }
    {
        self.place(x) < self.count()
    }

    // Of the father: which reference key stands between the page to which it routes x and that page's neighbour.
    pub fn between_at(self, x: u32) -> usize
        requires rising { rises (view self.words.now).entries ≡ true }
        requires bound { 1 ≤ get_or self.words.now 1 0 }
        ensures value { result ≡ between_at x (view self.entry.words.now) }
        ensures upper_bound { result < get_or self.entry.words.now 1 0 }
    {
        let i = self.place(x);
        if i < self.count() { i } else { i - 1 }
    }

    // Of the father: the neighbour of the page to which it routes x, the right one if there is one.
    pub fn neighbour(self, x: u32) -> u32
        requires above_leaves { is_leaf (view self.words.now) ≡ false }
        requires rising { rises (view self.words.now).entries ≡ true }
        requires bound { 1 ≤ get_or self.words.now 1 0 }
        ensures { result ≡ neighbour_of x (view self.entry.words.now) }
    {
        let i = self.place(x);
        if i < self.count() {
            self.pointer(i + 1)
        } else {
            self.pointer(i - 1)
        }
    }
}
