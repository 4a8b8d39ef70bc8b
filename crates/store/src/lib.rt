#![tactic(auto)]

ghost use Rattle.std.specs.Prelude.{◌≡◌, ◌<◌, IfSome, Decides};
ghost use Rattle.model.specs.Receipt.{Receipt, Lawful, count_of, label_of, level_of, parent_of, first_child_of, next_sibling_of, previous_sibling_of, innermost, last_inside};

// A store holds a lawful receipt, and each answer is that receipt's; a question changes nothing.
// A rank beyond the last element, and a relative that is not there, answer `None`.
pub trait Store {
    // The receipt that the store holds.
    ghost receipt: { Self → Receipt };

    // The number of elements.
    fn count(&self) -> usize
        ensures { result ≡ count_of (receipt self.now) };

    // The level that the next element would open at.
    fn depth(&self) -> u8
        ensures { result ≡ (receipt self.now).depth };

    fn label(&self, rank: usize) -> Option<u16>
        ensures { result ≡ label_of (receipt self.now) rank };

    fn level(&self, rank: usize) -> Option<u8>
        ensures { result ≡ level_of (receipt self.now) rank };

    fn parent(&self, rank: usize) -> Option<usize>
        ensures value { result ≡ parent_of (receipt self.now) rank }
        ensures bound { IfSome result (λ p. (p < rank) × (rank < count_of (receipt self.now))) };

    fn first_child(&self, rank: usize) -> Option<usize>
        ensures value { result ≡ first_child_of (receipt self.now) rank }
        ensures bound { IfSome result (λ c. (rank < c) × (c < count_of (receipt self.now))) };

    fn next_sibling(&self, rank: usize) -> Option<usize>
        ensures value { result ≡ next_sibling_of (receipt self.now) rank }
        ensures bound { IfSome result (λ s. (rank < s) × (s < count_of (receipt self.now))) };

    fn previous_sibling(&self, rank: usize) -> Option<usize>
        ensures value { result ≡ previous_sibling_of (receipt self.now) rank }
        ensures bound { IfSome result (λ s. (s < rank) × (rank < count_of (receipt self.now))) };

    // The receipt of every value is lawful.
    ghost lawful: { (s : Self) → Lawful (receipt s) };
}

// Where the element of the next opening would stand.
#[derive(Clone, Copy, PartialEq, Eq, Debug)]
pub struct Place {
    // Its parent: the innermost open element.
    pub parent: Option<usize>,
    // Its previous sibling: the last child of that parent.
    pub previous: Option<usize>,
}

// The place of the next opening's element, found from the last element upwards. On an empty or an ended receipt it has no relatives.
pub fn next_place<S: Store>(s: &S) -> Place
    ensures parent { result.parent ≡ innermost (S.receipt s.now) }
    ensures previous { result.previous ≡ last_inside (S.receipt s.now) }
{
    let depth = s.depth();
    if depth == 0 {
        return Place {
            parent: None,
            previous: None,
        };
    }
    let mut parent = s.count().checked_sub(1);
    let mut previous = None;
    'up: while let Some(at) = parent
        && s.level(at).is_some_and(|l| l >= depth)
    {
        previous = Some(at);
        parent = s.parent(at);
    }
    Place { parent, previous }
}

// Whether both stores have the same label and level at a rank.
fn same_element<S: Store, U: Store>(s: &S, u: &U, rank: usize) -> bool
    ensures { Decides result ((label_of (S.Store.receipt s.now) rank ≡ label_of (U.Store.receipt u.now) rank) × (level_of (S.Store.receipt s.now) rank ≡ level_of (U.Store.receipt u.now) rank)) }
{
    s.label(rank) == u.label(rank) && s.level(rank) == u.level(rank)
}

// Whether two stores hold the same receipt.
pub fn same_receipt<S: Store, U: Store>(s: &S, u: &U) -> bool
    ensures { Decides result (S.Store.receipt s.now ≡ U.Store.receipt u.now) }
{
    s.count() == u.count()
        && s.depth() == u.depth()
        && (0..s.count()).all(|rank| same_element(s, u, rank))
}
