// Fresh terms: the module's SymbolGen, a counter that the caller lends.
#![tactic(auto)]

ghost use Rattle.std.specs.Prelude.{◌≡◌};
ghost use Rattle.form_symbols.specs.Step.{after};

// The count of terms, which is the next fresh term's number.
#[derive(Clone, Copy, Debug, PartialEq, Eq)]
pub struct SymbolGen {
    pub next: usize,
}

// A fresh term's number, and the counter after it was taken.
#[derive(Clone, Copy, Debug, PartialEq, Eq)]
pub struct Fresh {
    pub taken: usize,
    pub left: SymbolGen,
}

impl SymbolGen {
    // A fresh term, and the counter moved by one. The largest number is no term: there the counter stays.
    #[tactic(auto, unfolding(crate::specs::Step::after))]
    pub fn fresh(self) -> Fresh
        ensures { (result.taken ≡ self.next) × (result.left.next ≡ after self.next) }
    {
        Fresh {
            taken: self.next,
            left: SymbolGen {
                next: self.next.saturating_add(1),
            },
        }
    }
}

// Takes a fresh term from a counter that the caller lends.
pub fn take_fresh(counter: &mut SymbolGen) -> usize
    ensures { (result ≡ counter.old.next) × (counter.new.next ≡ after counter.old.next) }
{
    let fresh = counter.fresh();
    *counter = fresh.left;
    fresh.taken
}

// The same for a caller that has the count alone: the counter is made and lent here.
pub fn fresh_after(count: usize) -> Fresh
    ensures { (result.taken ≡ count) × (result.left.next ≡ after count) }
{
    let mut counter = SymbolGen { next: count };
    let taken = take_fresh(&mut counter);
    Fresh {
        taken,
        left: counter,
    }
}
